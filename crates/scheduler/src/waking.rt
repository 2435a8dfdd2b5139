// Waiting and waking: create, affinity, terminate, block, wake and enqueue.
//
// Each method begins with its refusals, in the order of document 01's table. A call takes the state by value, so that a refusal
// is a Reply with the state in it, which `?` can't make of an error: what several methods test alike stands in each.
ghost use Rattle.std.specs.Prelude.{◌≡◌, map};
ghost use Rattle.rules.specs.Waking.{released};
ghost use Rattle.scheduler.specs.Scheduler.{Meets, abs};
ghost use Rattle.scheduler.specs.Private.{OutOf, in_use_at};

use crate::scheduler::{NO_HOLDER, QoSScheduler, Reply};
use queue::BandQueue;
use records::{
    BAND_COUNT, MAX_CPUS, QoSClass, SchedError, Slot, TaskControlBlock, ThreadState, Tid,
};
use rules::{Call, Value};

impl QoSScheduler {
    // A task in the kernel's own address space: cr3 and rsp0 are 0.
    pub fn create_task(self, tid: Tid, qos: QoSClass, context_handle: u64) -> Reply
        ensures { Meets (Call.Create tid qos context_handle 0 0) self result }
    {
        self.create_task_with_vspace(tid, qos, context_handle, 0, 0)
    }

    // A task in the lowest slot not in use, Blocked; the slot is the answer. Refused where every slot is in use.
    pub fn create_task_with_vspace(
        mut self,
        tid: Tid,
        qos: QoSClass,
        context_handle: u64,
        cr3: u64,
        rsp0: u64,
    ) -> Reply
        ensures { Meets (Call.Create tid qos context_handle cr3 rsp0) self result }
    {
        let Some(free) = self.tasks.iter().position(|task| !task.in_use) else {
            return self.refused(SchedError::TableFull);
        };
        self.tasks[free] = TaskControlBlock::created(tid, qos, context_handle, cr3, rsp0);
        self.told(Value::Slot(Some(Slot(free))))
    }

    // The cores that the slot's task may use; mask 0 is stored as all ones. Free slots have a mask too. Refused for a slot
    // of 64 and above.
    pub fn set_task_affinity(mut self, slot: Slot, mask: u64) -> Reply
        ensures { Meets (Call.Affinity slot mask) self result }
    {
        let Some(task) = self.task(slot) else {
            return self.refused(SchedError::NoSuchTask);
        };
        self.tasks[slot.0] = task.with_affinity(mask);
        self.told(Value::Nothing)
    }

    // The slot is free again, out of every queue, and held by no core; a slot that is free already may be named. Refused
    // for a slot of 64 and above.
    pub fn terminate_task(mut self, slot: Slot) -> Reply
        ensures { Meets (Call.Terminate slot) self result }
    {
        let Some(task) = self.task(slot) else {
            return self.refused(SchedError::NoSuchTask);
        };
        self.tasks[slot.0] = task.terminated();
        out_of_queues(&mut self.queues, slot);
        out_of_holders(&mut self.current, slot);
        self.told(Value::Nothing)
    }

    // Out of its queue and Blocked. A core that holds it goes on holding it until its next pick; a wake before that
    // makes the task Running again in its place. Refused for a slot that is free or no slot of the table, and for a task
    // that is Blocked.
    pub fn block_task(mut self, slot: Slot) -> Reply
        ensures { Meets (Call.Block slot) self result }
    {
        let Some(task) = self.in_use(slot) else {
            return self.refused(SchedError::NoSuchTask);
        };
        if task.state == ThreadState::Blocked {
            return self.refused(SchedError::AlreadyBlocked);
        }
        out_of_queues(&mut self.queues, slot);
        self.tasks[slot.0] = task.blocked();
        self.told(Value::Nothing)
    }

    // A Blocked task that some core still holds is Running again, with no queue entry; any other is enqueued. Refused for
    // a slot that is free or no slot of the table, and for a task that is not Blocked.
    pub fn wake_task(mut self, slot: Slot) -> Reply
        ensures { Meets (Call.Wake slot) self result }
    {
        let Some(task) = self.in_use(slot) else {
            return self.refused(SchedError::NoSuchTask);
        };
        if task.state != ThreadState::Blocked {
            return self.refused(SchedError::NotBlocked);
        }
        if self.core_holding(slot).is_none() {
            return self.enqueue_ready(slot);
        }
        self.tasks[slot.0] = task.with_state(ThreadState::Running);
        self.told(Value::Nothing)
    }

    // A Blocked or Running task goes to the tail of its band and becomes Ready; a core that holds it goes on doing so.
    // Refused for a slot that is free or no slot of the table, for a task that is Ready, and by a full queue.
    pub fn enqueue_ready(mut self, slot: Slot) -> Reply
        ensures { Meets (Call.Enqueue slot) self result }
    {
        let Some(task) = self.in_use(slot) else {
            return self.refused(SchedError::NoSuchTask);
        };
        if task.state == ThreadState::Ready {
            return self.refused(SchedError::AlreadyReady);
        }
        let queues = &mut self.queues;
        if let Err(error) = queues[task.qos.code() as usize].push(slot) {
            return self.refused(error);
        }
        self.tasks[slot.0] = task.with_state(ThreadState::Ready);
        self.told(Value::Nothing)
    }

    // The record of a slot in use.
    fn in_use(&self, slot: Slot) -> Option<TaskControlBlock>
        ensures { result ≡ in_use_at slot.0 (abs self.now) }
    {
        self.task(slot).filter(|task| task.in_use)
    }
}

// The slot is out of the queues, the rest in their order.
fn out_of_queues(queues: &mut [BandQueue; BAND_COUNT], slot: Slot)
    ensures { OutOf slot queues.old queues.new }
{
    for queue in queues.iter_mut() {
        queue.remove(slot);
    }
}

// The slot is held by no core. This is a loop because the compiler goes through a `map` over an array byte by byte.
fn out_of_holders(current: &mut [u8; MAX_CPUS], slot: Slot)
    ensures { current.new ≡ map (released slot.0) current.old }
{
    for number in current.iter_mut() {
        *number = released(*number, slot);
    }
}

// A core's number once the slot is let go.
fn released(number: u8, slot: Slot) -> u8
    ensures { result ≡ released slot.0 number }
{
    if number as usize == slot.0 {
        NO_HOLDER
    } else {
        number
    }
}
