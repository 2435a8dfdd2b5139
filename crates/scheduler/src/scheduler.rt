// The scheduler's state, by value: its parts, the new one, and `apply`, which does any call.
ghost use Rattle.std.specs.Prelude.{◌≡◌, true, length};
ghost use Rattle.rules.specs.Accepted.{accepts};
ghost use Rattle.rules.specs.State.{holder_in};
ghost use Rattle.scheduler.specs.Stored.{state_of};

use crate::answer::{done, refused};
use queue::BandQueue;
use records::{BAND_COUNT, MAX_CPUS, MAX_TASKS, SchedError, Slot, TaskControlBlock};
use rules::{Answer, Call, Value};

// What stands for none in a core's holder: document 01's number in a byte, as the image has it. An Option would take two bytes
// a core.
pub const NO_HOLDER: u8 = 255;

// Every scheduler that there is came from `new`, an accepted image or an earlier call: what it holds is accepted. Its parts are
// arrays of fixed length, since there is no heap, and a slot is document 01's number for a place among the records.
#[derive(Clone, Copy)]
pub struct QoSScheduler {
    // A record for each slot.
    pub tasks: [TaskControlBlock; MAX_TASKS],
    // A queue for each band, at the band's code. Methods lend the array first and a queue of it then, since no element of a field
    // beside ghost fields can be lent at once to be changed.
    pub queues: [BandQueue; BAND_COUNT],
    // The slot that each core holds, or NO_HOLDER.
    pub current: [u8; MAX_CPUS],
    // The time that ticks have reported, going on from 0 past the largest.
    pub system_ticks_us: u64,
    pub ghost bands: { length queues ≡ 3 },
    pub ghost accepted: { accepts (state_of tasks queues current system_ticks_us) ≡ true },
}

// What a call gives back, as document 01 has it: the answer with the state by value, which a refusal leaves as it was.
#[derive(Clone, Copy)]
pub struct Reply {
    pub answer: Answer,
    pub state: QoSScheduler,
}

impl QoSScheduler {
    ghost use Rattle.std.specs.Prelude.{◌≡◌};
    ghost use Rattle.rules.specs.State.{new_state};
    ghost use Rattle.scheduler.specs.Scheduler.{Meets, abs};
    ghost use Rattle.scheduler.specs.Private.{told_by, refused_by};

    // No task, nobody waiting, no core with a holder, and no time gone by.
    pub fn new() -> Self
        ensures { abs result ≡ new_state }
    {
        QoSScheduler {
            tasks: [TaskControlBlock::EMPTY; MAX_TASKS],
            queues: [BandQueue::new(); BAND_COUNT],
            current: [NO_HOLDER; MAX_CPUS],
            system_ticks_us: 0,
        }
    }

    // Any call or query. The cores' reports, which are nearly all calls, are looked for first: what the code of the others
    // needs would have each of them begin with a copy of the state.
    pub fn apply(self, call: Call) -> Reply
        ensures { Meets call self result }
    {
        match call {
            Call::Tick { core, elapsed_us } => self.ticked(core, elapsed_us, false),
            Call::Plan { core, elapsed_us } => self.ticked(core, elapsed_us, true),
            _ => self.apply_any(call),
        }
    }

    // Any call or query, as the method for it does it: a match names all of them, the two of `apply` too. A query leaves the
    // state as it was. It has a frame of its own on the stack, so that a report does not need the room of the other calls as well.
    // The state is lent to it, since the method begins with a copy anyway.
    #[inline(never)]
    fn apply_any(&self, call: Call) -> Reply
        ensures { Meets call self.now result }
    {
        match call {
            Call::Create {
                tid,
                qos,
                context_handle,
                cr3,
                rsp0,
            } => self.create_task_with_vspace(tid, qos, context_handle, cr3, rsp0),
            Call::Affinity { slot, mask } => self.set_task_affinity(slot, mask),
            Call::Terminate(slot) => self.terminate_task(slot),
            Call::Block(slot) => self.block_task(slot),
            Call::Wake(slot) => self.wake_task(slot),
            Call::Enqueue(slot) => self.enqueue_ready(slot),
            Call::Schedule(core) => self.schedule_on_cpu(core),
            Call::Tick { core, elapsed_us } => self.on_timer_tick_on_cpu(core, elapsed_us),
            Call::Yield(core) => self.plan_voluntary_yield_on_cpu(core),
            Call::Handoff(core) => self.plan_blocked_current_handoff_on_cpu(core),
            Call::Plan { core, elapsed_us } => self.plan_context_switch_on_cpu(core, elapsed_us),
            Call::CanRunOnCore { slot, core } => self.told(Value::Flag(self.can_run_on_core(
                slot, core,
            ))),
            Call::TaskIndexForTid(tid) => self.told(Value::Slot(self.task_index_for_tid(tid))),
            Call::Task(slot) => self.told(Value::Task(self.task(slot))),
            Call::CurrentTaskOnCpu(core) => self.told(Value::Task(self.current_task_on_cpu(core))),
            Call::SystemTicksUs => self.told(Value::Micros(self.system_ticks_us())),
            Call::Holder(slot) => self.told(Value::Core(self.holder(slot))),
        }
    }

    // Done: this value, and the state as it is.
    pub(crate) fn told(self, value: Value) -> Reply
        ensures { result ≡ told_by self value }
    {
        Reply {
            answer: done(None, value),
            state: self,
        }
    }

    // Refused: nothing is changed.
    pub(crate) fn refused(self, error: SchedError) -> Reply
        ensures { result ≡ refused_by self error }
    {
        Reply {
            answer: refused(error),
            state: self,
        }
    }
}

// The slot that a core's number stands for.
pub(crate) fn holder_of(number: u8) -> Option<Slot>
    ensures { result ≡ holder_in number }
{
    if number == NO_HOLDER {
        return None;
    }
    Some(Slot(number as usize))
}
