// Picking: rule P. Schedule is P alone; tick, yield, handoff and plan come to it. Who is to run then is told as a slot, or as a
// plan to switch.
ghost use Rattle.std.specs.Prelude.{◌≡◌, ◌<◌};
ghost use Rattle.rules.specs.Outcome.{answered};
ghost use Rattle.rules.specs.Picking.{rule_p, waits_in};
ghost use Rattle.scheduler.specs.Scheduler.{Meets, abs};
ghost use Rattle.scheduler.specs.Private.{Gives, FirstPermitted, answer_in, form_of, who_runs};

use crate::answer::done;
use crate::scheduler::{NO_HOLDER, QoSScheduler, Reply};
use records::{MAX_CPUS, QoSClass, Slot, TaskControlBlock, mask_permits};
use rules::{Answer, Call, ContextSwitchPlan, ContextSwitchTarget, Pick, Value};

// How an answer tells who is to run on a core. A closure in its place would be no plainer: `pick` would hand it on, and its
// promise would speak of it.
#[derive(Clone, Copy)]
pub(crate) enum Form {
    // By the slot: schedule and tick.
    Slot,
    // By what the kernel has to do, from the core's previous holder on: yield, handoff and plan.
    Plan(Option<Slot>),
}

impl Form {
    // A plan from the previous holder where one is asked for, else the slot.
    pub(crate) fn of(planned: bool, previous: Option<Slot>) -> Form
        ensures { result ≡ form_of planned previous }
    {
        if planned {
            Form::Plan(previous)
        } else {
            Form::Slot
        }
    }

    // The answer to a choice: the pick that led there, if any, and who is to run.
    pub(crate) fn answer(self, pick: Option<Pick>, target: ContextSwitchTarget) -> Answer
        ensures { result ≡ answered pick (who_runs self target) }
    {
        done(pick, self.who_runs(target))
    }

    // Who is to run, as an answer's value; no plan where it is the previous holder.
    pub(crate) fn who_runs(self, target: ContextSwitchTarget) -> Value
        ensures { result ≡ who_runs self target }
    {
        let next = match target {
            ContextSwitchTarget::Idle => None,
            ContextSwitchTarget::Task { task_idx, .. } => Some(task_idx),
        };
        match self {
            Form::Slot => Value::Slot(next),
            Form::Plan(previous) if previous == next => Value::Plan(None),
            Form::Plan(prev_task_idx) => Value::Plan(Some(ContextSwitchPlan {
                prev_task_idx,
                target,
            })),
        }
    }
}

// The slot, by its record, as who is to run.
pub(crate) fn target(task_idx: Slot, task: TaskControlBlock) -> ContextSwitchTarget
    ensures { result ≡ ContextSwitchTarget.Task task_idx task.cr3 }
{
    ContextSwitchTarget::Task {
        task_idx,
        cr3: task.cr3,
    }
}

impl QoSScheduler {
    // A pick for core 0.
    pub fn schedule(self) -> Reply
        ensures { Meets (Call.Schedule 0) self result }
    {
        self.schedule_on_cpu(0)
    }

    // A pick for the core, which is its holder then. A core of 64 and above is answered by none, and nothing changes.
    pub fn schedule_on_cpu(self, core: usize) -> Reply
        ensures { Meets (Call.Schedule core) self result }
    {
        if core >= MAX_CPUS {
            return self.told(Value::Slot(None));
        }
        self.pick(core, Form::Slot)
    }

    // The first entry that may use the core, bands in their order, leaves its queue, those before it going to the tail,
    // and becomes the core's holder with a whole slice before it. Where no entry may use the core, the core has no
    // holder. It works in its caller's room on the stack, since it comes last in each.
    #[inline(always)]
    pub(crate) fn pick(mut self, core: usize, form: Form) -> Reply
        requires { core < 64 }
        ensures { Gives (answer_in form (rule_p core (abs self))) result }
    {
        for band in QoSClass::ALL {
            if let Some((place, slot)) = self.first_permitted(band, core) {
                let task = self.tasks[slot.0];
                let queues = &mut self.queues;
                queues[band.code() as usize].take_at(place);
                self.tasks[slot.0] = task.picked();
                self.current[core] = slot.0 as u8;
                let pick = Pick {
                    slot,
                    band: task.qos,
                };
                return Reply {
                    answer: form.answer(Some(pick), target(slot, task)),
                    state: self,
                };
            }
        }
        self.current[core] = NO_HOLDER;
        Reply {
            answer: form.answer(None, ContextSwitchTarget::Idle),
            state: self,
        }
    }

    // Whether an entry that may use the core waits in the band.
    pub(crate) fn has_ready_on_core(&self, band: QoSClass, core: usize) -> bool
        ensures { result ≡ waits_in (abs self.now) core band }
    {
        self.first_permitted(band, core).is_some()
    }

    // The first entry of the band that may use the core, behind its place in the queue. Gone through by place, which is
    // answered; an iterator over a ring would be a type of its own.
    fn first_permitted(&self, band: QoSClass, core: usize) -> Option<(usize, Slot)>
        ensures { FirstPermitted (abs self.now) core band result }
    {
        let queue = &self.queues[band.code() as usize];
        for place in 0..queue.len() {
            if let Some(slot) = queue.entry_at(place)
                && mask_permits(self.tasks[slot.0].cpu_affinity, core)
            {
                return Some((place, slot));
            }
        }
        None
    }
}
