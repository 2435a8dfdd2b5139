// Tick, yield, handoff and plan. What they test alike stands in each, as in waking.rt.
ghost use Rattle.scheduler.specs.Scheduler.{Meets, abs};
ghost use Rattle.scheduler.specs.Private.{Gives, answer_in, form_of};
ghost use Rattle.rules.specs.State.{holder_of};
ghost use Rattle.rules.specs.Ticking.{ticked, waits_before};
ghost use Rattle.std.specs.Prelude.{◌≡◌};

use crate::picking::{Form, target};
use crate::scheduler::{NO_HOLDER, QoSScheduler, Reply};
use records::{MAX_CPUS, QoSClass, SchedError, ThreadState};
use rules::{Call, ContextSwitchTarget, Value};

impl QoSScheduler {
    // A tick of core 0.
    pub fn on_timer_tick(self, elapsed_us: u32) -> Reply
        ensures { Meets (Call.Tick 0 elapsed_us) self result }
    {
        self.on_timer_tick_on_cpu(0, elapsed_us)
    }

    // The core's timer. Time goes by; the core's holder is charged for it unless it is Blocked. A holder whose slice is
    // over, or for whom a task of an earlier band waits that may use the core, goes back to its queue. Answered by who
    // is to run on the core; for a core of 64 and above by none, and nothing changes.
    pub fn on_timer_tick_on_cpu(self, core: usize, elapsed_us: u32) -> Reply
        ensures { Meets (Call.Tick core elapsed_us) self result }
    {
        self.ticked(core, elapsed_us, false)
    }

    // The tick, told as a slot, or as a plan from the holder that the core had. Memory is fixed, and so a flag and no `Form`,
    // with which `step` took a copy of the state more on the stack. The queue has room for the holder: 64 entries would be
    // 64 Ready slots, and it is not Ready when it is pushed.
    pub(crate) fn ticked(mut self, core: usize, elapsed_us: u32, planned: bool) -> Reply
        ensures { Gives (answer_in (form_of planned (holder_of (abs self) core)) (ticked core elapsed_us (abs self))) result }
    {
        let now = self.system_ticks_us.wrapping_add(elapsed_us as u64);
        let holder = self.holder_on(core);
        let form = Form::of(planned, holder);
        if core >= MAX_CPUS {
            return self.told(form.who_runs(ContextSwitchTarget::Idle));
        }
        self.system_ticks_us = now;
        let Some(slot) = holder else {
            return self.pick(core, form);
        };
        let task = self.tasks[slot.0];
        if task.state == ThreadState::Blocked {
            self.current[core] = NO_HOLDER;
            return self.pick(core, form);
        }
        let charged = task.consumed_slice_us as u64 + elapsed_us as u64;
        if charged < task.slice_budget_us as u64 && !self.waits_before(task.qos, core) {
            self.tasks[slot.0] = task.with_consumed(charged as u32);
            return Reply {
                answer: form.answer(None, target(slot, task)),
                state: self,
            };
        }
        if task.state == ThreadState::Ready {
            self.tasks[slot.0] = task.with_consumed(0);
            return self.pick(core, form);
        }
        let queues = &mut self.queues;
        queues[task.qos.code() as usize].push(slot).unwrap();
        self.tasks[slot.0] = task.with_consumed(0).with_state(ThreadState::Ready);
        self.pick(core, form)
    }

    // Whether an entry that may use the core waits in an earlier band.
    fn waits_before(&self, qos: QoSClass, core: usize) -> bool
        ensures { result ≡ waits_before qos (abs self.now) core }
    {
        QoSClass::ALL
            .iter()
            .take(qos.code() as usize)
            .any(|band| self.has_ready_on_core(*band, core))
    }

    // The core's Running holder goes to the tail of its band, then a pick; a core without a holder only picks. No time
    // is charged. Refused for a core of 64 and above, and where the holder is not Running.
    pub fn plan_voluntary_yield_on_cpu(mut self, core: usize) -> Reply
        ensures { Meets (Call.Yield core) self result }
    {
        if core >= MAX_CPUS {
            return self.refused(SchedError::NoSuchTask);
        }
        let previous = self.holder_on(core);
        let Some(slot) = previous else {
            return self.pick(core, Form::Plan(None));
        };
        let task = self.tasks[slot.0];
        if task.state != ThreadState::Running {
            return self.refused(SchedError::NoSuchTask);
        }
        // There is room, as in a tick. Both are written out: a method of its own would have to ask for a holder that is not Ready.
        let queues = &mut self.queues;
        queues[task.qos.code() as usize].push(slot).unwrap();
        self.tasks[slot.0] = task.with_state(ThreadState::Ready);
        self.current[core] = NO_HOLDER;
        self.pick(core, Form::Plan(previous))
    }

    // A pick in place of the core's Blocked holder. A Running holder, woken before the handoff came, goes on: no plan.
    // Refused for a core of 64 and above or without a holder, and where the holder is Ready.
    pub fn plan_blocked_current_handoff_on_cpu(mut self, core: usize) -> Reply
        ensures { Meets (Call.Handoff core) self result }
    {
        if core >= MAX_CPUS {
            return self.refused(SchedError::NoSuchTask);
        }
        let previous = self.holder_on(core);
        let Some(slot) = previous else {
            return self.refused(SchedError::NoSuchTask);
        };
        match self.tasks[slot.0].state {
            ThreadState::Running => self.told(Value::Plan(None)),
            ThreadState::Blocked => {
                self.current[core] = NO_HOLDER;
                self.pick(core, Form::Plan(previous))
            }
            ThreadState::Ready => self.refused(SchedError::NotBlocked),
            ThreadState::Terminated => self.refused(SchedError::NoSuchTask),
        }
    }

    // A tick of core 0, answered as a plan.
    pub fn plan_context_switch(self, elapsed_us: u32) -> Reply
        ensures { Meets (Call.Plan 0 elapsed_us) self result }
    {
        self.plan_context_switch_on_cpu(0, elapsed_us)
    }

    // A tick, answered as a plan; no plan for a core of 64 and above.
    pub fn plan_context_switch_on_cpu(self, core: usize, elapsed_us: u32) -> Reply
        ensures { Meets (Call.Plan core elapsed_us) self result }
    {
        self.ticked(core, elapsed_us, true)
    }
}
