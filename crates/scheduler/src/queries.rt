// The queries: they change nothing and pick nobody.
ghost use Rattle.std.specs.Prelude.{◌≡◌, ◌<◌, IfSome};
ghost use Rattle.rules.specs.Queries.{can_run_on_core, task_index_for_tid, task_at, current_task_on_cpu, core_of, core_below};
ghost use Rattle.scheduler.specs.Scheduler.{abs};
ghost use Rattle.rules.specs.State.{holder_of};
ghost use Rattle.rules.specs.Waking.{core_holding};

use crate::scheduler::{QoSScheduler, holder_of};
use records::{MAX_TASKS, Slot, TaskControlBlock, Tid, mask_permits};

impl QoSScheduler {
    // Whether the slot's mask permits the core, taken modulo 64; no for a slot of 64 and above.
    pub fn can_run_on_core(&self, slot: Slot, core: usize) -> bool
        ensures { result ≡ can_run_on_core slot.0 core (abs self.now) }
    {
        self.tasks
            .get(slot.0)
            .is_some_and(|task| mask_permits(task.cpu_affinity, core))
    }

    // The lowest slot in use with that tid. A tid names a task and is never a place in the table.
    pub fn task_index_for_tid(&self, tid: Tid) -> Option<Slot>
        ensures { result ≡ task_index_for_tid tid.0 (abs self.now) }
    {
        self.tasks
            .iter()
            .position(|task| task.in_use && task.tid == tid)
            .map(Slot)
    }

    // The slot's record; None for 64 and above.
    pub fn task(&self, slot: Slot) -> Option<TaskControlBlock>
        ensures { result ≡ task_at slot.0 (abs self.now) }
    {
        self.tasks.get(slot.0).copied()
    }

    // The record of core 0's holder.
    pub fn current_task(&self) -> Option<TaskControlBlock>
        ensures { result ≡ current_task_on_cpu 0 (abs self.now) }
    {
        self.current_task_on_cpu(0)
    }

    // The record of the core's holder; None for a core without one, and for 64 and above.
    pub fn current_task_on_cpu(&self, core: usize) -> Option<TaskControlBlock>
        ensures { result ≡ current_task_on_cpu core (abs self.now) }
    {
        self.task(self.holder_on(core)?)
    }

    // Who holds the core, a slot of the table; None where nobody does, and for 64 and above.
    pub(crate) fn holder_on(&self, core: usize) -> Option<Slot>
        ensures holder { result ≡ holder_of (abs self.now) core }
        ensures in_table { IfSome result (λ slot. slot.0 < 64) }
    {
        holder_of(*self.current.get(core)?)
    }

    // The system microseconds.
    pub fn system_ticks_us(&self) -> u64
        ensures { result ≡ (abs self.now).micros }
    {
        self.system_ticks_us
    }

    // The lowest core that holds the slot; None where no core does, and for a slot of 64 and above.
    pub fn holder(&self, slot: Slot) -> Option<usize>
        ensures { result ≡ core_of slot.0 (abs self.now) }
    {
        if slot.0 >= MAX_TASKS {
            return None;
        }
        self.core_holding(slot)
    }

    // The lowest core that holds the slot.
    pub(crate) fn core_holding(&self, slot: Slot) -> Option<usize>
        ensures { result ≡ core_below (core_holding (abs self.now) slot.0) }
    {
        self.current
            .iter()
            .position(|holder| *holder as usize == slot.0)
    }
}
