// What a call answers: a status, the pick that was made, and a value.
use records::{QoSClass, SchedError, Slot, TaskControlBlock};

#[derive(Clone, Copy, PartialEq, Eq)]
pub struct Answer {
    // Done, or refused, and then nothing was changed. It stands beside the pick and not around it: document 01 has the pick's two
    // bytes in a refusal too, and what is said of picks need not ask for the status.
    pub status: Result<(), SchedError>,
    // What the picking rule took in this call.
    pub pick: Option<Pick>,
    pub value: Value,
}

// A slot that was picked, and the band whose queue it left.
#[derive(Clone, Copy, PartialEq, Eq)]
pub struct Pick {
    pub slot: Slot,
    pub band: QoSClass,
}

#[derive(Clone, Copy, PartialEq, Eq)]
pub enum Value {
    // affinity, terminate, block, wake, enqueue, and every refusal
    Nothing,
    // create, schedule, tick, task_index_for_tid
    Slot(Option<Slot>),
    // the holder query
    Core(Option<usize>),
    // yield, handoff, plan; None where the core goes on as it was
    Plan(Option<ContextSwitchPlan>),
    // can_run_on_core
    Flag(bool),
    // task, current_task_on_cpu
    Task(Option<TaskControlBlock>),
    // the system microseconds
    Micros(u64),
}

// What the kernel is to do on a core: switch from the previous holder, if there was one, to the target.
#[derive(Clone, Copy, PartialEq, Eq)]
pub struct ContextSwitchPlan {
    pub prev_task_idx: Option<Slot>,
    pub target: ContextSwitchTarget,
}

// The Rust's own type, and so no Option: its variants say what the kernel switches to.
#[derive(Clone, Copy, PartialEq, Eq)]
pub enum ContextSwitchTarget {
    Task { task_idx: Slot, cr3: u64 },
    Idle,
}
