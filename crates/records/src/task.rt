// The task record: its ten fields, the empty one, a created one, and a record with something changed.
ghost use Rattle.std.specs.Prelude.{◌≡◌};
ghost use Rattle.records.specs.Mask.{stored_mask};
ghost use Rattle.records.specs.Task.{empty_record, created, with_state, with_mask, with_consumed, terminated, blocked, picked};

use crate::band::{QoSClass, band_slice_us};
use crate::ids::Tid;
use crate::mask::{ALL_CORES, stored_mask};
use crate::state::ThreadState;

// The small fields stand together, so that a record takes 48 bytes and not 56: a state is copied whole at each call by value.
#[derive(Clone, Copy, PartialEq, Eq)]
pub struct TaskControlBlock {
    pub tid: Tid,
    pub qos: QoSClass,
    pub state: ThreadState,
    // Whether the slot holds a task. No Option of a record: a free slot's fields stay, and are told and written.
    pub in_use: bool,
    // The kernel's own name for the saved registers; never looked into here.
    pub context_handle: u64,
    // The root of the task's address space.
    pub cr3: u64,
    // The top of the task's kernel stack.
    pub rsp0: u64,
    // Bit N permits core N.
    pub cpu_affinity: u64,
    // Microseconds, as document 01's record has them: 0, or the band's slice once the task was picked.
    pub slice_budget_us: u32,
    // Microseconds of the slice that ticks have used up.
    pub consumed_slice_us: u32,
}

impl TaskControlBlock {
    // A free slot's record.
    pub const EMPTY: TaskControlBlock = TaskControlBlock {
        tid: Tid(0),
        qos: QoSClass::Background,
        state: ThreadState::Terminated,
        context_handle: 0,
        cr3: 0,
        rsp0: 0,
        cpu_affinity: ALL_CORES,
        slice_budget_us: 0,
        consumed_slice_us: 0,
        in_use: false,
    };

    // The empty record, as other types have theirs.
    pub fn new() -> Self
        ensures { result ≡ empty_record }
    {
        TaskControlBlock::EMPTY
    }

    // The record that a create makes: Blocked, every core permitted, no budget and nothing consumed.
    pub fn created(tid: Tid, qos: QoSClass, context_handle: u64, cr3: u64, rsp0: u64) -> Self
        ensures { result ≡ created tid qos context_handle cr3 rsp0 }
    {
        TaskControlBlock {
            tid,
            qos,
            state: ThreadState::Blocked,
            context_handle,
            cr3,
            rsp0,
            in_use: true,
            ..TaskControlBlock::EMPTY
        }
    }

    // The record in another state, all else as it was. Each field that calls change has such a function, since no parameter can
    // stand for a field.
    pub fn with_state(self, state: ThreadState) -> Self
        ensures { result ≡ with_state self state }
    {
        TaskControlBlock { state, ..self }
    }

    // The record with another mask, of which 0 is stored as all ones.
    pub fn with_affinity(self, mask: u64) -> Self
        ensures { result ≡ with_mask self (stored_mask mask) }
    {
        TaskControlBlock {
            cpu_affinity: stored_mask(mask),
            ..self
        }
    }

    // The record with another consumed time.
    pub fn with_consumed(self, consumed_us: u32) -> Self
        ensures { result ≡ with_consumed self consumed_us }
    {
        TaskControlBlock {
            consumed_slice_us: consumed_us,
            ..self
        }
    }

    // What terminate leaves: Terminated and not in use; the other fields stay.
    pub fn terminated(self) -> Self
        ensures { result ≡ terminated self }
    {
        TaskControlBlock {
            state: ThreadState::Terminated,
            in_use: false,
            ..self
        }
    }

    // What block leaves: Blocked, and nothing consumed.
    pub fn blocked(self) -> Self
        ensures { result ≡ blocked self }
    {
        TaskControlBlock {
            state: ThreadState::Blocked,
            consumed_slice_us: 0,
            ..self
        }
    }

    // What a pick leaves: Running, with its band's whole slice before it.
    pub fn picked(self) -> Self
        ensures { result ≡ picked self }
    {
        TaskControlBlock {
            state: ThreadState::Running,
            slice_budget_us: band_slice_us(self.qos),
            consumed_slice_us: 0,
            ..self
        }
    }
}
