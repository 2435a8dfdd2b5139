// Every call and query, in the order of document 01's frames 00 to 10; two of them may have the same arguments. Each argument
// may be any number of its width.
use records::{QoSClass, Slot, Tid};

#[derive(Clone, Copy, PartialEq, Eq)]
pub enum Call {
    // A task in the lowest slot not in use, Blocked.
    Create {
        tid: Tid,
        qos: QoSClass,
        context_handle: u64,
        cr3: u64,
        rsp0: u64,
    },
    // The cores that a slot's task may use; mask 0 means all.
    Affinity {
        slot: Slot,
        mask: u64,
    },
    // The slot is free again, out of every queue, held by no core.
    Terminate(Slot),
    // Out of its queue; a core that holds it goes on holding it.
    Block(Slot),
    // Running again where a core still holds it, else to the tail of its band.
    Wake(Slot),
    // To the tail of its band.
    Enqueue(Slot),
    // A pick for the core.
    Schedule(usize),
    // The core's timer: a holder that is not Blocked is charged; answered by who is to run on the core.
    Tick {
        core: usize,
        elapsed_us: u32,
    },
    // The core's Running holder goes to the tail of its band, then a pick.
    Yield(usize),
    // A pick in place of the core's Blocked holder; a Running one goes on.
    Handoff(usize),
    // A tick, answered as a plan.
    Plan {
        core: usize,
        elapsed_us: u32,
    },
    // Whether the slot's mask permits the core, taken modulo 64.
    CanRunOnCore {
        slot: Slot,
        core: usize,
    },
    // The lowest slot in use with that tid.
    TaskIndexForTid(Tid),
    // The slot's record.
    Task(Slot),
    // The record of the core's holder.
    CurrentTaskOnCpu(usize),
    // The system microseconds.
    SystemTicksUs,
    // The lowest core that holds the slot.
    Holder(Slot),
}
