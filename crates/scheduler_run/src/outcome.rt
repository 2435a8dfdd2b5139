// A block and then a tick: what comes of them on a lent state, and what comes of them by value.
ghost use Rattle.scheduler.specs.Scheduler.{MeetsLent};

use frames::{IMAGE_BYTES, write_image};
use records::Slot;
use scheduler::{Call, QoSScheduler, Reply};

// Whom to block, and what to tick.
#[derive(Clone, Copy)]
pub(crate) struct Asked {
    pub slot: Slot,
    pub core: usize,
    pub elapsed_us: u32,
}

// What came of it: the answer of each, and the state after it.
#[derive(Clone, Copy)]
pub(crate) struct Outcome {
    pub block: Reply,
    pub tick: Reply,
}

impl Asked {
    // What comes of it on a lent state, and whether the same comes of it by value.
    pub(crate) fn both_ways(self, state: QoSScheduler) -> (Outcome, bool) {
        let lent = self.lent(state);
        (lent, lent.is_same(&self.by_value(state)))
    }

    // A plain state in a local, lent to block; and what that left, to tick.
    pub(crate) fn lent(self, mut state: QoSScheduler) -> Outcome
        ensures block { MeetsLent (Call.Block self.slot) state result.block.answer result.block.state }
        ensures tick { MeetsLent (Call.Tick self.core self.elapsed_us) result.block.state result.tick.answer result.tick.state }
    {
        let answer = state.block_task_lent(self.slot);
        let block = Reply { answer, state };
        let answer = state.on_timer_tick_on_cpu_lent(self.core, self.elapsed_us);
        let tick = Reply { answer, state };
        Outcome { block, tick }
    }

    // The same by the methods by value.
    pub(crate) fn by_value(self, state: QoSScheduler) -> Outcome {
        let block = state.block_task(self.slot);
        let tick = block.state.on_timer_tick_on_cpu(self.core, self.elapsed_us);
        Outcome { block, tick }
    }
}

impl Outcome {
    // Whether both answers and both states are those of the other. No `==` is derived for it, as a state has none: how a queue
    // is stored is no part of it.
    pub(crate) fn is_same(&self, other: &Outcome) -> bool {
        same_reply(&self.block, &other.block) && same_reply(&self.tick, &other.tick)
    }
}

// Whether two replies have the same answer and the same state.
pub(crate) fn same_reply(one: &Reply, other: &Reply) -> bool {
    one.answer == other.answer && same_state(one.state, other.state)
}

// Whether two states are the same, by their images.
pub(crate) fn same_state(one: QoSScheduler, other: QoSScheduler) -> bool {
    image_of(one) == image_of(other)
}

fn image_of(state: QoSScheduler) -> [u8; IMAGE_BYTES] {
    let mut image = [0; IMAGE_BYTES];
    write_image(state, &mut image).unwrap();
    image
}
