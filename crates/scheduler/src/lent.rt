// Block and tick on a lent state, which they change: the two thin functions that document 01 asks for. The method by value does
// the call; its answer is returned, and the state that it gives back is stored behind the reference.
ghost use Rattle.scheduler.specs.Scheduler.{MeetsLent};

use crate::scheduler::QoSScheduler;
use records::Slot;
use rules::{Answer, Call};

impl QoSScheduler {
    // Block, as `block_task` does it. Refused as there, and then the lent state is as it was.
    pub fn block_task_lent(&mut self, slot: Slot) -> Answer
        ensures { MeetsLent (Call.Block slot) self.old result self.new }
    {
        let reply = self.block_task(slot);
        *self = reply.state;
        reply.answer
    }

    // A tick, as `on_timer_tick_on_cpu` does it. A core of 64 and above leaves the lent state as it was.
    pub fn on_timer_tick_on_cpu_lent(&mut self, core: usize, elapsed_us: u32) -> Answer
        ensures { MeetsLent (Call.Tick core elapsed_us) self.old result self.new }
    {
        let reply = self.on_timer_tick_on_cpu(core, elapsed_us);
        *self = reply.state;
        reply.answer
    }
}
