// A long list of calls: in each round one by value, then a block and a tick on a lent state, from which the next round goes
// on. 64 tasks in three bands; slots 0 to 65 and cores 0, 21, 42, 63 and 84 are named, so that there are some too large.
use crate::begun::{after, crowd};
use crate::outcome::Asked;
use crate::show::print_line;
use records::{BAND_COUNT, QoSClass, Slot, Tid};
use scheduler::Call;
use text::yes_or_no;

const ROUNDS: u64 = 5_000;

// The rounds show something only if more than so many of them block a task, and more than so many pick one.
const MANY: u64 = 500;

// All cores, or cores 0 and 42, or cores 21 and 63.
const MASKS: [u64; 3] = [0, 4_398_046_511_105, 9_223_372_036_856_872_960];

pub(crate) fn rounds(rt: &impl Print) {
    let mut state = crowd();
    let mut number = Number(1);
    let mut blocks: u64 = 0;
    let mut picks: u64 = 0;
    let mut differences: u64 = 0;
    for _round in 0..ROUNDS {
        let before = after(state, &[number.call()]);
        number = number.following();
        let (lent, is_same) = number.asked().both_ways(before);
        blocks += u64::from(lent.block.answer.status.is_ok());
        picks += u64::from(lent.tick.answer.pick.is_some());
        differences += u64::from(!is_same);
        state = lent.tick.state;
        number = number.following();
    }
    print_line(rt, format_args!("Rounds: {ROUNDS}"));
    print_line(
        rt,
        format_args!("Many of them block: {}", yes_or_no(blocks > MANY)),
    );
    print_line(
        rt,
        format_args!("Many of them pick: {}", yes_or_no(picks > MANY)),
    );
    print_line(
        rt,
        format_args!("Rounds that are not as by value: {differences}"),
    );
}

// A number of a list that looks like chance, and what a round does by it.
#[derive(Clone, Copy)]
struct Number(u32);

impl Number {
    // The next one, by Lehmer's rule, which goes through all below 2^31 - 1 but 0.
    fn following(self) -> Number {
        Number((self.0 as u64 * 48_271 % 2_147_483_647) as u32)
    }

    fn slot(self) -> Slot {
        Slot((self.0 / 8 % 66) as usize)
    }

    fn core(self) -> usize {
        (self.0 / 528 % 5 * 21) as usize
    }

    // A block and a tick.
    fn asked(self) -> Asked {
        Asked {
            slot: self.slot(),
            core: self.core(),
            elapsed_us: self.0 % 3_000,
        }
    }

    // A call that changes the state, of any kind but block and tick, which each round does anyway, and plan, which is a tick.
    fn call(self) -> Call {
        let slot = self.slot();
        let core = self.core();
        match self.0 % 8 {
            0 => Call::Create {
                tid: Tid(self.0),
                qos: QoSClass::ALL[slot.0 % BAND_COUNT],
                context_handle: 1,
                cr3: 2,
                rsp0: 3,
            },
            1 => Call::Affinity {
                slot,
                mask: MASKS[(self.0 % 3) as usize],
            },
            2 => Call::Terminate(slot),
            3 => Call::Enqueue(slot),
            4 => Call::Schedule(core),
            5 => Call::Yield(core),
            6 => Call::Handoff(core),
            _ => Call::Wake(slot),
        }
    }
}
