// Cases of document 01 with a block and a tick on a lent state. Where a case is about one of them alone, the other one has slot
// MAX_TASKS, core MAX_CPUS or LARGE, which there is not.
use crate::begun::{held, ready_holder};
use crate::outcome::Asked;
use crate::show::{Told, not_unless, print_line};
use records::{MAX_CPUS, MAX_TASKS, QoSClass, Slot};
use scheduler::QoSScheduler;
use text::yes_or_no;

// The parts of an outcome.
#[rattlefmt::skip]
const PARTS: [&str; 4] = ["Block's answer", "State between", "Tick's answer", "State after"];

// No slot and no core either, although its lowest 32 bits are those of 0.
const LARGE: usize = 4_294_967_296;

pub(crate) fn cases(rt: &impl Print) {
    // Nobody to block, and nobody to run, though the time goes by; K9 "tick on core 64: microseconds unmoved".
    let state = shown(rt, "New", QoSScheduler::new(), asked(0, 0, 100));
    shown(rt, "K9", state, asked(MAX_TASKS, MAX_CPUS, 100));

    // K6 "band 0, consumed 1,999 stays; 1 more ends the slice." So does the longest time inside demand 2's domain.
    let two = held(QoSClass::UserInteractive, QoSClass::UserInteractive);
    let near = shown(rt, "K6, 1999", two, asked(MAX_TASKS, 0, 1_999));
    shown(rt, "K6, 1 more", near, asked(LARGE, 0, 1));
    shown(rt, "K6, most", near, asked(MAX_TASKS, 0, 4_294_965_296));

    // K7 "band 2 held, band 1 waiting and permitted, tick 0: switch."
    let state = held(QoSClass::Background, QoSClass::RealTimeIO);
    shown(rt, "K7", state, asked(MAX_TASKS, 0, 0));

    // A holder that is blocked is still the holder, and is refused a second time. "Holder Blocked: clear it, then P."
    let state = shown(rt, "Holder blocked", two, asked(0, LARGE, 0));
    shown(rt, "Blocked again", state, asked(0, 0, 500));

    // "Ready and still holder" (K11). It goes on for its slice, and is then picked anew.
    let state = ready_holder();
    let state = shown(rt, "Ready holder", state, asked(MAX_TASKS, 0, 1_999));
    shown(rt, "Its slice over", state, asked(MAX_TASKS, 0, 1));

    // A task that waits is out of its queue once it is blocked: the holder, whose slice is over, is alone there.
    shown(rt, "Waiting task", two, asked(1, 0, 2_000));
}

// The comparison notices each of the four parts by itself: the outcome of no block and a tick of 0, with one part of another.
// The two answers of tick differ in the pick alone.
pub(crate) fn told_apart(rt: &impl Print) {
    let state = ready_holder();
    let a = asked(MAX_TASKS, 0, 0).lent(state);
    let b = asked(1, 0, 2_000).lent(state);
    let mut apart = [a; 4];
    apart[0].block.answer = b.block.answer;
    apart[1].block.state = b.block.state;
    apart[2].tick.answer = b.tick.answer;
    apart[3].tick.state = b.tick.state;
    let right = asked(MAX_TASKS, 0, 0).by_value(state);
    for (part, outcome) in PARTS.iter().zip(&apart) {
        let is_told = yes_or_no(!outcome.is_same(&right));
        print_line(rt, format_args!("{part} told apart: {is_told}"));
    }
}

// Lends the state to block and to tick, and prints what came of each, and whether all is as by value; the state after both.
fn shown(rt: &impl Print, what: &str, state: QoSScheduler, asked: Asked) -> QoSScheduler {
    let (lent, is_same) = asked.both_ways(state);
    let block = Told {
        before: state,
        reply: lent.block,
    };
    let tick = Told {
        before: lent.block.state,
        reply: lent.tick,
    };
    let not = not_unless(is_same);
    print_line(
        rt,
        format_args!("{what}: block {block}, tick {tick}, {not}as by value"),
    );
    lent.tick.state
}

fn asked(slot: usize, core: usize, elapsed_us: u32) -> Asked {
    let slot = Slot(slot);
    Asked {
        slot,
        core,
        elapsed_us,
    }
}
