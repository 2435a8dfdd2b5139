// Runs one band's queue step by step and prints what it holds, from front to tail: document 01's case K4 on a queue
// alone, removal, a ring that goes round its end, and a full queue.
#![tactic(auto)]

use queue::BandQueue;
use records::{MAX_TASKS, Slot};
use std::fmt;
use text::OrNone;

fn main(rt: HostRuntime) {
    empty_queue(&rt);
    let mut queue = BandQueue::new();
    picks(&rt, &mut queue);
    full_ring(&rt, queue);
}

// An empty queue: nothing to take, 63 is a slot and 64 is none.
fn empty_queue(rt: &impl Print) {
    let mut queue = BandQueue::new();
    show(rt, "new", &queue);
    pop(rt, &mut queue);
    push(rt, &mut queue, MAX_TASKS - 1);
    push(rt, &mut BandQueue::new(), MAX_TASKS);
}

// Case K4 on one queue, then a place past the tail and removals. What is left stands inside the ring, so that a queue
// filled from there goes round its end.
fn picks(rt: &impl Print, queue: &mut BandQueue) {
    fill(queue, 4);
    show(rt, "push 0 to 3", queue);
    take_at(rt, queue, 2);
    take_at(rt, queue, 3);
    remove(rt, queue, 0);
    remove(rt, queue, 9);
    pop(rt, queue);
}

// A full queue: a push finds 64 entries, the last entry is taken, and a slot that stands twice is removed.
fn full_ring(rt: &impl Print, mut queue: BandQueue) {
    fill(&mut queue, MAX_TASKS - 1);
    show(rt, "push 0 to 62", &queue);
    push(rt, &mut queue, MAX_TASKS - 1);
    let mut full = queue;
    take_at(rt, &mut full, 63);
    remove(rt, &mut queue, 1);
}

// Slots 0 to n - 1 are pushed, as far as there is room.
fn fill(queue: &mut BandQueue, n: usize) {
    for slot in 0..n {
        let _ = queue.push(Slot(slot));
    }
}

// ---- each of these does what it is named after, and prints a line with it and the entries

fn push(rt: &impl Print, queue: &mut BandQueue, slot: usize) {
    let refused = match queue.push(Slot(slot)) {
        Ok(()) => "",
        Err(_) => " refused",
    };
    show(rt, format_args!("push {slot}{refused}"), queue);
}

fn pop(rt: &impl Print, queue: &mut BandQueue) {
    let taken = or_none(queue.pop());
    show(rt, format_args!("pop takes {taken}"), queue);
}

fn take_at(rt: &impl Print, queue: &mut BandQueue, place: usize) {
    let taken = or_none(queue.take_at(place));
    show(rt, format_args!("take at {place} takes {taken}"), queue);
}

fn remove(rt: &impl Print, queue: &mut BandQueue, slot: usize) {
    queue.remove(Slot(slot));
    show(rt, format_args!("remove {slot}"), queue);
}

// ---- what is printed

// A line with what was done and the entries. A write that fails is passed over: there is nobody to tell, and what follows is tried
// all the same.
fn show(rt: &impl Print, done: impl fmt::Display + Drop, queue: &BandQueue) {
    let _ = println!(rt; "{done}:{}", Entries(queue));
}

// A queue's entries from front to tail, each behind a space.
#[derive(Clone, Copy)]
struct Entries<'a>(&'a BandQueue);

impl fmt::Display for Entries<'_> {
    fn fmt<W: fmt::Write>(&self, f: &mut fmt::Formatter<W>) -> fmt::Result {
        for place in 0..self.0.len() {
            write!(f, " {}", or_none(self.0.entry_at(place)))?;
        }
        Ok(())
    }
}

// The slot's number, or the word none.
fn or_none(slot: Option<Slot>) -> OrNone<usize> {
    OrNone(slot.map(|slot| slot.0))
}
