// One band's queue of waiting slots, in a ring of 64 places that nothing above this crate looks into.
//
// What a queue holds is `entries`, its slots from front to tail; every promise below speaks of that list alone. Every queue
// is well formed: its ghost fields say so. The laws for the crates above are in proofs/Entries.antt, Counts.antt and
// Stored.antt.
#![tactic(auto)]

ghost use Rattle.std.specs.Prelude.{◌≡◌, ◌≤◌, ◌<◌, length, []};

use records::{MAX_TASKS, SchedError, Slot};

// The entries stand in `len` places of the ring from `head` on, going round its end. A VecDeque would need the heap. Where the n-th
// stands is spelled out at each use, (head + n) % 64: a function for it would have to ask for an n that can be added.
#[derive(Clone, Copy)]
pub struct BandQueue {
    ring: [u8; MAX_TASKS],
    head: usize,
    len: usize,
    // The ring has its 64 places, the front is one of them, and no more entries stand in it.
    ghost whole: { length ring ≡ 64 },
    ghost head_in: { head < 64 },
    ghost len_in: { len ≤ 64 },
}

impl BandQueue {
    ghost use Rattle.std.specs.Prelude.{◌≡◌, length, take, []};
    ghost use Rattle.queue.specs.Stored.{entries};
    ghost use Rattle.queue.specs.Entries.{entry_at, without, places};
    ghost use Rattle.queue.specs.Promises.{Push, Take};

    // An empty queue.
    pub fn new() -> Self
        ensures { entries result ≡ [] }
    {
        BandQueue {
            ring: [0; MAX_TASKS],
            head: 0,
            len: 0,
        }
    }

    // The queue that an image's 64 places and its length stand for, which stand so in document 01's image: the first `len` of
    // them are its entries, from the front on. A `len` above 64 stands for all 64.
    pub fn from_places(places: [u8; MAX_TASKS], len: usize) -> Self
        ensures { entries result ≡ take len places }
    {
        BandQueue {
            ring: places,
            head: 0,
            len: len.min(MAX_TASKS),
        }
    }

    // The slot goes to the tail. Refused, with the entries as they were, for a number that is no slot of the table and
    // where 64 entries stand in the queue.
    #[tactic(auto, using(crate::proofs::Pushes::takes_full, crate::proofs::Pushes::pushed_full))]
    pub fn push(&mut self, slot: Slot) -> Result<(), SchedError>
        ensures { Push self.old slot result self.new }
    {
        let len = self.len;
        let number = slot.0;
        if number >= MAX_TASKS {
            return Err(SchedError::NoSuchTask);
        }
        if len >= MAX_TASKS {
            return Err(SchedError::QueueFull);
        }
        self.ring[(self.head + len) % MAX_TASKS] = number as u8;
        self.len = len + 1;
        Ok(())
    }

    // The slot at the front leaves, by the Rust's name for it; an empty queue answers None.
    pub fn pop(&mut self) -> Option<Slot>
        ensures { Take self.old 0 result self.new }
    {
        self.take_at(0)
    }

    // The slot leaves wherever it stands, and the rest keep their order. The gap is closed in the ring itself: what is
    // kept moves up behind what was kept before it; `kept` is counted by hand, since a Vec's `retain` would need the heap.
    pub fn remove(&mut self, slot: Slot)
        ensures { entries self.new ≡ without slot.0 (entries self.old) }
    {
        let head = self.head;
        let mut kept = 0;
        for place in 0..self.len {
            let entry = self.ring[(head + place) % MAX_TASKS];
            if slot_of(entry) != slot {
                self.ring[(head + kept) % MAX_TASKS] = entry;
                kept += 1;
            }
        }
        self.len = kept;
    }

    // How many entries stand in the queue.
    pub fn len(&self) -> usize
        ensures { result ≡ length (entries self.now) }
    {
        self.len
    }

    // The entry at a place, counted from 0 at the front; None past the tail.
    pub fn entry_at(&self, place: usize) -> Option<Slot>
        ensures { result ≡ entry_at place (entries self.now) }
    {
        if place >= self.len {
            return None;
        }
        Some(slot_of(self.ring[(self.head + place) % MAX_TASKS]))
    }

    // The 64 places of the queue's image: the entries from front to tail, and 0 behind them.
    pub fn places(&self) -> [u8; MAX_TASKS]
        ensures { result ≡ places (entries self.now) }
    {
        let mut places = [0; MAX_TASKS];
        for place in 0..self.len {
            places[place] = self.ring[(self.head + place) % MAX_TASKS];
        }
        places
    }

    // What picking does: the entry at a place leaves, and those before it go to the tail in their order. Past the tail
    // nothing leaves and nothing moves. `head` is the front as it goes round the ring; by the range's own number front and
    // tail would be a sum of three each.
    pub fn take_at(&mut self, place: usize) -> Option<Slot>
        ensures { Take self.old place result self.new }
    {
        let len = self.len;
        if place >= len {
            return None;
        }
        let mut head = self.head;
        for _moved in 0..place {
            self.ring[(head + len) % MAX_TASKS] = self.ring[head];
            head = (head + 1) % MAX_TASKS;
        }
        let taken = slot_of(self.ring[head]);
        self.head = (head + 1) % MAX_TASKS;
        self.len = len - 1;
        Some(taken)
    }
}

// The slot that a number of the ring stands for.
fn slot_of(entry: u8) -> Slot
    ensures { result.0 ≡ entry }
{
    Slot(entry as usize)
}
