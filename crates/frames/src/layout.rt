// The table of document 01's record and image: where each part begins, and how long it is.
use records::{BAND_COUNT, MAX_CPUS, MAX_TASKS};

// Where band and state stand in a record: behind the tid.
pub(crate) const BAND_AT: usize = 4;

pub(crate) const STATE_AT: usize = 5;

// Where context, cr3, rsp0 and mask stand: behind tid, band and state.
pub(crate) const CONTEXT_AT: usize = 6;

pub(crate) const CR3_AT: usize = 14;

pub(crate) const RSP0_AT: usize = 22;

pub(crate) const MASK_AT: usize = 30;

// Where budget, consumed and in use stand: behind those.
pub(crate) const BUDGET_AT: usize = 38;

pub(crate) const CONSUMED_AT: usize = 42;

pub(crate) const IN_USE_AT: usize = 46;

// How many bytes a record has.
pub(crate) const RECORD_BYTES: usize = 47;

// How many bytes a queue has in an image: its length, and 64 slots.
pub(crate) const QUEUE_BYTES: usize = 1 + MAX_TASKS;

// Where the queues begin in an image: behind the records.
pub(crate) const QUEUES_AT: usize = MAX_TASKS * RECORD_BYTES;

// Where the holders begin: behind the queues.
pub(crate) const HOLDERS_AT: usize = QUEUES_AT + BAND_COUNT * QUEUE_BYTES;

// Where the system microseconds stand: behind the holders.
pub(crate) const MICROS_AT: usize = HOLDERS_AT + MAX_CPUS;

// How many bytes an image has.
pub const IMAGE_BYTES: usize = MICROS_AT + 8;

// So many bytes, be they an image that is accepted or not. Three functions ask for an accepted one by a clause: a type of its own
// would hold bytes that are lent for change, and be opened at each store.
pub(crate) type Image = [u8; IMAGE_BYTES];
