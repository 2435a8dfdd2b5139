// The task record and what it is made of: tids, slots, bands, thread states, refusals and core masks.
//
//   ids      Tid and Slot: a tid names a task, a slot is a place in the table
//   band     QoSClass, its codes and its time slice
//   state    ThreadState and its codes
//   code     UnknownCode: a byte that is no band's or state's code
//   error    SchedError and its numbers
//   mask     which cores a mask permits
//   task     TaskControlBlock: the empty record, a created one, and a record with something changed
//
// Every function here answers for all arguments and ensures its whole result, as equal to a definition of specs/.
#![tactic(auto)]

mod band;
mod code;
mod error;
mod ids;
mod mask;
mod state;
mod task;

pub use band::{QoSClass, band_slice_us};
pub use code::UnknownCode;
pub use error::SchedError;
pub use ids::{Slot, Tid};
pub use mask::{ALL_CORES, mask_permits, stored_mask};
pub use state::ThreadState;
pub use task::TaskControlBlock;

// How many tasks the table holds: slots 0 to 63.
pub const MAX_TASKS: usize = 64;
// How many cores there are: 0 to 63, one for each bit of a mask.
pub const MAX_CPUS: usize = 64;
// How many bands there are, and so how many queues.
pub const BAND_COUNT: usize = 3;
