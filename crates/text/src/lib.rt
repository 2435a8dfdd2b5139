// What the programs that test read, print and compare.
//
//   cut       parts of a run of bytes
//   hex       bytes, as they are printed
//   input     an input, read line by line
//   line      a line of text, put together piece by piece
//   or_none   a value that may be missing, as it is printed
//   same      whether two runs of bytes are the same, and what is told of it
#![tactic(auto)]

mod cut;
mod hex;
mod input;
mod line;
mod or_none;
mod same;

pub use cut::{behind, front};
pub use hex::Hex;
pub use input::Input;
pub use line::Line;
pub use or_none::OrNone;
pub use same::{is_same, kept_or_changed, yes_or_no};
