// What a kernel in C, C++ or Rust links: the entries that include/tilesorrel.h declares, and nothing else. Each hands its
// arguments on to a function of a crate below, and has that function's contract, told as one number, since C has no Result. Only a
// crate's own functions can be exported, so all entries stand here, in one archive.
//
//   frame   a frame on an image
//   image   a first image
#![tactic(auto)]

mod frame;
mod image;

pub use frame::step;
pub use image::new_image;
