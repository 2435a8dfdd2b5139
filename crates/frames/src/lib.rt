// Frames of document 01: calls and answers as bytes, and as lines of text; the image of a scheduler's state; and, for a host
// kernel, a first image and a frame on an image.
//
//   bytes    big-endian numbers in a slice
//   hex      lower-case hexadecimal, two digits a byte
//   decode   a frame's bytes, read as a call
//   encode   an answer's bytes, written into a lent buffer
//   lines    the next line of a text, its call, and an answer as a line
//   held     what is held of a line whose end has not come yet
//   stream   text that comes in blocks, and the answers to its lines
//   layout   where each part of a record and of an image stands
//   parts    the parts of an image
//   fields   what a record's bytes say, and what is asked of them
//   image    a scheduler's image, written into a lent buffer
//   accept   whether bytes are an image that is accepted
//   read     the scheduler that an image stands for
//   touched  the slots whose records a call can change
//   host     for a host kernel: a first image, a frame on an image, and any call on one
//   refusal  what is refused before a call is made
//
// Nothing is presumed of any bytes: what is no frame is refused with 9, and what is no image with 7 or 8. Each function
// promises its whole result and the whole contents of the buffers that it is lent, as equal to definitions on lists of
// bytes in specs/; proofs/ has the laws of those definitions. There is no heap: what is made goes into a lent buffer, or into an
// array of the longest length, and how many of its bytes count is told beside it. What is promised of a buffer is of all of it, so
// that a place in it is handed on beside it, and not the part from there on.
#![tactic(auto)]

mod accept;
mod bytes;
mod decode;
mod encode;
mod fields;
mod held;
mod hex;
mod host;
mod image;
mod layout;
mod lines;
mod parts;
mod read;
mod refusal;
mod stream;
mod touched;

pub use accept::accepts_image;
pub use decode::read_frame;
pub use encode::{ANSWER_MAX, write_answer};
pub use host::{call_on_image, frame_on_image, returned, write_new_image};
pub use image::write_image;
pub use layout::IMAGE_BYTES;
pub use lines::{ANSWER_LINE_MAX, next_line, read_line};
pub use read::{RefusedImage, check_image, read_image};
pub use refusal::HostError;
pub use stream::{Fed, Stream};
