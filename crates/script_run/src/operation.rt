// The operations of a script, and the order that a line gives.
use crate::words::{Bytes, bytes_in, cut_at, number_in};

// An operation, with the number and the bytes that it takes; a number that a line leaves out is 0. What an operation says stands
// last in its comment; without that it says nothing. The image is the first bytes of the space, which has one byte more than an
// image. The first five say what became of the answer buffer behind the answer, and of the space; then the number that was
// returned, and the answer that it speaks of. The number is 256 where nothing was done, since `call` or `apply` has no frame, or the
// image or the buffer would be longer than what there is of it, 3,276 and 60 bytes.
// `rest kept, image changed, returns 4 00ffff00`, or `rest kept, image kept, returns 265`
#[derive(Drop)]
pub(crate) enum Order {
    // `call FRAME`: the frame's call on the image.
    Call(Bytes),
    // `apply FRAME`: the frame's call on the scheduler.
    Apply(Bytes),
    // `step N FRAME`: a host's frame on the image, with the first N bytes of the answer buffer.
    Step(usize, Bytes),
    // `new`: the host's first image over the image.
    New,
    // `write`: the scheduler's image over the image. Returns 0, or 256 where it is not written
    Write,
    // `read`: the scheduler that the image stands for, and what the acceptance, the check and the reader say; the reader says 256
    // where the image would be longer than the space. `accepted, check 0, reader 0`, or `refused, check 8, reader 8`
    Read,
    // `accept N BYTES`: `back N BYTES`, and then `read`.
    Accept(usize, Bytes),
    // `fresh`: a new scheduler, as there is at first; not where the image would be longer than the space.
    Fresh,
    // `length N`: the image is the first N bytes of the space, 3,275 at first.
    Length(usize),
    // `fill`: every byte of the space is aa.
    Fill,
    // `keep`: keeps the space.
    Keep,
    // `back [N BYTES]`: the space is what was kept, with these bytes at place N.
    Back(usize, Bytes),
    // `same`: whether it is what was kept. `yes` or `no`
    Same,
    // `buffer`: the answer buffer. Its first 51 bytes
    Buffer,
    // `record N`, `queue N`, `holders`, `time`, `byte N`: that part of the space, by its place and length, since the space is a byte
    // longer than an image. Its bytes
    Part(usize, usize),
}

impl Order {
    // The order that these words give, if there is such an operation; words that it takes none of are passed over. Where a part
    // begins and how long it is are document 01's own numbers, and past the last record or queue the first comes again.
    pub(crate) fn in_words(line: &[u8]) -> Option<Order> {
        let (word, words) = cut_at(line, b' ');
        let (number, rest) = number_in(words);
        Some(match word {
            b"call" => Order::Call(bytes_in(words)),
            b"apply" => Order::Apply(bytes_in(words)),
            b"step" => Order::Step(number, bytes_in(rest)),
            b"new" => Order::New,
            b"write" => Order::Write,
            b"read" => Order::Read,
            b"accept" => Order::Accept(number, bytes_in(rest)),
            b"fresh" => Order::Fresh,
            b"length" => Order::Length(number),
            b"fill" => Order::Fill,
            b"keep" => Order::Keep,
            b"back" => Order::Back(number, bytes_in(rest)),
            b"same" => Order::Same,
            b"buffer" => Order::Buffer,
            b"record" => Order::Part(number % 64 * 47, 47),
            b"queue" => Order::Part(3008 + number % 3 * 65, 65),
            b"holders" => Order::Part(3203, 64),
            b"time" => Order::Part(3267, 8),
            b"byte" => Order::Part(number, 1),
            _ => return None,
        })
    }
}
