// An input, read line by line.
ghost use Rattle.std.specs.Prelude.{◌≡◌, ◌≤◌, length, take};
ghost use Rattle.std.specs.Io.{StopsAt};

use crate::front;
use std::io::Read;

// How much is read at a time.
const BLOCK: usize = 4_096;

// A reader, and what of its last block no line has taken yet. The block lies in the value itself: a line of any length needs no
// heap, since it goes into room that the caller has.
#[derive(Drop)]
pub struct Input<R> {
    reader: R,
    block: [u8; BLOCK],
    // The place of the next byte in the block, and that of its end.
    next: usize,
    end: usize,
}

impl<R: Read> Input<R> {
    // The lines that a reader gives from here on.
    pub fn new(reader: R) -> Input<R>
        ensures reads { result.reader ≡ reader }
        ensures none_yet { result.next ≡ result.end }
    {
        Input {
            reader,
            block: [0; BLOCK],
            next: 0,
            end: 0,
        }
    }

    // Reads a line with its newline, as far as there is room, and says how long it is; 0 at the end of the input. Nothing follows a
    // newline. A read that fails ends the input like one that finds nothing, and the next call tries again after either. What a
    // read brings no contract can say.
    pub fn read_line(&mut self, line: &mut [u8]) -> usize
        ensures within { result ≤ length line.new }
        ensures stops { StopsAt (take result line.new) 10 }
    {
        for n in 0..line.len() {
            let Some(byte) = self.next_byte() else {
                return n;
            };
            line[n] = byte;
            if byte == b'\n' {
                return n + 1;
            }
        }
        line.len()
    }

    // The next byte, from a new block where the last one is used up.
    fn next_byte(&mut self) -> Option<u8> {
        if self.next >= self.end {
            self.end = self.reader.read(&mut self.block).unwrap_or(0);
            self.next = 0;
        }
        let byte = *front(&self.block, self.end).get(self.next)?;
        self.next += 1;
        Some(byte)
    }
}
