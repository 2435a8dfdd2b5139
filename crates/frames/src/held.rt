// What is held of a line of text whose end has not come yet.
ghost use Rattle.std.specs.Prelude.{◌≡◌, ◌≤◌, length};

use crate::bytes::put_all;
use crate::lines::{LINE_MAX, read_line};
use scheduler::Call;

// Of a line that is longer than any frame only so much is held that this shows: it is refused whatever follows.
const HELD_MAX: usize = LINE_MAX + 1;

#[derive(Clone, Copy)]
pub(crate) struct Held {
    bytes: [u8; HELD_MAX],
    // How many of them, from the front, are held. A Vec would need the heap.
    len: usize,
    ghost places: { length bytes ≡ 61 },
    ghost within: { len ≤ 61 },
}

impl Held {
    ghost use Rattle.std.specs.Prelude.{[], ◌++◌, ◌&&◌, ◌||◌, ◌≡◌};
    ghost use Rattle.frames.specs.Lines.{line_call, some};
    ghost use Rattle.frames.specs.Stream.{held_bytes, held_of};

    // Nothing: the start of a line.
    pub(crate) fn new() -> Held
        ensures { held_bytes result ≡ [] }
    {
        Held {
            bytes: [0; HELD_MAX],
            len: 0,
        }
    }

    // Whether the line, of which this is more, is at its end: where a newline closes it, or where the text ends and the line has
    // any byte.
    pub(crate) fn is_ended(&self, more: &[u8], is_closed: bool, last: bool) -> bool
        ensures { result ≡ is_closed || (last && (some (held_bytes self.now) || some more.now)) }
    {
        is_closed || last && (0 < self.len || 0 < more.len())
    }

    // The call of the line that ends with this.
    pub(crate) fn call_with(&self, more: &[u8]) -> Option<Call>
        ensures { result ≡ line_call (held_of (held_bytes self.now ++ more.now)) }
    {
        if self.len == 0 {
            return read_line(more);
        }
        let mut whole = *self;
        whole.hold(more);
        read_line(&whole.bytes[..whole.len])
    }

    // More of the line, as far as there is room.
    pub(crate) fn hold(&mut self, more: &[u8])
        ensures { held_bytes self.new ≡ held_of (held_bytes self.old ++ more.now) }
    {
        let len = self.len;
        let n = more.len().min(HELD_MAX - len);
        put_all(&more[..n], &mut self.bytes, len);
        self.len = len + n;
    }
}
