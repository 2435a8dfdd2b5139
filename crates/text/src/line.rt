// A line of text, put together piece by piece. What has no room is left out.
ghost use Rattle.std.specs.Prelude.{◌≡◌, [], ◌≤◌, length, IsOk};
ghost use Rattle.text.specs.Text.{Puts, line_room};

use crate::front;
use arrayvec::ArrayVec;
use std::fmt;
use std::marker::Model;

// As many bytes as a line has room for.
const LINE_MAX: usize = 1024;

// Contracts see a line as its text.
#[derive(Clone, Drop)]
pub struct Line {
    text: ArrayVec<u8, LINE_MAX>,
}

impl Model for Line {
    ghost use Rattle.std.specs.Prelude.{List, ℕ};

    ghost Value = { List ℕ };

    ghost view = { λ line. line.text.items };
}

impl Line {
    // A line without text.
    pub fn new() -> Line
        ensures { result ≡ [] }
    {
        Line {
            text: ArrayVec::new(),
        }
    }

    // Puts these bytes behind the text, as far as there is room.
    pub fn put(&mut self, bytes: &[u8])
        ensures { Puts bytes.now self.old self.new }
    {
        let kept = front(bytes, self.text.remaining_capacity());
        let _ = self.text.try_extend_from_slice(kept);
    }

    // The text.
    pub fn as_slice(&self) -> &[u8]
        ensures value { result.now ≡ self.now }
        ensures fits { length result.now ≤ line_room }
    {
        self.text.as_slice()
    }
}

// What is written into a line is put behind its text; no write fails.
impl fmt::Write for Line {
    ghost write_str_gives = { λ before bytes after. Puts bytes before after };

    fn write_str(&mut self, text: &str) -> fmt::Result
        ensures ok { IsOk result → Puts text.now self.old self.new }
        ensures takes { IsOk result }
    {
        self.put(text.as_bytes());
        Ok(())
    }
}
