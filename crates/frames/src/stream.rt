// Text that comes in blocks: a stream is fed block by block, and gives the answers to the lines of the whole text.
ghost use Rattle.std.specs.Prelude.{◌≡◌};
ghost use Rattle.frames.specs.Stream.{Begins, Feeds};
ghost use Rattle.frames.specs.Private.{Stops};

use crate::held::Held;
use crate::lines::{NO_FRAME, next_line, past_newline, put_answer, put_line};
use scheduler::QoSScheduler;

// A scheduler, and what is there of a line that is not answered yet.
#[derive(Clone, Copy)]
pub struct Stream {
    pub state: QoSScheduler,
    held: Held,
}

// What a block made of a stream.
#[derive(Clone, Copy)]
pub struct Fed {
    pub stream: Stream,
    // how many bytes of the block are done with: all of them, unless the buffer is full
    pub used: usize,
    // how many bytes of answers were written
    pub written: usize,
    // whether a line's answer has no room in what is left of the buffer: feed again what is not used, even if that is nothing,
    // and as the last if it was the last. A flag and no Result: what was fed and written counts either way.
    pub is_full: bool,
}

impl Stream {
    // A stream over a scheduler, at the start of a line.
    pub fn new(state: QoSScheduler) -> Stream
        ensures { Begins state result }
    {
        Stream {
            state,
            held: Held::new(),
        }
    }

    // Goes on with the text: the answers to its lines, each closed by a newline, at the front of a buffer, in order and as many as
    // have room; bytes behind them stay. A line that no newline closes yet is held for the next block; where the block is the
    // last it is answered. ANSWER_LINE_MAX bytes have room for any one line's answer. The calls are made here, since in a function
    // of its own the state would be copied twice more for each; so the end of a line stands twice, for a line that is a frame and
    // for one that is none, and what stops it three times, each with the state as it is there. `used` and `written` are counted by
    // hand, since they are answered.
    pub fn feed(self, block: &[u8], last: bool, out: &mut [u8]) -> Fed
        ensures { Feeds last self block.now out.old out.new result }
    {
        let mut state = self.state;
        let mut held = self.held;
        let mut used = 0;
        let mut written = 0;
        loop {
            let line = next_line(block, used);
            let end = used + line.len();
            if !held.is_ended(line, end < block.len(), last) {
                return Stream { state, held }.stopped(line, end, written, false);
            }
            let Some(call) = held.call_with(line) else {
                let Some(size) = put_line(&NO_FRAME, out, written) else {
                    return Stream { state, held }.stopped(line, end, written, true);
                };
                held = Held::new();
                used = past_newline(block, end);
                written += size;
                continue;
            };
            let reply = state.apply(call);
            let Some(size) = put_answer(reply.answer, out, written) else {
                return Stream { state, held }.stopped(line, end, written, true);
            };
            state = reply.state;
            held = Held::new();
            used = past_newline(block, end);
            written += size;
        }
    }

    // Nothing more is answered: what there is of the next line is held.
    fn stopped(mut self, line: &[u8], used: usize, written: usize, is_full: bool) -> Fed
        ensures { Stops self line.now used written is_full result }
    {
        self.held.hold(line);
        Fed {
            stream: self,
            used,
            written,
            is_full,
        }
    }
}
