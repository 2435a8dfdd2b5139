// Lines of text: the next line, the call that it stands for, and an answer as a line.
ghost use Rattle.std.specs.Prelude.{◌≡◌, ◌+◌, ◌≤◌, min, length, drop};
ghost use Rattle.frames.specs.Answer.{answer_bytes};
ghost use Rattle.frames.specs.Lines.{line_of, line_call};
ghost use Rattle.frames.specs.Private.{PutsLine};

use crate::bytes::behind;
use crate::decode::read_frame;
use crate::encode::{ANSWER_MAX, VALUE_AT, write_answer};
use crate::hex::{from_hex, is_hex, put_hex};
use scheduler::{Answer, Call};

const NEWLINE: u8 = b'\n';

// No frame has more bytes.
const FRAME_MAX: usize = 30;

// No line that stands for a frame has more digits.
pub(crate) const LINE_MAX: usize = 2 * FRAME_MAX;

// The longest answer as a line of text, with its newline.
pub const ANSWER_LINE_MAX: usize = 2 * ANSWER_MAX + 1;

// The answer to a line that is no frame, in document 01's bytes: refusal 9, and no pick. A constant may call no function.
pub(crate) const NO_FRAME: [u8; VALUE_AT] = [9, 255, 255];

// The line that begins at `at`, as that part of the input: up to the next newline, which is not in it, or to the end. At
// the end and past it there is no line, and the part is empty.
pub fn next_line(input: &[u8], at: usize) -> &[u8]
    ensures { result.now ≡ line_of (drop at input.now) }
{
    let rest = behind(input, at);
    let end = rest.iter().position(|byte| *byte == NEWLINE);
    &rest[..end.unwrap_or(rest.len())]
}

// The call that a line of digits stands for.
pub fn read_line(line: &[u8]) -> Option<Call>
    ensures { result ≡ line_call line.now }
{
    if LINE_MAX < line.len() || !is_hex(line) {
        return None;
    }
    let mut frame = [0u8; FRAME_MAX];
    from_hex(line, &mut frame);
    read_frame(&frame[..line.len() / 2])
}

// An answer as a line of text, from `at` on, and how many bytes it has; None where it has no room, and then nothing is stored.
pub(crate) fn put_answer(answer: Answer, out: &mut [u8], at: usize) -> Option<usize>
    requires { at ≤ length out.old }
    ensures { PutsLine (answer_bytes answer) at out.old out.new result }
{
    let mut bytes = [0u8; ANSWER_MAX];
    let n = write_answer(answer, &mut bytes);
    put_line(&bytes[..n], out, at)
}

// The same of an answer's bytes.
pub(crate) fn put_line(answer: &[u8], out: &mut [u8], at: usize) -> Option<usize>
    requires { at ≤ length out.old }
    ensures { PutsLine answer.now at out.old out.new result }
{
    let digits = 2 * answer.len();
    if out.len() - at <= digits {
        return None;
    }
    put_hex(answer, out, at);
    out[at + digits] = NEWLINE;
    Some(digits + 1)
}

// The place behind a line's end: past its newline, if it has one.
pub(crate) fn past_newline(input: &[u8], end: usize) -> usize
    requires { end ≤ length input.now }
    ensures { result ≡ min (end + 1) (length input.now) }
{
    input.len().min(end + 1)
}
