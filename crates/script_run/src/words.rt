// A line of a script, taken apart. It may be any bytes.
ghost use Rattle.std.specs.Prelude.{◌<◌, IfSome};

use arrayvec::ArrayVec;
use text::{behind, front};

// As many bytes as an operation takes at most.
const BYTES_MAX: usize = 300;

// The bytes that an operation takes.
pub(crate) type Bytes = ArrayVec<u8, BYTES_MAX>;

// Where a number of a script ends: it has as many digits as this at most, and any zeros in front.
const LARGE: usize = 10_000;

// What stands in front of the first such byte, all where there is none; and what stands behind it.
pub(crate) fn cut_at(line: &[u8], byte: u8) -> (&[u8], &[u8]) {
    let mut parts = line.splitn(2, |other| *other == byte);
    let head = parts.next().unwrap_or(&[]);
    let tail = parts.next().unwrap_or(&[]);
    (head, tail)
}

// A line without the blanks and control bytes at its end, a newline among them.
pub(crate) fn trimmed(line: &[u8]) -> &[u8] {
    match line.iter().rposition(|byte| *byte > b' ') {
        Some(last) => front(line, last + 1),
        None => &[],
    }
}

// The number that these words begin with, in decimal, 0 where there is none; and what stands behind it.
pub(crate) fn number_in(words: &[u8]) -> (usize, &[u8]) {
    let mut number = 0;
    for (i, byte) in words.iter().enumerate() {
        if number >= LARGE || !byte.is_ascii_digit() {
            return (number, behind(words, i));
        }
        number = number * 10 + usize::from(*byte - b'0');
    }
    (number, &[])
}

// The bytes of all hexadecimal digits of these words, two digits each, as many bytes as there is room for. What is no digit is
// passed over, and so is an odd last one.
pub(crate) fn bytes_in(words: &[u8]) -> Bytes {
    let mut bytes = ArrayVec::new();
    let mut upper = None;
    for digit in words.iter().filter_map(|byte| digit_value(*byte)) {
        match upper.take() {
            None => upper = Some(digit),
            Some(upper) => {
                let _ = bytes.try_push(upper << 4 | digit);
            }
        }
    }
    bytes
}

// The value of a hexadecimal digit; a letter counts in lower case alone.
fn digit_value(byte: u8) -> Option<u8>
    ensures { IfSome result (λ digit. digit < 16) }
{
    match byte {
        b'0'..=b'9' => Some(byte - b'0'),
        b'a'..=b'f' => Some(byte - b'a' + 10),
        _ => None,
    }
}
