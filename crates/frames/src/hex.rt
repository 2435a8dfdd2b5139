// Lower-case hexadecimal, two digits a byte.
ghost use Rattle.std.specs.Prelude.{◌≡◌, ◌+◌, ◌*◌, ◌<◌, ◌≤◌, length};
ghost use Rattle.std.proofs.lemmas.List.Edits.{sets};
ghost use Rattle.frames.specs.Hex.{is_digit, digit_of, is_hex, from_hex, to_hex};
ghost use Rattle.frames.specs.Private.{IsDigitValue};

// Whether a line is digits alone, two for each byte.
pub(crate) fn is_hex(line: &[u8]) -> bool
    ensures { result ≡ is_hex line.now }
{
    line.len() % 2 == 0 && line.iter().all(|d| is_digit(*d))
}

// The bytes that a line's digits stand for, stored at the front of a buffer that has room for them: a byte's digits stand at twice
// its place.
pub(crate) fn from_hex(line: &[u8], bytes: &mut [u8])
    requires { length line.now ≤ 2 * length bytes.old }
    ensures { bytes.new ≡ sets bytes.old 0 (from_hex line.now) }
{
    for k in 0..line.len() / 2 {
        bytes[k] = digit_value(line[2 * k]) * 16 + digit_value(line[2 * k + 1]);
    }
}

// The digits of bytes, stored from `at` on in text that has room for them.
pub(crate) fn put_hex(bytes: &[u8], text: &mut [u8], at: usize)
    requires { at + 2 * length bytes.now ≤ length text.old }
    ensures { text.new ≡ sets text.old at (to_hex bytes.now) }
{
    for (k, byte) in bytes.iter().enumerate() {
        text[at + 2 * k] = digit(*byte / 16);
        text[at + 2 * k + 1] = digit(*byte % 16);
    }
}

// A test of its own, since a line is no frame before all of it is digits.
fn is_digit(d: u8) -> bool
    ensures { result ≡ is_digit d }
{
    matches!(d, b'0'..=b'9' | b'a'..=b'f')
}

// What a digit stands for, and 0 for a byte that is none, which `is_hex` keeps out. `char::to_digit` would take A to F too.
fn digit_value(d: u8) -> u8
    ensures { IsDigitValue d result }
{
    match d {
        b'0'..=b'9' => d - b'0',
        b'a'..=b'f' => d - b'a' + 10,
        _ => 0,
    }
}

// A number's digit. `char::from_digit` gives an Option of a character, of which the byte would have to be taken.
fn digit(n: u8) -> u8
    requires { n < 16 }
    ensures { result ≡ digit_of n }
{
    match n {
        0..=9 => n + b'0',
        _ => n - 10 + b'a',
    }
}
