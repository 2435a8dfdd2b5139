// Big-endian numbers in a slice of bytes, by one law over the width. Whether all bytes have their place is asked once and not
// for each, so that the bytes of a number are read and stored together. A width is an argument and no const parameter, so that one
// law holds of a list of widths.
ghost use Rattle.std.specs.Prelude.{◌≡◌, ◌+◌, ◌≤◌, drop, length};
ghost use Rattle.std.proofs.lemmas.List.Edits.{sets};
ghost use Rattle.frames.specs.Bytes.{bytes_of};
ghost use Rattle.frames.specs.Private.{IsNumber};

// The number in `width` bytes from `at` on. Bytes past the end of the slice are not there: a number that runs over it is
// read from those before.
pub(crate) fn number(bytes: &[u8], at: usize, width: usize) -> u64
    requires { width ≤ 8 }
    ensures { IsNumber at width bytes.now result }
{
    let rest = behind(bytes, at);
    match rest.get(..width) {
        Some(all) => whole_number(all),
        None => whole_number(rest),
    }
}

// The bytes from `at` on; none past the end.
pub(crate) fn behind(bytes: &[u8], at: usize) -> &[u8]
    ensures { result.now ≡ drop at bytes.now }
{
    bytes.get(at..).unwrap_or(&[])
}

// The number that these bytes are.
fn whole_number(bytes: &[u8]) -> u64
    requires { length bytes.now ≤ 8 }
    ensures { IsNumber 0 (length bytes.now) bytes.now result }
{
    let mut read = 0;
    for byte in bytes {
        read = u64::from(*byte) + read * 256;
    }
    read
}

// The number stored in `width` bytes from `at` on. A byte that has no place in the slice is not stored.
pub(crate) fn put_number(bytes: &mut [u8], at: usize, width: usize, number: u64)
    requires { width ≤ 8 }
    ensures { bytes.new ≡ sets bytes.old at (bytes_of width number) }
{
    put_bytes(&number.to_be_bytes()[8 - width..], bytes, at);
}

// The bytes stored from `at` on. A byte that has no place in the slice is not stored.
pub(crate) fn put_bytes(bytes: &[u8], out: &mut [u8], at: usize)
    ensures { out.new ≡ sets out.old at bytes.now }
{
    let Some(room) = out.len().checked_sub(at) else {
        return;
    };
    if bytes.len() <= room {
        put_all(bytes, out, at);
    } else {
        put_all(&bytes[..room], out, at);
    }
}

// The bytes stored from `at` on, where each has its place.
pub(crate) fn put_all(bytes: &[u8], out: &mut [u8], at: usize)
    requires { at + length bytes.now ≤ length out.old }
    ensures { out.new ≡ sets out.old at bytes.now }
{
    out[at..at + bytes.len()].copy_from_slice(bytes);
}
