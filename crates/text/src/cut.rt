// Parts of a run of bytes, as far as there are so many.
ghost use Rattle.std.specs.Prelude.{◌≡◌, take, drop};

// The first bytes, as many as are asked for and there are.
pub fn front(bytes: &[u8], n: usize) -> &[u8]
    ensures { result.now ≡ take n bytes.now }
{
    bytes.get(..n).unwrap_or(bytes)
}

// Those from a place on; none where there is no such place. `frames`, which programs test by this, has such a function of its own.
pub fn behind(bytes: &[u8], at: usize) -> &[u8]
    ensures { result.now ≡ drop at bytes.now }
{
    bytes.get(at..).unwrap_or(&[])
}
