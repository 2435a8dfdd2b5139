// Two runs of bytes, compared, and what is told of it.
ghost use Rattle.std.specs.Prelude.{◌≡◌, cond, codes};
ghost use Rattle.text.specs.Same.{TellsSame};

// Whether two runs of bytes are the same: `==` as a function, so that what is told of it is promised.
pub fn is_same(one: &[u8], other: &[u8]) -> bool
    ensures { TellsSame one.now other.now result }
{
    one == other
}

// A flag, as it is printed; and below, whether something was kept. Each is one line: with the words as arguments it would be `if`.
pub fn yes_or_no(flag: bool) -> &'static str
    ensures { result.now ≡ cond flag (codes "yes") (codes "no") }
{
    if flag { "yes" } else { "no" }
}

// Whether something is as it was, as it is printed.
pub fn kept_or_changed(is_kept: bool) -> &'static str
    ensures { result.now ≡ cond is_kept (codes "kept") (codes "changed") }
{
    if is_kept { "kept" } else { "changed" }
}
