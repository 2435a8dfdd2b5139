// A byte that is the code of nothing.

// No band, or no state, has this code.
#[derive(Clone, Copy, PartialEq, Eq)]
pub struct UnknownCode;
