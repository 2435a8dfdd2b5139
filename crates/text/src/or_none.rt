// A value that may be missing, as it is printed.
ghost use Rattle.text.specs.Printed.{or_none_text};

use std::fmt;

// A value as it prints itself, or the word none.
#[derive(Clone, Copy)]
pub struct OrNone<T>(pub Option<T>);

impl<T: fmt::Display> fmt::Display for OrNone<T> {
    ghost output = { λ value. or_none_text T.output value.0 };

    fn fmt<W: fmt::Write>(&self, f: &mut fmt::Formatter<W>) -> fmt::Result {
        match &self.0 {
            Some(value) => write!(f, "{value}"),
            None => write!(f, "none"),
        }
    }
}
