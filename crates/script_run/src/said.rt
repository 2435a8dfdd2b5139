// What an operation says.
use std::fmt;
use text::{Hex, kept_or_changed, yes_or_no};

#[derive(Clone, Copy)]
pub(crate) enum Said<'a> {
    Nothing,
    // What became of the answer buffer behind the answer, and of the space; the number that was returned, and the answer.
    Told {
        rest_kept: bool,
        image_kept: bool,
        returned: u64,
        answer: &'a [u8],
    },
    // What is said of an image: by the acceptance, and in numbers by the check and the reader.
    Judged {
        accepted: bool,
        check: u64,
        reader: u64,
    },
    Same(bool),
    Bytes(&'a [u8]),
}

impl fmt::Display for Said<'_> {
    fn fmt<W: fmt::Write>(&self, f: &mut fmt::Formatter<W>) -> fmt::Result {
        match *self {
            Said::Nothing => Ok(()),
            Said::Told {
                rest_kept,
                image_kept,
                returned,
                answer,
            } => {
                let rest = kept_or_changed(rest_kept);
                let image = kept_or_changed(image_kept);
                let answer = Hex(answer);
                write!(f, "rest {rest}, image {image}, returns {returned} {answer}")
            }
            Said::Judged {
                accepted,
                check,
                reader,
            } => {
                let image = if accepted { "accepted" } else { "refused" };
                write!(f, "{image}, check {check}, reader {reader}")
            }
            Said::Same(is_same) => write!(f, "{}", yes_or_no(is_same)),
            Said::Bytes(bytes) => write!(f, "{}", Hex(bytes)),
        }
    }
}
