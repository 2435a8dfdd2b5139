// What the program prints.
use crate::outcome::same_state;
use frames::{ANSWER_MAX, write_answer};
use scheduler::{Answer, QoSScheduler, Reply};
use std::fmt;
use text::{Hex, front, kept_or_changed};

// An answer: the bytes that document 01 has for it, two digits each.
#[derive(Clone, Copy)]
pub(crate) struct Written(pub Answer);

impl fmt::Display for Written {
    fn fmt<W: fmt::Write>(&self, f: &mut fmt::Formatter<W>) -> fmt::Result {
        let mut bytes = [0; ANSWER_MAX];
        let n = write_answer(self.0, &mut bytes);
        write!(f, "{}", Hex(front(&bytes, n)))
    }
}

// What came of a call on a lent state: its answer, and whether the state is as it was before.
#[derive(Clone, Copy)]
pub(crate) struct Told {
    pub before: QoSScheduler,
    pub reply: Reply,
}

impl fmt::Display for Told {
    fn fmt<W: fmt::Write>(&self, f: &mut fmt::Formatter<W>) -> fmt::Result {
        let state = kept_or_changed(same_state(self.before, self.reply.state));
        write!(f, "{} state {state}", Written(self.reply.answer))
    }
}

// A line of its own. A write that fails is passed over: there is nobody to tell, and what follows is tried all the same.
pub(crate) fn print_line(rt: &impl Print, line: impl fmt::Display + Drop) {
    let _ = println!(rt; "{line}");
}

// What stands before a claim that holds, and before one that does not.
pub(crate) fn not_unless(holds: bool) -> &'static str {
    if holds { "" } else { "NOT " }
}
