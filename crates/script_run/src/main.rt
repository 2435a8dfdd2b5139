// Does what a script on standard input says, a line an operation, on bytes as a host might pass them and on a scheduler, and
// holds what each operation says against what the line expects.
//
// A line is an operation with its number and its bytes, if it takes them; behind `= ` stands what it is to say, nothing where
// there is no `=`, and behind `#` a remark. operation.rt has the operations. A line may be any bytes; what an operation takes none
// of is passed over. A difference is printed with the number of its line, and the last line counts what was done. A read that
// fails ends the script, and a write that fails is passed over.
//
//   words       a line, taken apart
//   operation   the operations, and the order that a line gives
//   script      what a script works on, and what is done with it
//   said        what an operation says
#![tactic(auto)]

mod operation;
mod said;
mod script;
mod words;

use operation::Order;
use script::Script;
use std::fmt::Write;
use text::{Input, Line, behind};
use words::{cut_at, trimmed};

// A longer line of a script is several lines, each of so many bytes.
const LINE_MAX: usize = 1024;

// A run of a script, and what was counted.
#[derive(Clone, Copy)]
struct Run {
    script: Script,
    operations: u64,
    differences: u64,
}

fn main(rt: HostRuntime) {
    let mut run = Run {
        script: Script::new(),
        operations: 0,
        differences: 0,
    };
    let mut input = Input::new(rt.stdin());
    let mut line = [0; LINE_MAX];
    // counted, since a proved loop has to end and nothing says that the input does
    for number in 1..u64::MAX {
        let n = input.read_line(&mut line);
        if n == 0 {
            break;
        }
        run.line(&rt, number, &line[..n]);
    }
    let _ = println!(rt;
        "{} operations, {} differences",
        run.operations, run.differences
    );
}

impl Run {
    // Does what a line orders, if it does, and compares what that says; blanks at the end of either count for nothing.
    fn line(&mut self, rt: &impl Print, number: u64, line: &[u8]) {
        let (line, _remark) = cut_at(line, b'#');
        let (words, expected) = cut_at(trimmed(line), b'=');
        if words.is_empty() {
            return;
        }
        self.operations = self.operations.wrapping_add(1);
        let mut said = Line::new();
        let _ = match Order::in_words(words) {
            Some(order) => write!(said, "{}", self.script.order(&order)),
            None => write!(said, "there is no such operation"),
        };
        // behind `=` stands a blank, or what is taken for one
        let expected = behind(expected, 1);
        if trimmed(said.as_slice()) != expected {
            self.differences = self.differences.wrapping_add(1);
            show_difference(rt, said, number, expected);
        }
    }
}

// Prints what was said and what was expected, in one line of as many bytes as one has room for.
fn show_difference(rt: &impl Print, mut said: Line, number: u64, expected: &[u8]) {
    let _ = write!(said, ", and line {number} expects ");
    said.put(expected);
    said.put(b"\n");
    let _ = rt.write_all(said.as_slice());
}
