// Replays stored lists of calls, with no Rust at hand, and compares each answer with the stored one, byte for byte.
//
// Standard input has one list behind the other. A line that begins with `=` names the list that follows, which starts
// with a new scheduler; then every frame takes a line and its answer the next. A stored `.` stands for any digit: of a byte
// that the Rust has no part in. oracle/README.md says how the lists were made. The last line counts what was compared.
#![tactic(auto)]

ghost use Rattle.std.specs.Prelude.{◌≡◌};
ghost use Rattle.replay.specs.Tallies.{is_name, none_counted, with_answer, BeginsList, FeedsFrame, Replays};
ghost use Rattle.replay.specs.Comparing.{as_stored};

use arrayvec::ArrayVec;
use frames::{ANSWER_LINE_MAX, Stream};
use scheduler::QoSScheduler;
use std::fmt;
use text::Input;

// No stored line is longer. What follows so many bytes of a line is a line of its own.
const STORED_MAX: usize = 256;

// What begins a list's name.
const NAME: u8 = b'=';

// What stands for any digit in a stored answer.
const ANY: u8 = b'.';

// Where a replay stands.
#[derive(Drop)]
struct Replay {
    stream: Stream,
    // The last frame's answer, where the stored one comes next.
    waiting: Option<ArrayVec<u8, ANSWER_LINE_MAX>>,
    counts: Counts,
}

// What was counted.
#[derive(Clone, Copy)]
struct Counts {
    lists: u64,
    calls: u64,
    differences: u64,
}

fn main(rt: HostRuntime) {
    let mut replay = Replay::new();
    let mut input = Input::new(rt.stdin());
    let mut line = [0; STORED_MAX];
    // a proved loop has to end, and nothing says that the input does: so it is given more turns than any run uses up
    for _ in 0..u64::MAX {
        let n = input.read_line(&mut line);
        if n == 0 {
            break;
        }
        replay.line(&rt, &line[..n]);
    }
    let _ = println!(rt; "{}", replay.counts); // where that fails there is nobody to tell
}

impl Replay {
    fn new() -> Replay
        ensures begins { BeginsList result }
        ensures counts { result.counts ≡ none_counted }
    {
        Replay {
            stream: Stream::new(QoSScheduler::new()),
            waiting: None,
            counts: Counts {
                lists: 0,
                calls: 0,
                differences: 0,
            },
        }
    }

    // One line, with its newline if it has one: the stored answer to the last frame, or a list's name, or a frame.
    fn line(&mut self, rt: &impl Print, line: &[u8])
        ensures { Replays self.old line.now self.new }
    {
        if let Some(answer) = self.waiting.take() {
            return self.counts.compare(rt, answer.as_slice(), line);
        }
        if is_name(line) {
            self.stream = Stream::new(QoSScheduler::new());
            self.counts.lists = self.counts.lists.wrapping_add(1);
            return;
        }
        self.answer(line);
    }

    // A frame's answer waits, if the line ends the frame: a stream answers when its newline comes.
    fn answer(&mut self, line: &[u8])
        ensures { FeedsFrame self.old line.now self.new }
    {
        let mut answer = ArrayVec::from([0; ANSWER_LINE_MAX]);
        let fed = self.stream.feed(line, false, answer.as_mut_slice());
        self.stream = fed.stream;
        answer.truncate(fed.written);
        self.waiting = (!answer.is_empty()).then_some(answer);
    }
}

// Whether a line is a list's name.
fn is_name(line: &[u8]) -> bool
    ensures { result ≡ is_name line.now }
{
    line.first() == Some(&NAME)
}

impl Counts {
    // An answer, held against the stored one; a difference is printed with its list and its call, both counted from 1, and with
    // both answers, which end in newlines. A write that fails is passed over, since all that follows is compared and counted
    // whether it can be told or not.
    fn compare(&mut self, rt: &impl Print, answer: &[u8], stored: &[u8])
        ensures { self.new ≡ with_answer (as_stored answer.now stored.now) self.old }
    {
        self.calls = self.calls.wrapping_add(1);
        if is_as_stored(answer, stored) {
            return;
        }
        self.differences = self.differences.wrapping_add(1);
        let _ = print!(rt; "list {}, call {}: stored ", self.lists, self.calls);
        let _ = rt.write_all(stored);
        let _ = rt.write_all(b"found ");
        let _ = rt.write_all(answer);
    }
}

// Whether an answer is the stored one, byte for byte but where that leaves a byte open.
fn is_as_stored(answer: &[u8], stored: &[u8]) -> bool
    ensures { result ≡ as_stored answer.now stored.now }
{
    answer.len() == stored.len() && answer.iter().zip(stored).all(|(a, s)| a == s || *s == ANY)
}

impl fmt::Display for Counts {
    fn fmt<W: fmt::Write>(&self, f: &mut fmt::Formatter<W>) -> fmt::Result {
        let Counts {
            lists,
            calls,
            differences,
        } = *self;
        write!(f, "{lists} lists, {calls} calls, {differences} differences")
    }
}
