// Answers frames: a line of standard input is a call, a line of standard output its answer. It starts with a new scheduler
// and goes on to the end of the input, whatever the lines hold; answers are written before more input is waited for.
//
// It reads, feeds what it read to a stream, and writes what comes back. What a feeding makes is proved (`Stream::feed` of
// frames), and that all of a block is fed, in order; what a read brings and what a write does is not.
#![tactic(auto)]

ghost use Rattle.std.specs.Prelude.{true, ◌≡◌, ◌≤◌, length};
ghost use Rattle.calls.specs.Program.{FeedsBlock};
ghost use Rattle.frames.specs.Stream.{longest_answer};

use frames::Stream;
use scheduler::QoSScheduler;
use std::env::{Env, FillError};
use std::io::Read;

// How much is read at a time, and the room for what is answered.
const BLOCK: usize = 65_536;

// A stream, and whether all answers so far were written: a flag and no Result, since what is promised of the stream
// (`FeedsBlock`) holds either way.
#[derive(Clone, Copy)]
struct Progress {
    stream: Stream,
    is_written: bool,
}

fn main(rt: HostRuntime) {
    // with an argument it says what it is, and does not wait for input
    let Err(FillError::NotPresent) = rt.arg(1, &mut []) else {
        return report(
            &rt,
            "it takes no arguments; it reads frames from standard input, a line each",
        );
    };
    let mut stream = Stream::new(QoSScheduler::new());
    let mut stdin = rt.stdin();
    let mut input = [0u8; BLOCK];
    let mut out = [0u8; BLOCK];
    // A proved loop has to end, and nothing says that the input does: so it is given more turns than any run uses up.
    for _ in 0..u64::MAX {
        // a read that finds nothing is the end of the input; one that fails is not, so that a line which it may have cut is not
        // answered
        let Ok(n) = stdin.read(&mut input) else {
            return report(&rt, "standard input could not be read to its end");
        };
        let done = answer_block(&rt, stream, &input[..n], n == 0, &mut out);
        if !done.is_written {
            return report(
                &rt,
                "an answer could not be written, and what follows it is not answered",
            );
        }
        if n == 0 {
            return;
        }
        stream = done.stream;
    }
}

// Feeds a block, in as many goes as its answers need, and writes what each gives. Only a read that found nothing is the end of
// the input, so the last block is empty; `last` goes beside it, as in what is promised of feedings.
fn answer_block(
    rt: &impl Print,
    mut stream: Stream,
    block: &[u8],
    last: bool,
    out: &mut [u8],
) -> Progress
    requires last_is_empty { last ≡ true → length block.now ≡ 0 }
    requires room { longest_answer ≤ length out.old }
    ensures { FeedsBlock last stream block.now result }
{
    let mut used = 0; // by hand, since what is promised is of the block as it came
    loop {
        let fed = stream.feed(&block[used..], last, out);
        stream = fed.stream;
        used += fed.used;
        let is_written = rt.write_all(&out[..fed.written]).is_ok();
        if !fed.is_full || !is_written {
            return Progress { stream, is_written };
        }
    }
}

// Says what went wrong. Where that can't be written either, there is nowhere left to say so.
fn report(rt: &impl Eprint, wrong: &str) {
    let _ = eprintln!(rt; "calls: {wrong}");
}
