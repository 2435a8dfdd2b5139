// Frames: which call a frame's bytes stand for.
ghost use Rattle.std.specs.Prelude.{◌≡◌, get_or, None};
ghost use Rattle.frames.specs.Frame.{frame_call, calls_in, create_in, slot_at};
ghost use Rattle.frames.specs.Bytes.{number_at};
ghost use Rattle.records.specs.Band.{coded_band};

use crate::bytes::number;
use records::{QoSClass, Slot, Tid};
use scheduler::Call;

// The length of each call's frame, from 00 to 10. A table beside `call_in`, so that a frame of another length is refused before an
// argument is read.
const FRAME_LENGTHS: [usize; 17] = [30, 17, 9, 9, 9, 9, 9, 13, 9, 9, 13, 17, 5, 9, 9, 1, 9];

// The call of a frame of raw bytes, of any length and contents. None is refusal 9: for a bad digit, an unknown call, a wrong
// length or a band above 2.
pub fn read_frame(frame: &[u8]) -> Option<Call>
    ensures { result ≡ frame_call frame.now }
{
    let call = *frame.first()?;
    let length = *FRAME_LENGTHS.get(usize::from(call))?;
    if frame.len() != length {
        return None;
    }
    call_in(frame, call)
}

// The arguments of a call's frame, read as that call. A match over document 01's numbers shows each beside its call, those too that
// have the same arguments.
fn call_in(frame: &[u8], call: u8) -> Option<Call>
    ensures { result ≡ get_or (calls_in frame.now) call None }
{
    match call {
        0 => create_in(frame),
        1 => Some(Call::Affinity {
            slot: slot_in(frame),
            mask: number(frame, 9, 8),
        }),
        2 => Some(Call::Terminate(slot_in(frame))),
        3 => Some(Call::Block(slot_in(frame))),
        4 => Some(Call::Wake(slot_in(frame))),
        5 => Some(Call::Enqueue(slot_in(frame))),
        6 => Some(Call::Schedule(core_at(frame, 1))),
        7 => Some(Call::Tick {
            core: core_at(frame, 1),
            elapsed_us: word_at(frame, 9),
        }),
        8 => Some(Call::Yield(core_at(frame, 1))),
        9 => Some(Call::Handoff(core_at(frame, 1))),
        10 => Some(Call::Plan {
            core: core_at(frame, 1),
            elapsed_us: word_at(frame, 9),
        }),
        11 => Some(Call::CanRunOnCore {
            slot: slot_in(frame),
            core: core_at(frame, 9),
        }),
        12 => Some(Call::TaskIndexForTid(Tid(word_at(frame, 1)))),
        13 => Some(Call::Task(slot_in(frame))),
        14 => Some(Call::CurrentTaskOnCpu(core_at(frame, 1))),
        15 => Some(Call::SystemTicksUs),
        16 => Some(Call::Holder(slot_in(frame))),
        _ => None,
    }
}

// The arguments of create; a band above 2 makes it no frame.
fn create_in(frame: &[u8]) -> Option<Call>
    ensures { result ≡ create_in (coded_band (number_at 5 1 frame.now)) frame.now }
{
    let qos = QoSClass::try_from(number(frame, 5, 1) as u8).ok()?;
    Some(Call::Create {
        tid: Tid(word_at(frame, 1)),
        qos,
        context_handle: number(frame, 6, 8),
        cr3: number(frame, 14, 8),
        rsp0: number(frame, 22, 8),
    })
}

// The slot that a frame names behind its call.
fn slot_in(frame: &[u8]) -> Slot
    ensures { result ≡ slot_at 1 frame.now }
{
    Slot(core_at(frame, 1))
}

// The core, or slot number, in 8 bytes. `word_at` is its twin for 4: what both casts give is of two types, and a function over both
// would need a trait with a law, which is longer than the two.
fn core_at(frame: &[u8], at: usize) -> usize
    ensures { result ≡ number_at at 8 frame.now }
{
    number(frame, at, 8) as usize
}

// The tid or elapsed time in 4 bytes.
fn word_at(frame: &[u8], at: usize) -> u32
    ensures { result ≡ number_at at 4 frame.now }
{
    number(frame, at, 4) as u32
}
