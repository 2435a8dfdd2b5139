// The two slots whose records a call can change: the one that it names or that its core holds, and the one that it answers with.
ghost use Rattle.std.specs.Prelude.{◌≡◌};
ghost use Rattle.rules.specs.Paper.{slot_number};
ghost use Rattle.rules.specs.State.{holder};
ghost use Rattle.rules.specs.Touched.{named_slot, answered_slot};
ghost use Rattle.frames.specs.Image.{state_at};

use crate::layout::Image;
use crate::parts::holders_at;
use records::Slot;
use scheduler::{Answer, Call, NO_HOLDER, Value};

// The slot that a call names, or that its core holds.
pub(crate) fn named_slot(call: Call, image: &Image) -> Option<Slot>
    ensures { slot_number result ≡ named_slot call (state_at image.now) }
{
    match call {
        Call::Affinity { slot, .. }
        | Call::Terminate(slot)
        | Call::Block(slot)
        | Call::Wake(slot)
        | Call::Enqueue(slot) => Some(slot),
        Call::Tick { core, .. }
        | Call::Yield(core)
        | Call::Handoff(core)
        | Call::Plan { core, .. } => holder_in(image, core),
        _ => None,
    }
}

// A core's holder; a core of 64 and above has none. The scheduler's own reader is private, and public it would be no shorter.
fn holder_in(image: &Image, core: usize) -> Option<Slot>
    ensures { slot_number result ≡ holder (state_at image.now) core }
{
    match *holders_at(image).get(core)? {
        NO_HOLDER => None,
        holder => Some(Slot(usize::from(holder))),
    }
}

// The slot that an answer tells of: its pick, or else its value.
pub(crate) fn answered_slot(answer: Answer) -> Option<Slot>
    ensures { slot_number result ≡ answered_slot answer }
{
    match (answer.pick, answer.value) {
        (Some(pick), _) => Some(pick.slot),
        (None, Value::Slot(slot)) => slot,
        _ => None,
    }
}
