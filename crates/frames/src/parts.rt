// The parts of an image: a slot's record, a band's queue, and the holders. A band goes beside the image, which is looked into for
// records too.
ghost use Rattle.std.specs.Prelude.{◌≡◌, ◌<◌, drop};
ghost use Rattle.frames.specs.Image.{record_at, queue_at, length_byte, state_at};

use crate::layout::{HOLDERS_AT, Image, MICROS_AT, QUEUE_BYTES, QUEUES_AT, RECORD_BYTES};
use records::{MAX_CPUS, MAX_TASKS, QoSClass};

// A slot's record, as that part of the image.
pub(crate) fn record_at(image: &Image, slot: usize) -> &[u8]
    requires { slot < 64 }
    ensures { result.now ≡ record_at slot image.now }
{
    let at = RECORD_BYTES * slot;
    &image[at..at + RECORD_BYTES]
}

// A band's queue, as the image has it: how many entries its first byte says, and its 64 places.
pub(crate) fn queue_at(image: &Image, band: QoSClass) -> (usize, &[u8; MAX_TASKS])
    ensures len { result.0 ≡ length_byte (queue_at band image.now) }
    ensures places { result.1.now ≡ drop 1 (queue_at band image.now) }
{
    let at = QUEUES_AT + QUEUE_BYTES * usize::from(band.code());
    let places = image[at + 1..at + QUEUE_BYTES].as_array().unwrap();
    (usize::from(image[at]), places)
}

// Every core's holder.
pub(crate) fn holders_at(image: &Image) -> &[u8; MAX_CPUS]
    ensures { result.now ≡ (state_at image.now).holders }
{
    image[HOLDERS_AT..MICROS_AT].as_array().unwrap()
}
