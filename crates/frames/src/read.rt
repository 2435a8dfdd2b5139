// The reader: the scheduler that an image stands for.
ghost use Rattle.std.specs.Prelude.{◌≡◌};
ghost use Rattle.queue.specs.Stored.{entries};
ghost use Rattle.scheduler.specs.Stored.{queues_of};
ghost use Rattle.scheduler.specs.Scheduler.{abs};
ghost use Rattle.rules.specs.State.{queue};
ghost use Rattle.frames.specs.AcceptedImage.{AcceptedImage};
ghost use Rattle.frames.specs.ReadWrite.{image_status, ReadsImage};
ghost use Rattle.frames.specs.Private.{FindsImage};
ghost use Rattle.frames.specs.Image.{state_at};

use crate::accept::accepts;
use crate::bytes::number;
use crate::fields::record_in;
use crate::layout::{IMAGE_BYTES, Image, MICROS_AT};
use crate::parts::{holders_at, queue_at, record_at};
use crate::refusal::HostError;
use queue::BandQueue;
use records::{BAND_COUNT, QoSClass};
use scheduler::QoSScheduler;
use std::array::from_fn;

// What bytes that are refused come to: why, as `check_image` tells it, and the scheduler that they are read as, which is the new one.
#[derive(Clone, Copy)]
pub struct RefusedImage {
    pub error: HostError,
    pub state: QoSScheduler,
}

// For who has no use for the new scheduler: `?` hands the refusal on.
impl From<RefusedImage> for HostError {
    ghost from_gives = { λ refused error. error ≡ refused.error };

    fn from(refused: RefusedImage) -> HostError {
        refused.error
    }
}

// The scheduler that an image stands for, from any bytes; the new one, where they are refused.
pub fn read_image(image: &[u8]) -> Result<QoSScheduler, RefusedImage>
    ensures { ReadsImage image.now result }
{
    match accepted(image) {
        Ok(image) => Ok(state_at(image)),
        Err(error) => Err(RefusedImage {
            error,
            state: QoSScheduler::new(),
        }),
    }
}

// Whether bytes are an image that is accepted, or why not: 7 for their number, which is looked at first, or 8 for their contents.
pub fn check_image(image: &[u8]) -> Result<(), HostError>
    ensures { result ≡ image_status image.now }
{
    accepted(image)?;
    Ok(())
}

// The bytes as an image that is accepted, or why they are none.
fn accepted(image: &[u8]) -> Result<&Image, HostError>
    ensures { FindsImage image.now result }
{
    let Some(whole) = image.as_array::<IMAGE_BYTES>() else {
        return Err(HostError::WrongLength);
    };
    if !accepts(whole) {
        return Err(HostError::NotAccepted);
    }
    Ok(whole)
}

// The scheduler that an accepted image stands for. The records' array is given back on the stack before the call begins.
#[inline(never)]
pub(crate) fn state_at(image: &Image) -> QoSScheduler
    requires { AcceptedImage image.now }
    ensures { abs result ≡ state_at image.now }
{
    let tasks = from_fn(|slot| record_in(record_at(image, slot)));
    QoSScheduler {
        tasks,
        queues: queues_at(image),
        current: *holders_at(image),
        system_ticks_us: number(image, MICROS_AT, 8),
    }
}

// Every band's queue.
fn queues_at(image: &Image) -> [BandQueue; BAND_COUNT]
    ensures { queues_of result ≡ (state_at image.now).queues }
{
    QoSClass::ALL.map(|band| queue_in(image, band))
}

// A band's queue: as many of its 64 places as its length byte says.
fn queue_in(image: &Image, band: QoSClass) -> BandQueue
    ensures { entries result ≡ queue (state_at image.now) band }
{
    let (len, places) = queue_at(image, band);
    BandQueue::from_places(*places, len)
}
