// Acceptance: whether bytes are an image that document 01 accepts, in time linear in their number.
ghost use Rattle.std.specs.Prelude.{◌≡◌, ◌&&◌, ◌≤◌, ◌<◌, length};
ghost use Rattle.records.specs.Lists.{every, every_below};
ghost use Rattle.rules.specs.Accepted.{ready_of, once_if_ready, stands_once, holder_fits};
ghost use Rattle.rules.specs.State.{band_order, task, queue};
ghost use Rattle.frames.specs.Image.{queue_at, length_byte, record_in, state_at};
ghost use Rattle.frames.specs.AcceptedImage.{accepts_image, slot_fits, band_fits, core_fits};
ghost use Rattle.frames.specs.Private.{all_zero, LengthsFit, AtMost, Counted};

use crate::fields::{band_in, is_in, may_hold, record_fits};
use crate::layout::{IMAGE_BYTES, Image};
use crate::parts::{holders_at, queue_at, record_at};
use records::{MAX_TASKS, QoSClass, ThreadState};
use scheduler::NO_HOLDER;

// Whether the bytes are an image that is accepted: of any bytes, of any number. `accepts_image` is shown to say what document
// 01's conditions say (`accepts-image`, proofs/AcceptedImages.antt).
pub fn accepts_image(image: &[u8]) -> bool
    ensures { result ≡ accepts_image image.now }
{
    image.as_array::<IMAGE_BYTES>().is_some_and(accepts)
}

// The same of an image's length of bytes.
pub(crate) fn accepts(image: &Image) -> bool
    ensures { result ≡ accepts_image image.now }
{
    bands_fit(image) && slots_fit(image) && cores_fit(image)
}

// ---- the queues

// Whether every band's queue fits.
fn bands_fit(image: &Image) -> bool
    ensures { result ≡ every (band_fits image.now) band_order }
{
    QoSClass::ALL.iter().all(|band| band_fits(image, *band))
}

// Whether a queue has at most 64 entries, each is a Ready slot of the band, and the places behind them are unused and 0.
fn band_fits(image: &Image, band: QoSClass) -> bool
    ensures { result ≡ band_fits image.now band }
{
    let (len, places) = queue_at(image, band);
    if len > MAX_TASKS {
        return false;
    }
    let (entries, unused) = places.split_at(len);
    entries
        .iter()
        .all(|slot| is_waiting(image, band, usize::from(*slot)))
        && all_zero(unused)
}

// Whether a number is a Ready slot of the band.
fn is_waiting(image: &Image, band: QoSClass, slot: usize) -> bool
    ensures { result ≡ ready_of band (task (state_at image.now) slot) }
{
    if slot >= MAX_TASKS {
        return false;
    }
    let record = record_at(image, slot);
    is_in(record, ThreadState::Ready) && band_in(record) == band
}

// Whether every byte is 0: by their sum, with no way out before the end, so that many bytes are added at a time.
fn all_zero(bytes: &[u8]) -> bool
    requires { length bytes.now ≤ 64 }
    ensures { result ≡ all_zero bytes.now }
{
    let sum: u64 = bytes.iter().map(|byte| u64::from(*byte)).sum();
    sum == 0
}

// ---- the slots

// Whether every slot's record fits, and every Ready slot stands in the queues once. Each slot's entries are counted first, in one
// pass over the queues; then both are asked of each slot in turn, so that the records are gone over once and not twice. The three
// passes are written out: each may count only because of what those before it counted, and a loop would have to say that of all.
fn slots_fit(image: &Image) -> bool
    requires { LengthsFit image.now }
    ensures { result ≡ (every_below 64 (slot_fits image.now) && every_below 64 (stands_once (state_at image.now))) }
{
    let none = [0u8; MAX_TASKS];
    let first = counted(image, QoSClass::UserInteractive, none);
    let second = counted(image, QoSClass::RealTimeIO, first);
    let counts = counted(image, QoSClass::Background, second);
    for slot in 0..MAX_TASKS {
        let record = record_at(image, slot);
        if !record_fits(record) || !stands_once(record, counts[slot]) {
            return false;
        }
    }
    true
}

// The counts, and one more for each entry of the band's queue. At most two queues of 64 entries were counted before.
fn counted(image: &Image, band: QoSClass, mut counts: [u8; MAX_TASKS]) -> [u8; MAX_TASKS]
    requires image_bound { length_byte (queue_at band image.now) ≤ 64 }
    requires at_most { AtMost 128 counts }
    ensures { Counted (queue (state_at image.now) band) counts result }
{
    let (len, places) = queue_at(image, band);
    for slot in &places[..len] {
        let slot = usize::from(*slot);
        if slot < MAX_TASKS {
            counts[slot] += 1;
        }
    }
    counts
}

// Whether a record that stands in the queues so often is not Ready or stands there once.
fn stands_once(bytes: &[u8], count: u8) -> bool
    ensures { result ≡ once_if_ready (record_in bytes.now) count }
{
    !is_in(bytes, ThreadState::Ready) || count == 1
}

// ---- the holders

// Whether every core's holder fits.
fn cores_fit(image: &Image) -> bool
    ensures { result ≡ every_below 64 (core_fits image.now) }
{
    holders_at(image)
        .iter()
        .all(|holder| holder_fits(image, *holder))
}

// Whether a holder is none, or a slot in use whose budget is its slice.
fn holder_fits(image: &Image, holder: u8) -> bool
    ensures { result ≡ holder_fits (state_at image.now) holder }
{
    if holder == NO_HOLDER {
        return true;
    }
    let slot = usize::from(holder);
    slot < MAX_TASKS && may_hold(record_at(image, slot))
}
