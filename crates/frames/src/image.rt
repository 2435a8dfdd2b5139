// The image: a scheduler's state, written into a lent buffer.
ghost use Rattle.std.specs.Prelude.{◌≡◌, ◌+◌, ◌^◌, ◌<◌};
ghost use Rattle.std.proofs.lemmas.List.Edits.{sets};
ghost use Rattle.queue.specs.Stored.{entries};
ghost use Rattle.scheduler.specs.Scheduler.{abs};
ghost use Rattle.scheduler.specs.Stored.{queues_of};
ghost use Rattle.rules.specs.Paper.{slot_number};
ghost use Rattle.rules.specs.Touched.{SameBut};
ghost use Rattle.frames.specs.AcceptedImage.{AcceptedImage};
ghost use Rattle.frames.specs.Image.{queue_length, queues_place, records_bytes, queue_bytes, queues_bytes, image_of, state_at};
ghost use Rattle.frames.specs.Private.{put_slot, with_rest};
ghost use Rattle.frames.specs.ReadWrite.{WritesImage};

use crate::bytes::{put_bytes, put_number};
use crate::encode::record_bytes;
use crate::layout::{HOLDERS_AT, IMAGE_BYTES, MICROS_AT, QUEUE_BYTES, QUEUES_AT, RECORD_BYTES};
use crate::refusal::HostError;
use queue::BandQueue;
use records::{BAND_COUNT, MAX_TASKS, Slot, TaskControlBlock};
use scheduler::QoSScheduler;

// The state's image in the buffer, every byte of it. A buffer that does not have IMAGE_BYTES bytes is refused with 7 and left as
// it was. What is written is an image that is accepted, and reads as the same state.
pub fn write_image(state: QoSScheduler, image: &mut [u8]) -> Result<(), HostError>
    ensures { WritesImage (abs state) image.old image.new result }
{
    if image.len() != IMAGE_BYTES {
        return Err(HostError::WrongLength);
    }
    put_records(&state.tasks, image);
    put_rest(&state, image);
    Ok(())
}

// The state's image, over that of a state whose records are the same but for those of two slots: the records that may
// differ are written, and all that is not a record.
pub(crate) fn update_image(
    state: &QoSScheduler,
    named: Option<Slot>,
    answered: Option<Slot>,
    image: &mut [u8],
)
    requires accepted_image { AcceptedImage image.old }
    requires same_but { SameBut (slot_number named) (slot_number answered) (state_at image.old) (abs state.now) }
    ensures { image.new ≡ image_of (abs state.now) }
{
    put_slot(&state.tasks, named, image);
    put_slot(&state.tasks, answered, image);
    put_rest(state, image);
}

// All that is not a record: queues, holders and system microseconds.
fn put_rest(state: &QoSScheduler, image: &mut [u8])
    ensures { image.new ≡ with_rest (abs state.now) image.old }
{
    // a copy, which the compiler knows apart from the image, so that the archive asks for no memmove
    let holders = state.current;
    put_queues(&state.queues, image);
    put_bytes(&holders, image, HOLDERS_AT);
    put_number(image, MICROS_AT, 8, state.system_ticks_us);
}

// A slot's record, if it is a slot of the table.
fn put_slot(tasks: &[TaskControlBlock; MAX_TASKS], slot: Option<Slot>, image: &mut [u8])
    ensures { image.new ≡ put_slot tasks.now (slot_number slot) image.old }
{
    if let Some(Slot(slot)) = slot
        && slot < MAX_TASKS
    {
        put_bytes(&record_bytes(&tasks[slot]), image, RECORD_BYTES * slot);
    }
}

// The records, one behind the other, at the front of the buffer.
fn put_records(tasks: &[TaskControlBlock; MAX_TASKS], out: &mut [u8])
    ensures { out.new ≡ sets out.old 0 (records_bytes tasks.now) }
{
    for (slot, task) in tasks.iter().enumerate() {
        put_bytes(&record_bytes(task), out, RECORD_BYTES * slot);
    }
}

// The three queues, one behind the other. Written out: a state has its queues as three parts and not as a list, so a loop would have
// to say which of them it has put.
fn put_queues(queues: &[BandQueue; BAND_COUNT], out: &mut [u8])
    ensures { out.new ≡ sets out.old queues_place (queues_bytes (queues_of queues.now)) }
{
    put_queue(&queues[0], out, QUEUES_AT);
    put_queue(&queues[1], out, QUEUES_AT + QUEUE_BYTES);
    put_queue(&queues[2], out, QUEUES_AT + 2 * QUEUE_BYTES);
}

// A queue's length and its 64 places, from `at` on.
fn put_queue(queue: &BandQueue, out: &mut [u8], at: usize)
    requires { at + queue_length < 2 ^ 64 }
    ensures { out.new ≡ sets out.old at (queue_bytes (entries queue.now)) }
{
    put_number(out, at, 1, queue.len() as u64);
    put_bytes(&queue.places(), out, at + 1);
}
