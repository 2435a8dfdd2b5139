// For a host kernel: a first image, a frame on an image with its answer in a buffer, and any call on an image. The entries that
// C links are the crate tilesorrel's, and hand on to the first two.
ghost use Rattle.std.specs.Prelude.{◌≡◌, ◌≤◌, IfOk};
ghost use Rattle.frames.specs.AcceptedImage.{AcceptedImage};
ghost use Rattle.frames.specs.Host.{returned, answer_room, on_image, call_on_image, first_image, made, host_new, hosted, host_step};
ghost use Rattle.frames.specs.Private.{CalledOn};

use crate::decode::read_frame;
use crate::encode::{ANSWER_MAX, write_answer};
use crate::image::{update_image, write_image};
use crate::layout::IMAGE_BYTES;
use crate::read::{check_image, state_at};
use crate::refusal::HostError;
use crate::touched::{answered_slot, named_slot};
use scheduler::{Answer, Call, QoSScheduler};

// What is added to a refusal's number: C takes one number and no Result, and tells it from an answer's length by this.
const REFUSED: u64 = 256;

// The image of a new scheduler, for a host that begins. Refused with 7 where there is no room for it, or too much. Any bytes will
// do. All IMAGE_BYTES of them are written; bytes of any other number are left as they were.
pub fn write_new_image(image: &mut [u8]) -> Result<(), HostError>
    ensures { first_image (made result) image.new ≡ host_new image.old }
{
    write_image(QoSScheduler::new(), image)
}

// A frame done on an image, and its answer at the front of a buffer: how many bytes it has. Any image, frame and buffer will do.
// 7: the image does not have IMAGE_BYTES bytes, or the buffer has under ANSWER_MAX. 8: the image is not accepted. 9: the bytes
// are no frame. After these, image and buffer are as they were. Else the image holds the state after the call, as it was where
// the answer is a refusal; bytes of the buffer behind the answer stay.
pub fn frame_on_image(image: &mut [u8], frame: &[u8], answer: &mut [u8]) -> Result<usize, HostError>
    ensures host { hosted (returned result) image.new answer.new ≡ host_step image.old frame.now answer.old }
    ensures length { IfOk result (λ n. n ≤ answer_room) }
{
    if answer.len() < ANSWER_MAX {
        return Err(HostError::WrongLength);
    }
    let Some(call) = read_frame(frame) else {
        check_image(image)?;
        return Err(HostError::NoFrame);
    };
    Ok(write_answer(call_on_image(image, call)?, answer))
}

// What a host gets: an answer's length, or 256 and the refusal's number.
pub fn returned(answered: Result<usize, HostError>) -> u64
    ensures { result ≡ returned answered }
{
    match answered {
        Ok(length) => length as u64,
        Err(error) => REFUSED + error.code(),
    }
}

// A call on any bytes. A refused image is left as it was; an accepted one holds the state after the call, and is not
// touched where the call is refused.
pub fn call_on_image(image: &mut [u8], call: Call) -> Result<Answer, HostError>
    ensures { on_image result image.new ≡ call_on_image call image.old }
{
    check_image(image)?; // a refused image is left alone
    Ok(call_on_accepted(image, call))
}

// A call on an accepted image. Of the records only those that the call can have changed are written.
fn call_on_accepted(image: &mut [u8], call: Call) -> Answer
    requires { AcceptedImage image.old }
    ensures { CalledOn call image.old image.new result }
{
    let before = image.as_array::<IMAGE_BYTES>().unwrap();
    let named = named_slot(call, before);
    let reply = state_at(before).apply(call);
    let answer = reply.answer;
    if answer.status.is_ok() {
        update_image(&reply.state, named, answered_slot(answer), image);
    }
    answer
}
