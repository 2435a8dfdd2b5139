// The entry for a frame on an image.
ghost use Rattle.std.specs.Prelude.{◌≡◌};
ghost use Rattle.frames.specs.Host.{hosted, host_step};

use frames::returned;

// A frame done on an image, and its answer in a buffer: frames' `frame_on_image`. The answer's length, or 256 and the refusal.
#[unsafe(no_mangle)]
pub extern "C" fn step(image: &mut [u8], frame: &[u8], answer: &mut [u8]) -> u64
    ensures { hosted result image.new answer.new ≡ host_step image.old frame.now answer.old }
{
    returned(frames::frame_on_image(image, frame, answer))
}
