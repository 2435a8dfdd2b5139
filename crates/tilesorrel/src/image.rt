// The entry for a first image.
ghost use Rattle.std.specs.Prelude.{◌≡◌};
ghost use Rattle.frames.specs.Host.{first_image, host_new};

use frames::returned;

// The image of a new scheduler: frames' `write_new_image`. 0, or 256 and the refusal.
#[unsafe(no_mangle)]
pub extern "C" fn new_image(image: &mut [u8]) -> u64
    ensures { first_image result image.new ≡ host_new image.old }
{
    returned(frames::write_new_image(image).map(|()| 0))
}
