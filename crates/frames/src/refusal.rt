// What is refused before a call is made: numbers 7 to 9 of document 01's table.
ghost use Rattle.std.specs.Prelude.{◌≡◌};
ghost use Rattle.frames.specs.Host.{host_number};

// Why no call was made. There is no Display: a host gets the number, and nothing here prints.
#[derive(Clone, Copy, PartialEq, Eq)]
pub enum HostError {
    // 7: the image does not have IMAGE_BYTES bytes, or the answer buffer has under ANSWER_MAX.
    WrongLength = 7,
    // 8: the image is not accepted.
    NotAccepted,
    // 9: the frame's bytes are no frame.
    NoFrame,
}

impl HostError {
    // The refusal's number, as wide as what the entries for C return.
    pub fn code(self) -> u64
        ensures { result ≡ host_number self }
    {
        u64::from(self as u8)
    }
}
