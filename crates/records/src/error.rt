// The scheduler's own refusals, 1 to 6.
ghost use Rattle.std.specs.Prelude.{◌≡◌};
ghost use Rattle.records.specs.Error.{error_code};

#[derive(Clone, Copy, PartialEq, Eq)]
pub enum SchedError {
    // No slot is free.
    TableFull = 1,
    // 64 entries stand in the queue.
    QueueFull,
    // No such slot, or it is not in use; of a core: no such core, or no holder that the call can take.
    NoSuchTask,
    // The task waits in a queue already.
    AlreadyReady,
    // The task is blocked already.
    AlreadyBlocked,
    // The task is not blocked, so it can't be woken.
    NotBlocked,
}

impl SchedError {
    // The refusal's number in document 01's answers. Bands and states have such a line each; a trait would be no shorter.
    pub fn code(self) -> u8
        ensures { result ≡ error_code self }
    {
        self as u8
    }
}
