// What a task is doing, with the codes of the record's byte.
ghost use Rattle.std.specs.Prelude.{◌≡◌, ok_or};
ghost use Rattle.records.specs.Code.{unknown_code};
ghost use Rattle.records.specs.ThreadState.{state_code, coded_state};

use crate::code::UnknownCode;

#[derive(Clone, Copy, PartialEq, Eq)]
pub enum ThreadState {
    // Waits in its band's queue.
    Ready,
    // Was picked, or woken while a core held it.
    Running,
    // Waits for a wake or an enqueue.
    Blocked,
    // Its slot is free.
    Terminated,
}

impl ThreadState {
    // The state's code, 0 to 3: document 01's byte in a record.
    pub fn code(self) -> u8
        ensures { result ≡ state_code self }
    {
        self as u8
    }
}

// The state that has this code; no state has 4 and above.
impl TryFrom<u8> for ThreadState {
    type Error = UnknownCode;

    ghost try_from_gives = { λ code r. r ≡ ok_or (coded_state code) unknown_code };

    fn try_from(code: u8) -> Result<Self, UnknownCode> {
        match code {
            0 => Ok(ThreadState::Ready),
            1 => Ok(ThreadState::Running),
            2 => Ok(ThreadState::Blocked),
            3 => Ok(ThreadState::Terminated),
            _ => Err(UnknownCode),
        }
    }
}
