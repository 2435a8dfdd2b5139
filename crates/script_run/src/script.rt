// What a script works on, and what is done with it.
use crate::operation::Order;
use crate::said::Said;
use frames::{
    ANSWER_MAX, HostError, RefusedImage, accepts_image, call_on_image, check_image, frame_on_image,
    read_frame, read_image, returned, write_answer, write_image, write_new_image,
};
use scheduler::QoSScheduler;
use text::{behind, front, is_same};

// An image's length and one byte behind it. This is document 01's own number and not the constant of `frames`, so that a script
// checks that.
const SPACE: usize = 3276;

// What a byte is before anything is written over it.
const MARK: u8 = 170;

// An answer buffer that is longer than it has to be, by as much as scripts look at.
const ROOM: usize = 60;

#[derive(Clone, Copy)]
pub(crate) struct Script {
    state: QoSScheduler,
    space: [u8; SPACE],
    kept: [u8; SPACE],
    // How many bytes of the space, from its front, are the image.
    length: usize,
    buffer: [u8; ROOM],
}

// Why an order came to no answer.
#[derive(Clone, Copy)]
enum Refusal {
    // The host's entry refused it.
    Host(HostError),
    // A frame has no call, an image is not written, or there are fewer bytes than are to be lent.
    NotDone,
}

impl Refusal {
    // The number that is told of it: 256 more than document 01's, as a host gets it, or 256 alone.
    fn number(self) -> u64 {
        match self {
            Refusal::Host(error) => returned(Err(error)),
            Refusal::NotDone => 256,
        }
    }
}

// So that `?` hands on what a host is told.
impl From<HostError> for Refusal {
    fn from(error: HostError) -> Refusal {
        Refusal::Host(error)
    }
}

impl Script {
    pub(crate) fn new() -> Script {
        Script {
            state: QoSScheduler::new(),
            space: [MARK; SPACE],
            kept: [MARK; SPACE],
            length: SPACE - 1,
            buffer: [MARK; ROOM],
        }
    }

    // Does an order, and gives what it says.
    pub(crate) fn order(&mut self, order: &Order) -> Said<'_> {
        match order {
            Order::Call(frame) => return self.told(|script| script.call(frame.as_slice())),
            Order::Apply(frame) => return self.told(|script| script.apply(frame.as_slice())),
            Order::Step(n, frame) => return self.told(|script| script.step(*n, frame.as_slice())),
            Order::New => return self.told(|script| script.new_image()),
            Order::Write => return self.told(|script| script.write()),
            Order::Read => return self.read(),
            Order::Accept(at, bytes) => {
                self.back(*at, bytes.as_slice());
                return self.read();
            }
            Order::Same => return Said::Same(self.space == self.kept),
            Order::Buffer => return Said::Bytes(front(&self.buffer, ANSWER_MAX)),
            Order::Part(at, n) => return Said::Bytes(front(behind(&self.space, *at), *n)),
            Order::Fresh => self.fresh(),
            Order::Length(n) => self.length = *n,
            Order::Fill => self.space = [MARK; SPACE],
            Order::Keep => self.kept = self.space,
            Order::Back(at, bytes) => self.back(*at, bytes.as_slice()),
        }
        Said::Nothing
    }

    // Does something, which gives the length of the answer that it leaves in the buffer, 0 where there is none; and says what
    // became of the bytes.
    fn told<F: FnOnce(&mut Script) -> Result<usize, Refusal>>(&mut self, done: F) -> Said<'_>
        requires { F.IsAlwaysCallable done }
    {
        let before = *self;
        let returned = done(self);
        let n = returned.unwrap_or(0);
        Said::Told {
            rest_kept: is_same(behind(&before.buffer, n), behind(&self.buffer, n)),
            image_kept: before.space == self.space,
            returned: match returned {
                Ok(n) => n as u64,
                Err(refusal) => refusal.number(),
            },
            answer: front(&self.buffer, n),
        }
    }

    fn call(&mut self, frame: &[u8]) -> Result<usize, Refusal> {
        let call = read_frame(frame).ok_or(Refusal::NotDone)?;
        let answer = call_on_image(self.image()?, call)?;
        Ok(write_answer(answer, &mut self.buffer))
    }

    fn apply(&mut self, frame: &[u8]) -> Result<usize, Refusal> {
        // without an image no call is made, on the scheduler either
        let _image = self.image()?;
        let call = read_frame(frame).ok_or(Refusal::NotDone)?;
        let reply = self.state.apply(call);
        self.state = reply.state;
        Ok(write_answer(reply.answer, &mut self.buffer))
    }

    fn step(&mut self, room: usize, frame: &[u8]) -> Result<usize, Refusal> {
        let image = self.space.get_mut(..self.length);
        let room = self.buffer.get_mut(..room);
        Ok(frame_on_image(
            image.ok_or(Refusal::NotDone)?,
            frame,
            room.ok_or(Refusal::NotDone)?,
        )?)
    }

    fn new_image(&mut self) -> Result<usize, Refusal> {
        write_new_image(self.image()?)?;
        Ok(0)
    }

    fn write(&mut self) -> Result<usize, Refusal> {
        let state = self.state;
        write_image(state, self.image()?).map_err(|_| Refusal::NotDone)?;
        Ok(0)
    }

    // The bytes that are lent as the image.
    fn image(&mut self) -> Result<&mut [u8], Refusal> {
        let n = self.length;
        self.space.get_mut(..n).ok_or(Refusal::NotDone)
    }

    // Where the image would be longer than the space, the scheduler stays.
    fn read(&mut self) -> Said<'_> {
        let (state, reader) = match self.space.get(..self.length).map(|image| read_image(image)) {
            None => (self.state, Refusal::NotDone.number()),
            Some(Ok(state)) => (state, 0),
            Some(Err(RefusedImage { error, state })) => (state, error.code()),
        };
        self.state = state;
        let image = front(&self.space, self.length);
        Said::Judged {
            accepted: accepts_image(image),
            check: check_image(image).err().map_or(0, HostError::code),
            reader,
        }
    }

    // A new scheduler, but not where the image would be longer than the space.
    fn fresh(&mut self) {
        if self.image().is_ok() {
            self.state = QoSScheduler::new();
        }
    }

    // The space is what was kept, with these bytes at a place, as far as the space goes.
    fn back(&mut self, at: usize, bytes: &[u8]) {
        self.space = self.kept;
        for (place, byte) in self.space.iter_mut().skip(at).zip(bytes) {
            *place = *byte;
        }
    }
}
