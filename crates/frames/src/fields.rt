// A record's 47 bytes: what its fields say, and what acceptance asks of a record alone. A byte that is no code reads as the
// empty record's.
ghost use Rattle.std.specs.Prelude.{◌≡◌, ◌&&◌, ◌||◌, eqb};
ghost use Rattle.records.specs.Band.{slice};
ghost use Rattle.records.specs.ThreadState.{is_state};
ghost use Rattle.rules.specs.Accepted.{record_fits, may_hold};
ghost use Rattle.frames.specs.Image.{record_in};
ghost use Rattle.frames.specs.AcceptedImage.{codes_fit};

use crate::bytes::number;
use crate::layout::{
    BAND_AT, BUDGET_AT, CONSUMED_AT, CONTEXT_AT, CR3_AT, IN_USE_AT, MASK_AT, RSP0_AT, STATE_AT,
};
use records::{QoSClass, TaskControlBlock, ThreadState, Tid, band_slice_us};

// The record that 47 bytes stand for.
pub(crate) fn record_in(bytes: &[u8]) -> TaskControlBlock
    ensures { result ≡ record_in bytes.now }
{
    TaskControlBlock {
        tid: Tid(number(bytes, 0, 4) as u32),
        qos: band_in(bytes),
        state: state_in(bytes),
        context_handle: number(bytes, CONTEXT_AT, 8),
        cr3: number(bytes, CR3_AT, 8),
        rsp0: number(bytes, RSP0_AT, 8),
        cpu_affinity: number(bytes, MASK_AT, 8),
        slice_budget_us: number(bytes, BUDGET_AT, 4) as u32,
        consumed_slice_us: number(bytes, CONSUMED_AT, 4) as u32,
        in_use: is_in_use(bytes),
    }
}

// What is asked of a record alone: its codes, in use exactly where it is not Terminated, a mask that is not 0, a budget
// of 0 or the slice, and less consumed than the slice.
pub(crate) fn record_fits(bytes: &[u8]) -> bool
    ensures { result ≡ (codes_fit bytes.now && record_fits (record_in bytes.now)) }
{
    let slice = slice_in(bytes);
    codes_fit(bytes)
        && is_in_use(bytes) != is_in(bytes, ThreadState::Terminated)
        && number(bytes, MASK_AT, 8) != 0
        && budget_fits(number(bytes, BUDGET_AT, 4), slice)
        && number(bytes, CONSUMED_AT, 4) < slice
}

// Whether band, state and in use are codes: 0 to 2, 0 to 3, and 0 or 1.
fn codes_fit(bytes: &[u8]) -> bool
    ensures { result ≡ codes_fit bytes.now }
{
    QoSClass::try_from(number(bytes, BAND_AT, 1) as u8).is_ok()
        && ThreadState::try_from(number(bytes, STATE_AT, 1) as u8).is_ok()
        && number(bytes, IN_USE_AT, 1) < 2
}

// Any byte but 1 reads as not in use.
fn is_in_use(bytes: &[u8]) -> bool
    ensures { result ≡ (record_in bytes.now).in_use }
{
    number(bytes, IN_USE_AT, 1) == 1
}

// Whether a record's state byte is this state's code; one that is no code is Terminated's.
pub(crate) fn is_in(bytes: &[u8], state: ThreadState) -> bool
    ensures { result ≡ is_state (record_in bytes.now).state state }
{
    state_in(bytes) == state
}

// A byte that is no code reads as Terminated. `band_in` is alike: one function over both would take the type, the place and what
// stands for no code.
fn state_in(bytes: &[u8]) -> ThreadState
    ensures { result ≡ (record_in bytes.now).state }
{
    ThreadState::try_from(number(bytes, STATE_AT, 1) as u8).unwrap_or(ThreadState::Terminated)
}

// A byte that is no code reads as Background.
pub(crate) fn band_in(bytes: &[u8]) -> QoSClass
    ensures { result ≡ (record_in bytes.now).qos }
{
    QoSClass::try_from(number(bytes, BAND_AT, 1) as u8).unwrap_or(QoSClass::Background)
}

// The slice of a record's band.
fn slice_in(bytes: &[u8]) -> u64
    ensures { result ≡ slice (record_in bytes.now).qos }
{
    u64::from(band_slice_us(band_in(bytes)))
}

// Whether a budget is 0 or the slice.
fn budget_fits(budget: u64, slice: u64) -> bool
    ensures { result ≡ (eqb budget 0 || eqb budget slice) }
{
    budget == 0 || budget == slice
}

// Whether a record is in use and its budget is its slice.
pub(crate) fn may_hold(bytes: &[u8]) -> bool
    ensures { result ≡ may_hold (record_in bytes.now) }
{
    is_in_use(bytes) && number(bytes, BUDGET_AT, 4) == slice_in(bytes)
}
