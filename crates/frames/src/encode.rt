// Answers: document 01's bytes of an answer, in a lent buffer. Done, a refusal and none are numbers there.
ghost use Rattle.std.specs.Prelude.{◌≡◌, [], ◌∷◌, ◌+◌, ◌^◌, ◌<◌, Some};
ghost use Rattle.std.proofs.lemmas.List.Edits.{sets};
ghost use Rattle.frames.specs.Answer.{answer_bytes, record_bytes};
ghost use Rattle.frames.specs.Private.{value_bytes};
ghost use Rattle.frames.specs.Bytes.{Puts, written};
ghost use Rattle.rules.specs.Paper.{status_number, pick_numbers, slot_number, core_number};

use crate::bytes::{put_bytes, put_number};
use crate::layout::{
    BAND_AT, BUDGET_AT, CONSUMED_AT, CONTEXT_AT, CR3_AT, IN_USE_AT, MASK_AT, RECORD_BYTES, RSP0_AT,
    STATE_AT,
};
use records::{SchedError, Slot, TaskControlBlock};
use scheduler::{Answer, ContextSwitchPlan, ContextSwitchTarget, Pick, Value};

// Where the value stands in an answer: behind the status, the pick's slot and the pick's band.
pub(crate) const VALUE_AT: usize = 3;

// 01 and a record.
const TASK_BYTES: usize = 1 + RECORD_BYTES;

// 01, previous, target and cr3.
const SWITCH_BYTES: usize = 11;

// The longest answer: status, pick, 01 and a record.
pub const ANSWER_MAX: usize = VALUE_AT + TASK_BYTES;

// What stands for no slot, no band and no core in an answer: document 01's ff.
const NONE: u64 = 255;

// The answer's bytes at the front of a buffer, and how many they are; bytes behind them stay. A byte that has no place in
// the buffer is not stored; ANSWER_MAX bytes have room for every answer.
pub fn write_answer(answer: Answer, out: &mut [u8]) -> usize
    ensures { Puts (answer_bytes answer) 0 out.old out.new result }
{
    put_number(out, 0, 1, status_number(answer.status));
    put_pick(answer.pick, out);
    VALUE_AT + put_value(answer.value, out)
}

// 0, or the refusal.
fn status_number(status: Result<(), SchedError>) -> u64
    ensures { result ≡ status_number status }
{
    match status {
        Ok(()) => 0,
        Err(error) => u64::from(error.code()),
    }
}

// The slot and the band that it was picked from, or ff ff.
fn put_pick(pick: Option<Pick>, out: &mut [u8])
    ensures { out.new ≡ sets out.old 1 (written (1 ∷ 1 ∷ []) (pick_numbers pick)) }
{
    match pick {
        None => {
            put_number(out, 1, 1, NONE);
            put_number(out, 2, 1, NONE);
        }
        Some(Pick { slot, band }) => {
            put_number(out, 1, 1, slot.0 as u64);
            put_number(out, 2, 1, u64::from(band.code()));
        }
    }
}

// The value behind status and pick, and how many bytes it has.
fn put_value(value: Value, out: &mut [u8]) -> usize
    ensures { Puts (value_bytes value) 3 out.old out.new result }
{
    match value {
        Value::Nothing => 0,
        Value::Slot(slot) => put_byte(slot_number(slot), out),
        Value::Core(core) => put_byte(number_or_none(core), out),
        Value::Plan(plan) => put_plan(plan, out),
        Value::Flag(flag) => put_byte(u64::from(flag), out),
        Value::Task(task) => put_task(task, out),
        Value::Micros(us) => {
            put_number(out, VALUE_AT, 8, us);
            8
        }
    }
}

// A value of one byte.
fn put_byte(number: u64, out: &mut [u8]) -> usize
    ensures { Puts (written (1 ∷ []) (number ∷ [])) 3 out.old out.new result }
{
    put_number(out, VALUE_AT, 1, number);
    1
}

// 00, or 01, previous, target and the target's cr3.
fn put_plan(plan: Option<ContextSwitchPlan>, out: &mut [u8]) -> usize
    ensures { Puts (value_bytes (Value.Plan plan)) 3 out.old out.new result }
{
    match plan {
        None => put_byte(0, out),
        Some(switch) => put_switch(switch, out),
    }
}

fn put_switch(switch: ContextSwitchPlan, out: &mut [u8]) -> usize
    ensures { Puts (value_bytes (Value.Plan (Some switch))) 3 out.old out.new result }
{
    put_number(out, VALUE_AT, 1, 1);
    put_number(out, VALUE_AT + 1, 1, slot_number(switch.prev_task_idx));
    match switch.target {
        ContextSwitchTarget::Task { task_idx, cr3 } => {
            put_number(out, VALUE_AT + 2, 1, task_idx.0 as u64);
            put_number(out, VALUE_AT + 3, 8, cr3);
        }
        ContextSwitchTarget::Idle => {
            put_number(out, VALUE_AT + 2, 1, NONE);
            put_number(out, VALUE_AT + 3, 8, 0);
        }
    }
    SWITCH_BYTES
}

// 00, or 01 and the record. `put_plan` is alike; one function over both would take what puts the value as a closure with a clause.
fn put_task(task: Option<TaskControlBlock>, out: &mut [u8]) -> usize
    ensures { Puts (value_bytes (Value.Task task)) 3 out.old out.new result }
{
    match task {
        None => put_byte(0, out),
        Some(record) => {
            put_number(out, VALUE_AT, 1, 1);
            put_bytes(&record_bytes(&record), out, VALUE_AT + 1);
            TASK_BYTES
        }
    }
}

// A record's 47 bytes.
pub(crate) fn record_bytes(task: &TaskControlBlock) -> [u8; RECORD_BYTES]
    ensures { result ≡ record_bytes task.now }
{
    let mut bytes = [0; RECORD_BYTES];
    put_number(&mut bytes, 0, 4, u64::from(task.tid.0));
    put_number(&mut bytes, BAND_AT, 1, u64::from(task.qos.code()));
    put_number(&mut bytes, STATE_AT, 1, u64::from(task.state.code()));
    put_number(&mut bytes, CONTEXT_AT, 8, task.context_handle);
    put_number(&mut bytes, CR3_AT, 8, task.cr3);
    put_number(&mut bytes, RSP0_AT, 8, task.rsp0);
    put_number(&mut bytes, MASK_AT, 8, task.cpu_affinity);
    put_number(&mut bytes, BUDGET_AT, 4, u64::from(task.slice_budget_us));
    put_number(
        &mut bytes,
        CONSUMED_AT,
        4,
        u64::from(task.consumed_slice_us),
    );
    put_number(&mut bytes, IN_USE_AT, 1, u64::from(task.in_use));
    bytes
}

// The slot's number; 255 for none.
fn slot_number(slot: Option<Slot>) -> u64
    ensures { result ≡ slot_number slot }
{
    number_or_none(slot.map(|slot| slot.0))
}

// The number; 255 for none.
fn number_or_none(number: Option<usize>) -> u64
    ensures { result ≡ core_number number }
{
    number.map_or(NONE, |number| number as u64)
}
