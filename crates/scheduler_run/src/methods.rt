// Each public method of the scheduler that has a name in the Rust, and the query for a slot's core: what it comes to on the busy
// scheduler, beside what `apply` makes of the same call.
use crate::begun::busy;
use crate::outcome::same_reply;
use crate::show::{Written, not_unless, print_line};
use records::{QoSClass, Slot, Tid};
use scheduler::{Answer, Call, QoSScheduler, Reply, Value};

// Between them they go by every method.
#[rattlefmt::skip]
const CALLS: [Call; 22] = [
    Call::Create { tid: Tid(13), qos: QoSClass::RealTimeIO, context_handle: 1, cr3: 0, rsp0: 0 },
    Call::Create { tid: Tid(13), qos: QoSClass::Background, context_handle: 1, cr3: 2, rsp0: 3 },
    Call::Affinity { slot: Slot(3), mask: 0 },
    Call::Terminate(Slot(4)),
    Call::Block(Slot(0)),
    Call::Wake(Slot(2)),
    Call::Enqueue(Slot(2)),
    Call::Schedule(0),
    Call::Schedule(1),
    Call::Tick { core: 0, elapsed_us: 100 },
    Call::Tick { core: 5, elapsed_us: 1 },
    Call::Yield(5),
    Call::Handoff(5),
    Call::Plan { core: 0, elapsed_us: 100 },
    Call::Plan { core: 5, elapsed_us: 1 },
    Call::CanRunOnCore { slot: Slot(3), core: 1 },
    Call::TaskIndexForTid(Tid(10)),
    Call::Task(Slot(0)),
    Call::CurrentTaskOnCpu(0),
    Call::CurrentTaskOnCpu(5),
    Call::SystemTicksUs,
    Call::Holder(Slot(0)),
];

// A line each, with the method's name, its answer as document 01 writes it, and whether answer and state are those of `apply`.
pub(crate) fn methods(rt: &impl Print) {
    let state = busy();
    for call in CALLS {
        let (name, reply) = by_method(state, call);
        let not = not_unless(same_reply(&reply, &state.apply(call)));
        print_line(
            rt,
            format_args!("{name}: {}, {not}as by apply", Written(reply.answer)),
        );
    }
}

// A call by its method, and the method's name. A method without a core is for core 0, and one without an address space for 0.
#[rattlefmt::skip]
fn by_method(state: QoSScheduler, call: Call) -> (&'static str, Reply) {
    match call {
        Call::Create { tid, qos, context_handle, cr3: 0, rsp0: 0 } =>
            ("create_task", state.create_task(tid, qos, context_handle)),
        Call::Create { tid, qos, context_handle, cr3, rsp0 } =>
            ("create_task_with_vspace", state.create_task_with_vspace(tid, qos, context_handle, cr3, rsp0)),
        Call::Affinity { slot, mask } => ("set_task_affinity", state.set_task_affinity(slot, mask)),
        Call::Terminate(slot) => ("terminate_task", state.terminate_task(slot)),
        Call::Block(slot) => ("block_task", state.block_task(slot)),
        Call::Wake(slot) => ("wake_task", state.wake_task(slot)),
        Call::Enqueue(slot) => ("enqueue_ready", state.enqueue_ready(slot)),
        Call::Schedule(0) => ("schedule", state.schedule()),
        Call::Schedule(core) => ("schedule_on_cpu", state.schedule_on_cpu(core)),
        Call::Tick { core: 0, elapsed_us } => ("on_timer_tick", state.on_timer_tick(elapsed_us)),
        Call::Tick { core, elapsed_us } => ("on_timer_tick_on_cpu", state.on_timer_tick_on_cpu(core, elapsed_us)),
        Call::Yield(core) => ("plan_voluntary_yield_on_cpu", state.plan_voluntary_yield_on_cpu(core)),
        Call::Handoff(core) => ("plan_blocked_current_handoff_on_cpu", state.plan_blocked_current_handoff_on_cpu(core)),
        Call::Plan { core: 0, elapsed_us } => ("plan_context_switch", state.plan_context_switch(elapsed_us)),
        Call::Plan { core, elapsed_us } => ("plan_context_switch_on_cpu", state.plan_context_switch_on_cpu(core, elapsed_us)),
        Call::CanRunOnCore { slot, core } => ("can_run_on_core", as_reply(state, Value::Flag(state.can_run_on_core(slot, core)))),
        Call::TaskIndexForTid(tid) => ("task_index_for_tid", as_reply(state, Value::Slot(state.task_index_for_tid(tid)))),
        Call::Task(slot) => ("task", as_reply(state, Value::Task(state.task(slot)))),
        Call::CurrentTaskOnCpu(0) => ("current_task", as_reply(state, Value::Task(state.current_task()))),
        Call::CurrentTaskOnCpu(core) => ("current_task_on_cpu", as_reply(state, Value::Task(state.current_task_on_cpu(core)))),
        Call::SystemTicksUs => ("system_ticks_us", as_reply(state, Value::Micros(state.system_ticks_us()))),
        Call::Holder(slot) => ("holder", as_reply(state, Value::Core(state.holder(slot)))),
    }
}

// A query's value as a reply: done, with no pick and the state as it was.
fn as_reply(state: QoSScheduler, value: Value) -> Reply {
    let answer = Answer {
        status: Ok(()),
        pick: None,
        value,
    };
    Reply { answer, state }
}
