// Schedulers that the tests begin from.
use records::{BAND_COUNT, MAX_TASKS, QoSClass, Slot, Tid};
use scheduler::{Call, QoSScheduler};

// The state after these calls, one after the other.
pub(crate) fn after(mut state: QoSScheduler, calls: &[Call]) -> QoSScheduler {
    for call in calls {
        state = state.apply(*call).state;
    }
    state
}

pub(crate) fn create(tid: u32, qos: QoSClass) -> Call {
    Call::Create {
        tid: Tid(tid),
        qos,
        context_handle: 1,
        cr3: 0x1000,
        rsp0: 0x2000,
    }
}

// Slot 0 runs on core 5 with 1,999 microseconds consumed, slots 3 and 4 wait in band 0 and slot 1 in band 1, slot 2 is
// Blocked, and slot 5 was terminated. Slot 3 may use cores 1 and 2.
pub(crate) fn busy() -> QoSScheduler {
    let slot = Slot(3);
    let core = 5;
    let elapsed_us = 1_999;
    let calls = [
        create(7, QoSClass::UserInteractive),
        create(8, QoSClass::RealTimeIO),
        create(9, QoSClass::Background),
        create(10, QoSClass::UserInteractive),
        create(11, QoSClass::UserInteractive),
        create(12, QoSClass::UserInteractive),
        Call::Enqueue(Slot(0)),
        Call::Schedule(core),
        Call::Tick { core, elapsed_us },
        Call::Affinity { slot, mask: 6 },
        Call::Enqueue(slot),
        Call::Enqueue(Slot(4)),
        Call::Enqueue(Slot(1)),
        Call::Terminate(Slot(5)),
    ];
    after(QoSScheduler::new(), &calls)
}

// Slot 0 in band 0, held by core 0 and Ready, and slot 1 in band 2, waiting.
pub(crate) fn ready_holder() -> QoSScheduler {
    let state = held(QoSClass::UserInteractive, QoSClass::Background);
    after(state, &[Call::Enqueue(Slot(0))])
}

// Slot 0 in the first band, held by core 0, and slot 1 in the second, waiting.
pub(crate) fn held(first: QoSClass, second: QoSClass) -> QoSScheduler {
    let calls = [
        create(7, first),
        Call::Enqueue(Slot(0)),
        Call::Schedule(0),
        create(8, second),
        Call::Enqueue(Slot(1)),
    ];
    after(QoSScheduler::new(), &calls)
}

// 64 tasks, slot i in band i modulo 3, all waiting.
pub(crate) fn crowd() -> QoSScheduler {
    let mut state = QoSScheduler::new();
    for slot in 0..MAX_TASKS {
        let task = create(7, QoSClass::ALL[slot % BAND_COUNT]);
        state = after(state, &[task, Call::Enqueue(Slot(slot))]);
    }
    state
}
