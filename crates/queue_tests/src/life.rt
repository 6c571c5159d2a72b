// Short lives over both memories: their answers and their logs.
use arrangements::{ArrangedStore, Turned};
use blocks::BlockMemory;
use items::{ItemKind, Notice, Reading};
use lives::Parts;
use protocol::{
    Answer, Call, Entry, ReceiverAnswer, ReceiverPhase, Worker, WorkerAnswer, WorkerPhase,
};
use queue::{Log, Receiver};
use stores::{Cell, RecordMemory, Store};

// Each crate of tests says its own values.
const READING: Reading = Reading {
    probe: 41,
    sequence: 7,
    level: -250,
};

const SHIFT: Notice = Notice::ClockShift { seconds: -7 };

// One item is handed over, and the queue is closed.
fn one_item<I: ItemKind>(item: I) -> [Call<I>; 9] {
    [
        Call::Submit(item),
        Call::ReceiverStep,
        Call::ReceiverStep,
        Call::ReceiverStep,
        Call::WorkerStep(0),
        Call::WorkerStep(0),
        Call::WorkerStep(0),
        Call::WorkerStep(0),
        Call::Close,
    ]
}

fn answers_to_one_item<I: ItemKind>(item: I) -> [Answer<I>; 9] {
    [
        Answer::Submitted,
        Answer::Received(ReceiverAnswer::Stepped(ReceiverPhase::Found, 0)),
        Answer::Received(ReceiverAnswer::Stepped(ReceiverPhase::Filled, 0)),
        Answer::Received(ReceiverAnswer::Announced(0)),
        Answer::Worked(WorkerAnswer::Claimed(0)),
        Answer::Worked(WorkerAnswer::Stepped(WorkerPhase::Sure, 0)),
        Answer::Worked(WorkerAnswer::Stepped(WorkerPhase::Copied, 0)),
        Answer::Worked(WorkerAnswer::Delivered(0, item)),
        Answer::Closed(1),
    ]
}

// Makes the calls from rank 0 on, and answers how many deliveries there are.
fn live<I: ItemKind, S: Store<Item = I>>(
    store: &mut S,
    workers: &mut [Worker<I>],
    calls: &[Call<I>],
    answers: &mut [Answer<I>],
    entries: &mut [Entry<I>],
) -> Option<usize> {
    let mut receiver = Receiver::new();
    let mut log = Log::new(entries);
    let mut parts = Parts {
        store,
        receiver: &mut receiver,
        workers,
        log: &mut log,
    };
    let held = parts.replay(0, calls, answers).ok()?;
    let _ = held.close_spare();
    Some(log.count())
}

fn first<I: ItemKind>(item: I) -> Entry<I> {
    Entry {
        rank: 0,
        worker: 0,
        item,
    }
}

#[test]
fn notices_over_turned_block_memory(rt: HostRuntime) {
    let mut bytes = [9u8; 1024];
    let mut store = ArrangedStore::new(BlockMemory::new(&mut bytes, 16), Turned);
    let mut answers = [Answer::NotMade; 9];
    let mut entries = [first(Notice::Nothing); 2];
    let count = live(
        &mut store,
        &mut [Worker::idle()],
        &one_item(SHIFT),
        &mut answers,
        &mut entries,
    );
    assert_eq!(rt; count, Some(1));
    assert_eq!(rt; answers, answers_to_one_item(SHIFT));
    assert_eq!(rt; entries, [first(SHIFT), first(Notice::Nothing)]);
}

const USED: Cell<Reading> = Cell {
    item: READING,
    rank: 3,
    gap: 4,
};

#[test]
fn readings_over_record_memory(rt: HostRuntime) {
    let mut cells = [USED; 3];
    let mut store = RecordMemory::new(&mut cells);
    let mut answers = [Answer::NotMade; 9];
    let mut entries = [first(Reading::blank()); 2];
    let count = live(
        &mut store,
        &mut [Worker::idle()],
        &one_item(READING),
        &mut answers,
        &mut entries,
    );
    assert_eq!(rt; count, Some(1));
    assert_eq!(rt; answers, answers_to_one_item(READING));
    assert_eq!(rt; entries, [first(READING), first(Reading::blank())]);
}

// Two cells hold ranks 0 and 1, and a third item comes: rank 2 is skipped.
#[test]
fn a_used_cell_is_skipped(rt: HostRuntime) {
    let mut cells = [USED; 2];
    let mut store = RecordMemory::new(&mut cells);
    let calls = [
        Call::Submit(READING),
        Call::ReceiverStep,
        Call::ReceiverStep,
        Call::ReceiverStep,
        Call::Submit(READING),
        Call::ReceiverStep,
        Call::ReceiverStep,
        Call::ReceiverStep,
        Call::Submit(READING),
        Call::ReceiverStep,
        Call::ReceiverStep,
        Call::ReceiverStep,
        Call::Withdraw,
        Call::Close,
    ];
    let mut answers = [Answer::NotMade; 14];
    let mut entries: [Entry<Reading>; 0] = [];
    let count = live(
        &mut store,
        &mut [Worker::idle()],
        &calls,
        &mut answers,
        &mut entries,
    );
    assert_eq!(rt; count, Some(0));
    assert_eq!(rt;
        answers[9],
        Answer::Received(ReceiverAnswer::Stepped(ReceiverPhase::Busy, 2))
    );
    assert_eq!(rt; answers[10], Answer::Received(ReceiverAnswer::Skipped(2)));
    assert_eq!(rt;
        answers[11],
        Answer::Received(ReceiverAnswer::Stepped(ReceiverPhase::Busy, 3))
    );
    assert_eq!(rt; answers[12], Answer::Withdrew(Some(READING)));
    assert_eq!(rt; answers[13], Answer::Closed(3));
    assert_eq!(rt; store.gap(0), Ok(2));
    assert_eq!(rt; store.rank(0), Ok(0));
}
