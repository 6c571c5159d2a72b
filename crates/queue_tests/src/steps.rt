// Steps of a worker on records that are set up beforehand.
use items::{ItemKind, Reading};
use lives::Held;
use protocol::{Entry, Worker, WorkerAnswer, WorkerPhase};
use queue::{Log, QueueFault, Receiver, lay_out, worker_step};
use std::test::Fail;
use stores::{Cell, RecordMemory, Refusal, Store, StoreFault};

const LAST: u64 = (1 << 40) - 1;

fn worker(phase: WorkerPhase, rank: u64) -> Worker<Reading> {
    Worker {
        phase,
        rank,
        copy: Reading::blank(),
    }
}

#[test]
fn the_last_rank_is_handed_out(rt: HostRuntime) -> Result<(), Fail> {
    let mut cells = [Cell::fresh(); 2];
    let mut store = RecordMemory::new(&mut cells);
    let mut workers = [Worker::idle(); 2];
    let mut entries: [Entry<Reading>; 0] = [];
    let mut log = Log::new(&mut entries);
    let Ok(permit) = lay_out(
        &mut store,
        &mut Receiver::new(),
        &mut workers,
        &mut log,
        LAST,
    ) else {
        return Err(Fail::new("not laid out"));
    };
    assert_eq!(rt; Held::Free(permit).close_spare(), Some(0));
    assert_eq!(rt;
        worker_step(&mut store, &mut workers, &mut log, 0),
        Ok(WorkerAnswer::Claimed(LAST))
    );
    let refused = worker_step(&mut store, &mut workers, &mut log, 1);
    assert_eq!(rt; refused, Err(QueueFault::Below(StoreFault::RanksUsedUp)));
    let Err(fault) = refused else {
        return Err(Fail::new("not refused"));
    };
    assert_eq!(rt; fault.number(), 6);
    Ok(())
}

// A worker that doubts whether rank 2 stands in its cell, whose gap is this one.
fn doubt(gap: i64) -> Result<WorkerAnswer<Reading>, QueueFault<StoreFault>> {
    let mut cells = [Cell::fresh(); 2];
    let mut store = RecordMemory::new(&mut cells);
    for _ in 0..3 {
        let _ = store.next_rank();
    }
    let _ = store.put_gap(0, gap);
    let mut workers = [worker(WorkerPhase::Doubting, 2)];
    let mut entries: [Entry<Reading>; 0] = [];
    let mut log = Log::new(&mut entries);
    worker_step(&mut store, &mut workers, &mut log, 0)
}

#[test]
fn a_gap_that_reaches_the_rank_marks_it(rt: HostRuntime) {
    assert_eq!(rt; doubt(2), Ok(WorkerAnswer::Stepped(WorkerPhase::Marked, 2)));
    assert_eq!(rt; doubt(4), Ok(WorkerAnswer::Stepped(WorkerPhase::Marked, 2)));
    assert_eq!(rt; doubt(1), Ok(WorkerAnswer::Waiting(2)));
}

// The log finds what is delivered, and not what an earlier life left after it.
#[test]
fn a_delivery_is_found_in_the_log(rt: HostRuntime) {
    let mut cells = [Cell::fresh(); 2];
    let mut store = RecordMemory::new(&mut cells);
    assert_eq!(rt; store.next_rank(), Ok(0));
    let mut workers = [worker(WorkerPhase::Copied, 0)];
    let mut entries = [Entry {
        rank: 7,
        worker: 3,
        item: Reading::blank(),
    }; 2];
    let mut log = Log::new(&mut entries);
    assert_eq!(rt;
        worker_step(&mut store, &mut workers, &mut log, 0),
        Ok(WorkerAnswer::Delivered(0, Reading::blank()))
    );
    assert_eq!(rt; log.count(), 1);
    assert!(rt; log.entry(0).is_some());
    assert!(rt; log.entry(7).is_none());
}
