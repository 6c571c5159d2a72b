// Drains and rehearsals on examples: how many steps they make, and why they stop.
use items::{ItemKind, Reading};
use protocol::{Entry, Worker};
use queue::{Log, QueueFault};
use runs::{DrainStop, Drained, Rehearsed, RunFault, drain, rehearse};
use stores::{Cell, RecordMemory, Refusal, StoreFault};

type Drain = Result<Drained, DrainStop<RunFault<QueueFault<StoreFault>>>>;

// One item is handed over to two workers, who have made no step, and the queue is closed. Then it is drained.
fn drained(entries: &mut [Entry<Reading>], budget: u64) -> Drain {
    let mut cells = [Cell::fresh(); 2];
    let mut store = RecordMemory::new(&mut cells);
    let mut workers = [Worker::idle(); 2];
    let mut log = Log::new(entries);
    let _ = rehearse(
        &mut store,
        &mut workers,
        &mut log,
        0,
        &[Reading::blank()],
        &[0; 4],
    );
    drain(&mut store, &mut workers, &mut log, budget)
}

// Four steps of worker 0 with its rank, and one of each worker to be told over.
#[test]
fn a_drain_takes_six_steps(rt: HostRuntime) {
    let mut entries = [Entry::blank(); 4];
    let all = Ok(Drained {
        steps: 6,
        finished: true,
    });
    assert_eq!(rt; drained(&mut entries, 100), all);
    assert_eq!(rt; drained(&mut entries, 6), all);
    let cut = Ok(Drained {
        steps: 5,
        finished: false,
    });
    assert_eq!(rt; drained(&mut entries, 5), cut);
}

#[test]
fn a_drain_stops_at_a_full_log(rt: HostRuntime) {
    let mut entries: [Entry<Reading>; 0] = [];
    let full = Err(DrainStop {
        steps: 3,
        fault: RunFault::Below(QueueFault::LogFull(0)),
    });
    assert_eq!(rt; drained(&mut entries, 100), full);
}

#[test]
fn an_open_queue_is_not_drained(rt: HostRuntime) {
    let mut cells = [Cell::<Reading>::fresh(); 2];
    let mut store = RecordMemory::new(&mut cells);
    let mut entries: [Entry<Reading>; 0] = [];
    let mut log = Log::new(&mut entries);
    let open: Drain = Err(DrainStop {
        steps: 0,
        fault: RunFault::StillOpen,
    });
    assert_eq!(rt; drain(&mut store, &mut [Worker::idle()], &mut log, 9), open);
    let nobody: Drain = Err(DrainStop {
        steps: 0,
        fault: RunFault::WorkerCount(0),
    });
    assert_eq!(rt; drain(&mut store, &mut [], &mut log, 9), nobody);
}

// Two items, and room for one: the second delivery is turn 15.
#[test]
fn a_rehearsal_stops_at_a_full_log(rt: HostRuntime) {
    let mut cells = [Cell::fresh(); 2];
    let mut store = RecordMemory::new(&mut cells);
    let mut entries = [Entry::blank()];
    let mut log = Log::new(&mut entries);
    let done = rehearse(
        &mut store,
        &mut [Worker::idle()],
        &mut log,
        0,
        &[Reading::blank(); 2],
        &[0, 0, 0, 0, 0, 0, 0, 0, 1, 1, 1, 1, 1, 1, 1, 1],
    );
    assert!(rt;
        matches!(
            done,
            Ok(Rehearsed {
                end: 2,
                stop: Some(_)
            })
        )
    );
    let stop = done.ok().and_then(|done| done.stop);
    assert_eq!(rt; stop.map(|stop| stop.turn), Some(15));
    assert_eq!(rt; stop.map(|stop| stop.fault.number()), Some(7));
}
