// Questions to a log.
use items::{ItemKind, Reading};
use protocol::Entry;
use queue::{Log, find};

fn entry(rank: u64, worker: usize) -> Entry<Reading> {
    Entry {
        rank,
        worker,
        item: Reading::blank(),
    }
}

fn worker_of(found: Option<&Entry<Reading>>) -> Option<usize> {
    Some(found?.worker)
}

#[test]
fn the_first_of_several_is_found(rt: HostRuntime) {
    let entries = [entry(4, 0), entry(7, 1), entry(7, 2), entry(4, 3)];
    assert_eq!(rt; worker_of(find(&entries, 7)), Some(1));
    assert_eq!(rt; worker_of(find(&entries, 4)), Some(0));
    assert_eq!(rt; worker_of(find(&entries, 5)), None);
}

// What an earlier life left is not of the log.
#[test]
fn entries_beyond_the_count_are_not_found(rt: HostRuntime) {
    let mut entries = [entry(4, 0), entry(7, 1)];
    let log = Log::new(&mut entries);
    assert_eq!(rt; log.count(), 0);
    assert_eq!(rt; worker_of(log.entry(4)), None);
    assert_eq!(rt; worker_of(log.entry(7)), None);
}
