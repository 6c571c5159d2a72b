// The records that the queue's calls read and write beside the store.
ghost use Rattle.std.specs.Prelude.{◌≡◌};

use items::ItemKind;

// How far the receiver is with the item in its hand.
#[derive(Clone, Copy, PartialEq, Eq, Debug)]
pub enum ReceiverPhase {
    // It is to look at the cell of its tail.
    Probing,
    // That cell was used: it is to be skipped.
    Busy,
    // That cell was free: the item is to be put there.
    Found,
    // The item is put: its rank is to follow.
    Filled,
}

// How far a worker is with the rank that it holds.
#[derive(Clone, Copy, PartialEq, Eq, Debug)]
pub enum WorkerPhase {
    // It holds none.
    Idle,
    // It is to look whether its rank stands in its cell.
    Seeking,
    // It did not: the cell's gap is to be read.
    Doubting,
    // The gap reaches its rank: the cell's rank is to be read once more.
    Marked,
    // The rank was skipped: the next is to be taken.
    Passed,
    // Its rank stands in its cell: the item is to be copied.
    Sure,
    // The item is copied: the cell is to be freed, and the item logged.
    Copied,
}

// A worker's record. An idle worker's rank and copy are of no account; they stay, so that a table of fixed memory holds
// one kind of record.
#[derive(Clone, Copy, PartialEq, Eq, Debug)]
pub struct Worker<I> {
    pub phase: WorkerPhase,
    pub rank: u64,
    pub copy: I,
}

impl<I: ItemKind> Worker<I> {
    // A worker that has held no rank yet.
    pub fn idle() -> Worker<I>
        ensures phase { result.phase ≡ WorkerPhase.Idle }
        ensures rank { result.rank ≡ 0 }
        ensures copy { result.copy ≡ I.ItemKind.blank }
    {
        Worker {
            phase: WorkerPhase::Idle,
            rank: 0,
            copy: I::blank(),
        }
    }
}

// A delivery in the log.
#[derive(Clone, Copy, PartialEq, Eq, Debug)]
pub struct Entry<I> {
    pub rank: u64,
    pub worker: usize,
    pub item: I,
}
