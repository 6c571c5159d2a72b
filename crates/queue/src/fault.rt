// The refusals of the queue's calls.
ghost use Rattle.queue.specs.Faults.{queue_layer, queue_reason};

use stores::{Layer, Refusal};

#[derive(Clone, Copy, PartialEq, Eq, Debug)]
pub enum QueueFault<F> {
    // The store has no cells.
    NoCells,
    // The start is above the highest rank.
    StartTooHigh,
    // The worker table has no record or more than 64; it has this many.
    WorkerCount(usize),
    // The queue's end is set.
    Closed,
    // There is an item in the receiver's hand.
    HandFull,
    // The highest rank is announced or skipped.
    TailAtLimit,
    // The log has no room for a delivery of this worker.
    LogFull(usize),
    // This worker is not idle, and its rank was never handed out.
    RankOutOfRange(usize),
    // There is no item in the receiver's hand.
    HandEmpty,
    // There is no worker of this number.
    NoSuchWorker(usize),
    // The store refused, for this reason.
    Below(F),
}

impl<F: Refusal> Refusal for QueueFault<F> {
    ghost layer = { queue_layer };

    ghost reason = { queue_reason F.Refusal.reason };

    fn number(self) -> u64 {
        match self {
            QueueFault::NoCells => 1,
            QueueFault::StartTooHigh => 2,
            QueueFault::WorkerCount(_) => 3,
            QueueFault::Closed => 4,
            QueueFault::HandFull => 5,
            QueueFault::TailAtLimit => 6,
            QueueFault::LogFull(_) => 7,
            QueueFault::RankOutOfRange(_) => 8,
            QueueFault::HandEmpty => 9,
            QueueFault::NoSuchWorker(_) => 10,
            QueueFault::Below(fault) => fault.number(),
        }
    }

    fn place(self) -> u64 {
        match self {
            QueueFault::NoCells
            | QueueFault::StartTooHigh
            | QueueFault::Closed
            | QueueFault::HandFull
            | QueueFault::TailAtLimit
            | QueueFault::HandEmpty => 0,
            QueueFault::WorkerCount(count) => count as u64,
            QueueFault::LogFull(k) | QueueFault::RankOutOfRange(k) | QueueFault::NoSuchWorker(k) =>
                k as u64,
            QueueFault::Below(fault) => fault.place(),
        }
    }

    fn layer(self) -> Layer {
        Layer::Queue
    }
}
