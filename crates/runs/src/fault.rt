// The refusals of runs.
ghost use Rattle.runs.specs.Faults.{run_layer, run_reason};

use stores::{Layer, Refusal};

#[derive(Clone, Copy, PartialEq, Eq, Debug)]
pub enum RunFault<F> {
    // The store has no cells.
    NoCells,
    // The worker table has no record or more than 64; it has this many.
    WorkerCount(usize),
    // The queue to be drained is open.
    StillOpen,
    // The receiver's hand is empty at this turn, and no item is left.
    NoItemLeft(usize),
    // The queue refused, for this reason.
    Below(F),
}

impl<F: Refusal> Refusal for RunFault<F> {
    ghost layer = { run_layer };

    ghost reason = { run_reason F.Refusal.reason };

    fn number(self) -> u64 {
        match self {
            RunFault::NoCells => 1,
            RunFault::WorkerCount(_) => 3,
            RunFault::StillOpen => 11,
            RunFault::NoItemLeft(_) => 14,
            RunFault::Below(fault) => fault.number(),
        }
    }

    fn place(self) -> u64 {
        match self {
            RunFault::NoCells | RunFault::StillOpen => 0,
            RunFault::WorkerCount(count) => count as u64,
            RunFault::NoItemLeft(turn) => turn as u64,
            RunFault::Below(fault) => fault.place(),
        }
    }

    fn layer(self) -> Layer {
        Layer::Run
    }
}
