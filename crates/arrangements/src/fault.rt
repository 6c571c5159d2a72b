// The refusals of a store that is arranged over another.
ghost use Rattle.arrangements.specs.Faults.{arrangement_layer, arrangement_reason};

use stores::{Layer, Refusal};

#[derive(Clone, Copy, PartialEq, Eq, Debug)]
pub enum ArrangementFault<F> {
    // There is no cell of this number.
    NoSuchCell(usize),
    // The store has no cells, or the arrangement doesn't fit.
    NoCells,
    // The store below refused, for this reason.
    Below(F),
}

impl<F: Refusal> Refusal for ArrangementFault<F> {
    ghost layer = { arrangement_layer };

    ghost reason = { arrangement_reason F.Refusal.reason };

    fn number(self) -> u64 {
        match self {
            ArrangementFault::NoSuchCell(_) | ArrangementFault::NoCells => 1,
            ArrangementFault::Below(fault) => fault.number(),
        }
    }

    fn place(self) -> u64 {
        match self {
            ArrangementFault::NoSuchCell(i) => i as u64,
            ArrangementFault::NoCells => 0,
            ArrangementFault::Below(fault) => fault.place(),
        }
    }

    fn layer(self) -> Layer {
        Layer::Arrangement
    }
}
