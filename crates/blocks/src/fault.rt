// The refusals of a memory that is no block memory of so many cells.
ghost use Rattle.std.specs.Prelude.{◌≡◌};
ghost use Rattle.stores.specs.Refusals.{store_layer};
ghost use Rattle.blocks.specs.Faults.{block_reason};

use stores::{Layer, Refusal};

#[derive(Clone, Copy, PartialEq, Eq, Debug)]
pub enum BlockFault {
    // The memory's size and the number of cells do not go together.
    Unfit,
    // The first block whose check fails.
    BadCheck(usize),
}

impl Refusal for BlockFault {
    ghost layer = { store_layer };

    ghost reason = { block_reason };

    fn number(self) -> u64 {
        match self {
            BlockFault::Unfit => 12,
            BlockFault::BadCheck(_) => 13,
        }
    }

    fn place(self) -> u64 {
        match self {
            BlockFault::Unfit => 0,
            BlockFault::BadCheck(block) => block as u64,
        }
    }

    fn layer(self) -> Layer {
        Layer::Store
    }
}
