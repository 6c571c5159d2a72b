// One cell of a store.
ghost use Rattle.std.specs.Prelude.{◌≡◌};
ghost use Rattle.stores.specs.Model.{fresh_cell};

use items::ItemKind;

// A store keeps any signed number, of which those from 0 on are ranks: an `Option` of a rank would hold fewer.
#[derive(Clone, Copy, PartialEq, Eq, Debug)]
pub struct Cell<I> {
    pub item: I,
    // The rank under which the item is announced; -1 while the cell is free.
    pub rank: i64,
    // The highest rank for which the receiver passed the cell by; -1 while there is none.
    pub gap: i64,
}

impl<I: ItemKind> Cell<I> {
    // A free cell, as after a clear.
    pub fn fresh() -> Cell<I>
        ensures { result ≡ fresh_cell I.ItemKind.blank }
    {
        Cell {
            item: I::blank(),
            rank: -1,
            gap: -1,
        }
    }
}
