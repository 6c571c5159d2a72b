// Why a call is refused: a number, a place, and the layer that says so.
ghost use Rattle.std.specs.Prelude.{◌≡◌, ℕ};
ghost use Rattle.stores.specs.declared.refusal.Layer.{Layer};
ghost use Rattle.stores.specs.Refusals.{Reason, store_layer, store_reason};

#[derive(Clone, Copy, PartialEq, Eq, Debug)]
pub enum Layer {
    Store,
    Arrangement,
    Queue,
    Run,
}

// What the faults of every layer tell. Each is asked for alone by what prints or compares it.
pub trait Refusal: Copy {
    // The layer that all faults of this type name.
    ghost layer: { Layer };

    ghost reason: { Self → Reason };

    fn number(self) -> u64
        ensures { result ≡ (reason self).number };

    fn place(self) -> u64
        ensures { result ≡ (reason self).place };

    fn layer(self) -> Layer
        ensures { result ≡ (reason self).layer };
}

// The refusals of a store's calls.
#[derive(Clone, Copy, PartialEq, Eq, Debug)]
pub enum StoreFault {
    // There is no cell of this number.
    NoSuchCell(usize),
    // The store has no cells.
    NoCells,
    // The start is above the highest rank.
    StartTooHigh,
    // The highest rank is handed out.
    RanksUsedUp,
}

impl Refusal for StoreFault {
    ghost layer = { store_layer };

    ghost reason = { store_reason };

    fn number(self) -> u64 {
        match self {
            StoreFault::NoSuchCell(_) | StoreFault::NoCells => 1,
            StoreFault::StartTooHigh => 2,
            StoreFault::RanksUsedUp => 6,
        }
    }

    fn place(self) -> u64 {
        match self {
            StoreFault::NoSuchCell(i) => i as u64,
            StoreFault::NoCells | StoreFault::StartTooHigh | StoreFault::RanksUsedUp => 0,
        }
    }

    fn layer(self) -> Layer {
        Layer::Store
    }
}
