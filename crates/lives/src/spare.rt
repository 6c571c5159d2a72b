// Where a permit goes that is left after a life. It can't be dropped, so it is used up on a queue that nobody else has.
ghost use Rattle.std.specs.Prelude.{◌≡◌, ◌<◌, pos};
ghost use Rattle.stores.specs.Model.{size};
ghost use Rattle.lives.specs.Permits.{permit_of, spare_mark};
ghost use Rattle.protocol.specs.Rules.{closed_at, laid_receiver};

use crate::held::Held;
use items::{ItemKind, Reading};
use queue::{FreePermit, Receiver};
use stores::{Cell, RecordMemory, Store};

impl Held {
    // Closes a spare queue of one cell with the permit that is left, and answers its end mark; None where none is left.
    pub fn close_spare(self) -> Option<i64>
        ensures { result ≡ spare_mark (permit_of self) }
    {
        match self {
            Held::Free(permit) => Some(close_one_cell(permit)),
            Held::Full(permit) => {
                let (_, permit) = Receiver::<Reading>::new().withdraw(permit);
                Some(close_one_cell(permit))
            }
            Held::Spent => None,
        }
    }
}

fn close_one_cell(permit: FreePermit) -> i64
    ensures { result ≡ pos 0 }
{
    let mut cells = [Cell::<Reading>::fresh()];
    close_new(&mut RecordMemory::new(&mut cells), permit)
}

// A store with cells lets a receiver with an empty hand close.
fn close_new<I: ItemKind, S: Store<Item = I>>(store: &mut S, permit: FreePermit) -> i64
    requires { 0 < size (S.Store.model store.old) }
    ensures { result ≡ closed_at (laid_receiver 0) (S.Store.model store.old) }
{
    // No `unwrap`: a refusal would bring a permit, which can't be dropped.
    match Receiver::new().close(store, permit) {
        Ok(mark) => mark,
        Err(_) => unreachable(),
    }
}
