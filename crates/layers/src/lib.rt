// Arranged stores over arranged stores, used through the store's trait alone.
#![tactic(auto)]

ghost use Rattle.std.specs.Prelude.{◌≡◌};
ghost use Rattle.stores.specs.Calls.{no_cell, Answered, Done};
ghost use Rattle.stores.specs.Model.{with_item};
ghost use Rattle.arrangements.specs.Faults.{arrangement_layer, arrangement_reason};
ghost use Rattle.layers.specs.Layers.{layered};

use arrangements::{ArrangedStore, ArrangementFault, Straight, Turned};
use stores::{Refusal, Store};

// Puts an item into cell i of any store, and reads it back.
pub fn put_then_read<S: Store>(store: &mut S, i: usize, item: S::Item) -> Result<S::Item, S::Fault>
    ensures done { Done S.Fault.Refusal.reason (no_cell S.Fault.Refusal.layer (S.Store.model store.old) i) item S.Store.model (with_item S.Item.ItemKind.blank (S.Store.model store.old) i item) store.old store.new result }
    ensures lender { S.Store.lender store.new ≡ S.Store.lender store.old }
{
    store.put_item(i, item)?;
    store.item(i)
}

// The same in three layers over any memory: straight over turned over turned.
pub fn put_then_read_in_layers<S: Store + Drop>(
    memory: S,
    i: usize,
    item: S::Item,
) -> Result<S::Item, ArrangementFault<ArrangementFault<ArrangementFault<S::Fault>>>>
    ensures { Answered (arrangement_reason (arrangement_reason (arrangement_reason S.Fault.Refusal.reason))) (no_cell arrangement_layer (layered S.Item.ItemKind.blank (S.Store.model memory)) i) item result }
{
    let turned = ArrangedStore::new(memory, Turned);
    let turned_twice = ArrangedStore::new(turned, Turned);
    let mut straight = ArrangedStore::new(turned_twice, Straight);
    put_then_read(&mut straight, i, item)
}

#[cfg(test)]
mod tests;
