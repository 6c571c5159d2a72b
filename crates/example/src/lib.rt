// An example memory, made by the block store's own calls.
#![tactic(auto)]

ghost use Rattle.std.specs.Prelude.{◌≡◌, ℕ, true, length, is_ok, ◌≢◌};
ghost use Rattle.items.specs.Readings.{zero_reading};
ghost use Rattle.stores.specs.Calls.{no_cell, Done};
ghost use Rattle.stores.specs.Refusals.{store_layer, store_reason};
ghost use Rattle.stores.specs.Model.{size, cleared, with_item, with_rank};
ghost use Rattle.example.specs.Example.{example_contents, example_bytes, NoCell};

use blocks::BlockMemory;
use items::{ItemKind, Reading};
use stores::{Refusal, Store, StoreFault};

// The example has so many cells, which take so many bytes.
pub const CELLS: usize = 30;

pub const BYTES: usize = 1536;

// Puts an item into a cell of any store, and then its rank.
pub fn announce<I: ItemKind, S: Store<Item = I>>(
    store: &mut S,
    i: usize,
    item: I,
    rank: i64,
) -> Result<(), S::Fault>
    ensures done { Done S.Fault.Refusal.reason (no_cell S.Fault.Refusal.layer (S.Store.model store.old) i) tt S.Store.model (with_rank I.ItemKind.blank (with_item I.ItemKind.blank (S.Store.model store.old) i item) i rank) store.old store.new result }
    ensures lender { S.Store.lender store.new ≡ S.Store.lender store.old }
{
    store.put_item(i, item)?;
    store.put_rank(i, rank)
}

// The example's calls, on any store of readings.
fn fill<S: Store<Item = Reading>>(store: &mut S) -> Result<(), S::Fault>
    ensures filled { S.Store.model store.old ≡ cleared zero_reading 30 0 → (is_ok result ≡ true) × (S.Store.model store.new ≡ example_contents) }
    ensures none { size (S.Store.model store.old) ≡ 0 → (store.new ≡ store.old) × NoCell S.Fault.Refusal.reason S.Fault.Refusal.layer 3 result }
    ensures lender { S.Store.lender store.new ≡ S.Store.lender store.old }
{
    let first = Reading {
        probe: 41,
        sequence: 7,
        level: -250,
    };
    let second = Reading {
        probe: 12,
        sequence: 65535,
        level: 1830,
    };
    announce(store, 3, first, 3)?;
    announce(store, 24, second, 24)?;
    store.put_gap(5, 5)?;
    store.next_rank()?;
    Ok(())
}

fn fill_memory(mem: &mut [u8], n: usize) -> Result<(), StoreFault>
    ensures fit { n ≡ 30 → length mem.old ≡ 1536 → (is_ok result ≡ true) × (mem.new ≡ example_bytes) }
    ensures unfit { n ≡ 30 → (length mem.old ≢ 1536) → (mem.new ≡ mem.old) × NoCell store_reason store_layer 3 result }
{
    let mut store = BlockMemory::new(mem, n);
    fill(&mut store)
}

// Writes the example into these bytes. If there are more or fewer than it takes, it is refused as a store of no cells
// refuses it, and they are left alone.
pub fn write_example(mem: &mut [u8]) -> Result<(), StoreFault>
    ensures fit { length mem.old ≡ 1536 → (is_ok result ≡ true) × (mem.new ≡ example_bytes) }
    ensures unfit { (length mem.old ≢ 1536) → (mem.new ≡ mem.old) × NoCell store_reason store_layer 3 result }
{
    fill_memory(mem, CELLS)
}
