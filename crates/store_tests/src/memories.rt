// Record memory and block memory behave alike, and block memory tells of damage.
use crate::ITEM;
use blocks::{BlockFault, BlockMemory, inspect, stored_cell};
use items::{ItemKind, Notice, Reading};
use std::process::Abort;
use std::test::Fail;
use stores::{Cell, RecordMemory, Store, StoreFault};

// A store of 22 cells, made cleared at 0.
fn puts_and_refusals<S: Store<Item = Reading, Fault = StoreFault>>(rt: &impl Abort, store: &mut S) {
    assert_eq!(rt; store.cells(), 22);
    assert_eq!(rt; store.put_item(21, ITEM), Ok(()));
    assert_eq!(rt; store.put_rank(21, 43), Ok(()));
    assert_eq!(rt; store.put_gap(20, 42), Ok(()));
    assert_eq!(rt; store.item(21), Ok(ITEM));
    assert_eq!(rt; store.rank(21), Ok(43));
    assert_eq!(rt; store.gap(21), Ok(-1));
    assert_eq!(rt; store.gap(20), Ok(42));
    assert_eq!(rt; store.rank(22), Err(StoreFault::NoSuchCell(22)));
    assert_eq!(rt; store.put_gap(22, 1), Err(StoreFault::NoSuchCell(22)));
}

// The counters of such a store.
fn counters<S: Store<Fault = StoreFault>>(rt: &impl Abort, store: &mut S) {
    assert_eq!(rt; store.next_rank(), Ok(0));
    assert_eq!(rt; store.head(), 1);
    assert_eq!(rt; store.set_end(5), Ok(()));
    assert_eq!(rt; store.end_mark(), 5);
    assert_eq!(rt; store.clear(1 << 40), Err(StoreFault::StartTooHigh));
    assert_eq!(rt; store.clear((1 << 40) - 1), Ok(()));
    assert_eq!(rt; store.end_mark(), -1);
    assert_eq!(rt; store.rank(21), Ok(-1));
    assert_eq!(rt; store.next_rank(), Ok((1 << 40) - 1));
    assert_eq!(rt; store.next_rank(), Err(StoreFault::RanksUsedUp));
}

// A store without cells refuses all.
fn no_cells<S: Store<Fault = StoreFault>>(rt: &impl Abort, store: &mut S) {
    assert_eq!(rt; store.cells(), 0);
    assert_eq!(rt; store.head(), 0);
    assert_eq!(rt; store.end_mark(), -1);
    assert_eq!(rt; store.put_rank(0, 1), Err(StoreFault::NoSuchCell(0)));
    assert_eq!(rt; store.set_end(1), Err(StoreFault::NoCells));
    assert_eq!(rt; store.next_rank(), Err(StoreFault::NoCells));
    assert_eq!(rt; store.clear(1 << 40), Err(StoreFault::NoCells));
}

#[test]
fn record_memory(rt: HostRuntime) {
    let mut cells = [Cell {
        item: ITEM,
        rank: 3,
        gap: 4,
    }; 22];
    let mut store = RecordMemory::new(&mut cells);
    puts_and_refusals(&rt, &mut store);
    counters(&rt, &mut store);
}

#[test]
fn block_memory(rt: HostRuntime) {
    let mut bytes = [9u8; 1536];
    let mut store = BlockMemory::new(&mut bytes, 22);
    puts_and_refusals(&rt, &mut store);
    counters(&rt, &mut store);
    assert_eq!(rt; inspect(&bytes, 22), Ok(()));
}

#[test]
fn unfit_memories_are_left_alone(rt: HostRuntime) {
    let mut cells: [Cell<Reading>; 0] = [];
    no_cells(&rt, &mut RecordMemory::new(&mut cells));
    let mut bytes = [9u8; 1024];
    no_cells(&rt, &mut BlockMemory::<Reading>::new(&mut bytes, 22));
    assert!(rt; bytes == [9u8; 1024]);
}

#[test]
fn notices_in_a_block_memory(rt: HostRuntime) -> Result<(), Fail> {
    let shift = Notice::ClockShift { seconds: -7 };
    let mut bytes = [0u8; 1024];
    let mut store = BlockMemory::new(&mut bytes, 2);
    assert_eq!(rt; store.item(0), Ok(Notice::Nothing));
    assert_eq!(rt; store.put_item(1, shift), Ok(()));
    assert_eq!(rt; store.item(1), Ok(shift));
    let Some(cell) = stored_cell::<Notice>(&bytes, 1) else {
        return Err(Fail::new("no cell 1"));
    };
    assert_eq!(rt; cell.item, shift);
    Ok(())
}

// Each byte changed in two ways, one at a time. By number, since the whole memory is inspected at each.
fn damage_is_told(rt: &impl Abort, bytes: &mut [u8], n: usize) {
    for at in 0..bytes.len() {
        let old = bytes[at];
        for new in [old.wrapping_add(1), old ^ 0x80] {
            bytes[at] = new;
            assert_eq!(rt; inspect(bytes, n), Err(BlockFault::BadCheck(at / 512)));
        }
        bytes[at] = old;
    }
}

#[test]
fn every_changed_byte_is_told(rt: HostRuntime) {
    let mut bytes = [0u8; 1536];
    let mut store = BlockMemory::new(&mut bytes, 22);
    assert_eq!(rt; store.put_item(21, ITEM), Ok(()));
    assert_eq!(rt; store.put_rank(21, 21), Ok(()));
    damage_is_told(&rt, &mut bytes, 22);
    assert_eq!(rt; inspect(&bytes, 22), Ok(()));
}
