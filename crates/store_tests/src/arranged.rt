// Arranged stores over block memory: what the bytes below hold, and that they are sound.
use crate::ITEM;
use arrangements::{ArrangedStore, Straight, Turned};
use blocks::{BlockMemory, inspect, stored_cell};
use items::{ItemKind, Reading};
use stores::Store;

fn rank_below(bytes: &[u8], i: usize) -> Option<i64> {
    Some(stored_cell::<Reading>(bytes, i)?.rank)
}

fn probe_below(bytes: &[u8], i: usize) -> Option<u16> {
    Some(stored_cell::<Reading>(bytes, i)?.item.probe)
}

#[test]
fn turned_over_block_memory(rt: HostRuntime) {
    let mut bytes = [9u8; 1536];
    let mut store = ArrangedStore::new(BlockMemory::new(&mut bytes, 32), Turned);
    assert!(rt; store.put_item(3, ITEM).is_ok());
    assert!(rt; store.put_rank(3, 35).is_ok());
    assert!(rt; store.put_rank(2, 34).is_ok());
    assert_eq!(rt; probe_below(&bytes, 17), Some(41));
    assert_eq!(rt; rank_below(&bytes, 17), Some(35));
    assert_eq!(rt; rank_below(&bytes, 1), Some(34));
    assert_eq!(rt; rank_below(&bytes, 3), Some(-1));
    assert_eq!(rt; inspect(&bytes, 32), Ok(()));
}

// Turned sends 3 to 17 and 17 to 24.
#[test]
fn straight_over_turned_over_turned_over_block_memory(rt: HostRuntime) {
    let mut bytes = [9u8; 1536];
    let turned = ArrangedStore::new(BlockMemory::new(&mut bytes, 32), Turned);
    let turned_twice = ArrangedStore::new(turned, Turned);
    let mut store = ArrangedStore::new(turned_twice, Straight);
    assert!(rt; store.put_item(3, ITEM).is_ok());
    assert!(rt; store.put_rank(3, 3).is_ok());
    assert_eq!(rt; probe_below(&bytes, 24), Some(41));
    assert_eq!(rt; rank_below(&bytes, 24), Some(3));
    assert_eq!(rt; inspect(&bytes, 32), Ok(()));
}
