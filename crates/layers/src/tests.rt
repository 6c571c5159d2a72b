// Arranged stores over record memory: what the records below hold.
use crate::put_then_read_in_layers;
use arrangements::{ArrangedStore, ArrangementFault, Turned};
use items::Reading;
use std::test::Fail;
use stores::{Cell, RecordMemory, Refusal, Store, StoreFault};

// Each crate of tests says its own values.
const READING: Reading = Reading {
    probe: 41,
    sequence: 7,
    level: -250,
};

const EMPTY: Cell<Reading> = Cell {
    item: Reading {
        probe: 0,
        sequence: 0,
        level: 0,
    },
    rank: 0,
    gap: 0,
};

#[test]
fn puts_go_to_the_turned_places(rt: HostRuntime) {
    let mut records = [EMPTY; 32];
    {
        let mut store = ArrangedStore::new(RecordMemory::new(&mut records), Turned);
        assert!(rt; store.put_item(3, READING).is_ok());
        assert!(rt; store.put_rank(2, 5).is_ok());
        assert!(rt; store.put_gap(31, 9).is_ok());
    }
    assert_eq!(rt; records[17].item.probe, 41);
    assert_eq!(rt; records[1].rank, 5);
    assert_eq!(rt; records[31].gap, 9);
}

// Turned sends 3 to 17, and 17 to 24.
#[test]
fn three_layers_hold_the_item_at_its_place(rt: HostRuntime) {
    let mut records = [EMPTY; 32];
    let read = put_then_read_in_layers(RecordMemory::new(&mut records), 3, READING);
    assert!(rt; matches!(read, Ok(Reading { probe: 41, .. })));
    assert_eq!(rt; records[24].item.probe, 41);
}

#[test]
fn an_unfit_arrangement_has_no_cells(rt: HostRuntime) {
    let mut records = [EMPTY; 8];
    let mut store = ArrangedStore::new(RecordMemory::new(&mut records), Turned);
    assert_eq!(rt; store.cells(), 0);
    assert!(rt; matches!(store.put_rank(0, 5), Err(ArrangementFault::NoSuchCell(0))));
    assert!(rt; matches!(store.next_rank(), Err(ArrangementFault::NoCells)));
}

#[test]
fn a_fault_below_is_carried_whole(rt: HostRuntime) -> Result<(), Fail> {
    let mut records = [EMPTY; 16];
    let turned = ArrangedStore::new(RecordMemory::new(&mut records), Turned);
    let mut store = ArrangedStore::new(turned, Turned);
    let Err(fault) = store.clear(1 << 40) else {
        return Err(Fail::new("not refused"));
    };
    assert!(rt;
        matches!(
            fault,
            ArrangementFault::Below(ArrangementFault::Below(StoreFault::StartTooHigh))
        )
    );
    assert_eq!(rt; fault.number(), 2);
    Ok(())
}
