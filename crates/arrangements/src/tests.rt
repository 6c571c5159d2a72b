// Where the arrangements place the cells.
use crate::arrangement::Arrangement;
use crate::straight::Straight;
use crate::turned::Turned;

#[test]
fn turned_places(rt: HostRuntime) {
    assert_eq!(rt; Turned.place(32, 3), Some(17));
    assert_eq!(rt; Turned.place(32, 2), Some(1));
    assert_eq!(rt; Turned.place(16, 5), Some(5));
    assert_eq!(rt; Turned.way_back(32, 17), Some(3));
    assert_eq!(rt; Turned.place(32, 32), None);
}

#[test]
fn turned_sizes(rt: HostRuntime) {
    assert!(rt; Turned.fits(16) && Turned.fits(65_536));
    assert!(rt; !Turned.fits(8) && !Turned.fits(24) && !Turned.fits(131_072));
}

#[test]
fn straight_places(rt: HostRuntime) {
    assert_eq!(rt; Straight.place(5, 4), Some(4));
    assert_eq!(rt; Straight.place(5, 5), None);
}
