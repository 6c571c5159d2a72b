// Figures that are known beforehand.
ghost use Rattle.std.specs.Prelude.{◌≡◌};

use blocks::{BlockFault, BlockMemory, fits};
use items::{ItemKind, Notice, Reading};

// Word 63 of the block that begins at `at`.
fn check_word(mem: &[u8], at: usize) -> Option<u64> {
    let bytes = mem.get(at.checked_add(504)?..)?.first_chunk()?;
    Some(u64::from_le_bytes(*bytes))
}

#[test]
fn checks_of_fresh_blocks(rt: HostRuntime) {
    let mut one = [7u8; 1024];
    let _ = BlockMemory::<Reading>::new(&mut one, 1);
    assert_eq!(rt; check_word(&one, 512), Some(0));
    let mut many = [7u8; 1024];
    let _ = BlockMemory::<Reading>::new(&mut many, 21);
    assert_eq!(rt; check_word(&many, 0), Some(21));
    assert_eq!(rt; check_word(&many, 512), Some(18446744073709551576));
}

// The law of a kind, used by code that knows only the trait.
fn through_its_word<I: ItemKind>(item: I) -> I
    ensures { result ≡ item }
{
    I::decode(item.encode())
}

#[test]
fn an_item_goes_through_its_word(rt: HostRuntime) {
    let notice = Notice::SilentProbe { probe: 65_535 };
    assert_eq!(rt; through_its_word(notice), notice);
}

#[test]
fn bytes_of_a_reading(rt: HostRuntime) {
    let reading = Reading {
        probe: 41,
        sequence: 7,
        level: -250,
    };
    assert_eq!(rt;
        reading.encode().to_le_bytes(),
        [0x29, 0x00, 0x07, 0x00, 0x06, 0xFF, 0xFF, 0xFF]
    );
}

#[test]
fn bytes_of_a_battery_notice(rt: HostRuntime) {
    let battery = Notice::Battery {
        probe: 3,
        millivolts: 3600,
    };
    assert_eq!(rt;
        battery.encode().to_le_bytes(),
        [0x02, 0x00, 0x03, 0x00, 0x10, 0x0E, 0x00, 0x00]
    );
}

#[test]
fn sizes_that_fit(rt: HostRuntime) {
    assert!(rt; fits(512 * 3122, 65_536).is_ok());
    assert_eq!(rt; fits(512 * 3122, 65_537), Err(BlockFault::Unfit));
    assert_eq!(rt; fits(512, 0), Err(BlockFault::Unfit));
    assert!(rt; fits(1024, 21).is_ok());
    assert!(rt; fits(1536, 22).is_ok());
    assert_eq!(rt; fits(1024, 22), Err(BlockFault::Unfit));
}
