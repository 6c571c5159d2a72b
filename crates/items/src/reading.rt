// A probe's reading of a water level.
ghost use Rattle.std.specs.Prelude.{◌≡◌};
ghost use Rattle.items.specs.Readings.{reading_word, reading_of, zero_reading};

use crate::kind::ItemKind;

#[derive(Clone, Copy, PartialEq, Eq, Debug)]
pub struct Reading {
    pub probe: u16,
    pub sequence: u16,
    // Millimetres of water.
    pub level: i32,
}

impl ItemKind for Reading {
    ghost word = { reading_word };

    ghost item = { reading_of };

    ghost blank = { zero_reading };

    fn blank() -> Reading {
        Reading {
            probe: 0,
            sequence: 0,
            level: 0,
        }
    }

    fn encode(self) -> u64 {
        u64::from(self.probe)
            | u64::from(self.sequence) << 16
            | u64::from(self.level.cast_unsigned()) << 32
    }

    fn decode(w: u64) -> Reading {
        Reading {
            probe: (w & 0xffff) as u16,
            sequence: (w >> 16 & 0xffff) as u16,
            level: ((w >> 32) as u32).cast_signed(),
        }
    }
}
