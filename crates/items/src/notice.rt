// A notice about a probe or about the gateway's clock.
ghost use Rattle.std.specs.Prelude.{◌≡◌};
ghost use Rattle.items.specs.Notices.{notice_word, notice_of, no_notice};

use crate::kind::ItemKind;

#[derive(Clone, Copy, PartialEq, Eq, Debug)]
pub enum Notice {
    Nothing,
    SilentProbe { probe: u16 },
    Battery { probe: u16, millivolts: u16 },
    ClockShift { seconds: i32 },
}

impl ItemKind for Notice {
    ghost word = { notice_word };

    ghost item = { notice_of };

    ghost blank = { no_notice };

    fn blank() -> Notice {
        Self::Nothing
    }

    fn encode(self) -> u64 {
        match self {
            Notice::Nothing => 0,
            Notice::SilentProbe { probe } => u64::from(probe) << 16 | 1,
            Notice::Battery { probe, millivolts } => {
                u64::from(millivolts) << 32 | (u64::from(probe) << 16 | 2)
            }
            Notice::ClockShift { seconds } => u64::from(seconds.cast_unsigned()) << 32 | 3,
        }
    }

    fn decode(w: u64) -> Notice {
        let probe = (w >> 16 & 0xffff) as u16;
        let value = (w >> 32) as u32;
        match (w & 0xffff, u16::try_from(value)) {
            (1, Ok(0)) => Notice::SilentProbe { probe },
            (2, Ok(millivolts)) => Notice::Battery { probe, millivolts },
            (3, _) if probe == 0 => Notice::ClockShift {
                seconds: value.cast_signed(),
            },
            _ => Notice::Nothing,
        }
    }
}
