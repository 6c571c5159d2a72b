// An answer as two numbers.
ghost use Rattle.std.specs.Prelude.{◌≡◌};
ghost use Rattle.c_exports.specs.Verdicts.{verdict_of};

use blocks::BlockFault;
use stores::Refusal;

// The number and the place of a refusal; both are 0 where nothing is refused.
#[repr(C)]
#[derive(Clone, Copy, PartialEq, Eq, Debug)]
pub struct Verdict {
    pub number: u64,
    pub place: u64,
}

impl Verdict {
    pub(crate) fn of(answer: Result<(), BlockFault>) -> Verdict
        ensures { result ≡ verdict_of answer }
    {
        match answer {
            Ok(()) => Verdict {
                number: 0,
                place: 0,
            },
            Err(fault) => Verdict {
                number: fault.number(),
                place: fault.place(),
            },
        }
    }
}
