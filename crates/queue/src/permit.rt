// Permits: who holds the free one may submit or close, who holds the full one has submitted an item and may step
// the receiver or withdraw. A permit can't be dropped, and only this crate makes one.
ghost use Rattle.std.specs.Prelude.{◌≡◌};

use protocol::ReceiverPhase;

// Two types, and no marker on one, so that a call takes the permit it needs by its name.
pub struct FreePermit {
    seal: (),
}

pub struct FullPermit {
    seal: (),
}

// A refused call hands its permit back.
pub struct Refused<P, F> {
    pub permit: P,
    pub fault: F,
}

impl<P, F> Refused<P, F> {
    pub(crate) fn new(permit: P, fault: F) -> Refused<P, F>
        ensures permit { result.permit ≡ permit }
        ensures fault { result.fault ≡ fault }
    {
        Refused { permit, fault }
    }
}

impl FreePermit {
    pub(crate) fn new() -> FreePermit {
        FreePermit { seal: () }
    }

    pub(crate) fn fill(self) -> FullPermit {
        let FreePermit { seal } = self;
        FullPermit { seal }
    }

    // Uses the permit up.
    pub(crate) fn spend(self) {
        let FreePermit { seal: () } = self;
    }
}

impl FullPermit {
    pub(crate) fn empty(self) -> FreePermit {
        let FullPermit { seal } = self;
        FreePermit { seal }
    }
}

// What an accepted receiver step answers, with the permit after it: only an announcement frees it, and no other answer
// can come with a free one.
pub enum ReceiverStep {
    Stepped(FullPermit, ReceiverPhase, u64),
    Skipped(FullPermit, u64),
    Announced(FreePermit, u64),
}
