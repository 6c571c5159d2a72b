// The receiver's record.
ghost use Rattle.std.specs.Prelude.{◌+◌, ◌^◌, ◌≤◌};
ghost use Rattle.protocol.specs.Pending.{pending};

use protocol::ReceiverPhase;

mod calls;
mod step;

#[derive(Drop)]
pub struct Receiver<I> {
    // The next rank to announce or skip.
    tail: u64,
    phase: ReceiverPhase,
    // The item that was submitted, until it is announced or withdrawn. The rules name a phase without one, too.
    hand: Option<I>,
    ghost ok: { tail + pending phase ≤ 2 ^ 40 },
}
