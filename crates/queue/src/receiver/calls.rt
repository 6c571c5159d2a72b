// The receiver's calls.
ghost use Rattle.std.specs.Prelude.{◌≡◌, ◌^◌, ◌≤◌, IfErr, OnErr};
ghost use Rattle.protocol.specs.Rules.{no_submit, no_close, closed_at, handed, emptied, laid_receiver, unless};
ghost use Rattle.stores.specs.Model.{with_end};
ghost use Rattle.queue.specs.Faults.{queue_reason, Own};
ghost use Rattle.queue.specs.Receivers.{receiver_view, refusal_of, close_answer, answer_unless};

use crate::fault::QueueFault;
use crate::numbers;
use crate::permit::{FreePermit, FullPermit, Refused};
use crate::receiver::Receiver;
use items::ItemKind;
use protocol::ReceiverPhase;
use stores::Store;

impl<I: ItemKind> Receiver<I> {
    // A receiver with nothing in hand, to be laid out.
    pub fn new() -> Receiver<I>
        ensures { receiver_view result ≡ laid_receiver 0 }
    {
        Receiver::at(0)
    }

    // With nothing in hand, and this tail.
    pub(crate) fn at(tail: u64) -> Receiver<I>
        requires { tail ≤ 2 ^ 40 }
        ensures { receiver_view result ≡ laid_receiver tail }
    {
        Receiver {
            tail,
            phase: ReceiverPhase::Probing,
            hand: None,
        }
    }

    // Takes an item into the hand.
    pub fn submit<S: Store<Item = I>>(
        &mut self,
        store: &S,
        permit: FreePermit,
        item: I,
    ) -> Result<FullPermit, Refused<FreePermit, QueueFault<S::Fault>>>
        ensures answer { refusal_of (queue_reason S.Fault.Refusal.reason) result ≡ no_submit (receiver_view self.old) (S.Store.model store.now) }
        ensures own { IfErr result (λ e. Own e.fault) }
        ensures receiver { receiver_view self.new ≡ unless (no_submit (receiver_view self.old) (S.Store.model store.now)) (handed (receiver_view self.old) item) (receiver_view self.old) }
        ensures same { store.exit.now ≡ store.entry.now }
        ensures refused { OnErr result (self.new ≡ self.old) }
    {
        if store.cells() == 0 {
            return Err(Refused::new(permit, QueueFault::NoCells));
        }
        if numbers::is_used(store.end_mark()) {
            return Err(Refused::new(permit, QueueFault::Closed));
        }
        if self.hand.is_some() {
            return Err(Refused::new(permit, QueueFault::HandFull));
        }
        self.hand = Some(item);
        self.phase = ReceiverPhase::Probing;
        Ok(permit.fill())
    }

    // Empties the hand.
    pub fn withdraw(&mut self, permit: FullPermit) -> (Option<I>, FreePermit)
        ensures answer { result.0 ≡ (receiver_view self.old).hand }
        ensures receiver { receiver_view self.new ≡ emptied (receiver_view self.old) }
    {
        let item = self.hand.take();
        self.phase = ReceiverPhase::Probing;
        (item, permit.empty())
    }

    // Ends an open queue at the tail, and answers the end mark.
    pub fn close<S: Store<Item = I>>(
        &self,
        store: &mut S,
        permit: FreePermit,
    ) -> Result<i64, Refused<FreePermit, QueueFault<S::Fault>>>
        ensures answer { close_answer (queue_reason S.Fault.Refusal.reason) result ≡ answer_unless (no_close (receiver_view self.now) (S.Store.model store.old)) (closed_at (receiver_view self.now) (S.Store.model store.old)) }
        ensures own { IfErr result (λ e. Own e.fault) }
        ensures receiver { self.exit.now ≡ self.entry.now }
        ensures model { S.Store.model store.new ≡ unless (no_close (receiver_view self.now) (S.Store.model store.old)) (with_end (S.Store.model store.old) (closed_at (receiver_view self.now) (S.Store.model store.old))) (S.Store.model store.old) }
        ensures refused { OnErr result (store.new ≡ store.old) }
        ensures lender { S.Store.lender store.new ≡ S.Store.lender store.old }
    {
        if store.cells() == 0 {
            return Err(Refused::new(permit, QueueFault::NoCells));
        }
        if self.hand.is_some() {
            return Err(Refused::new(permit, QueueFault::HandFull));
        }
        permit.spend();
        let mark = store.end_mark();
        if !numbers::is_open(mark) {
            return Ok(mark);
        }
        let mark = self.tail as i64;
        store.set_end(mark).unwrap();
        Ok(mark)
    }
}
