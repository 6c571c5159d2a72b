// A step of the receiver.
ghost use Rattle.std.specs.Prelude.{◌≡◌, ◌<◌, IfErr, Ok, OnErr};
ghost use Rattle.protocol.specs.Rules.{step_in, receiver_step};
ghost use Rattle.protocol.specs.declared.record.ReceiverPhase.TheVariants.{Probing, Busy, Found, Filled};
ghost use Rattle.queue.specs.Faults.{queue_reason, Own};
ghost use Rattle.queue.specs.Receivers.{receiver_view, step_said, step_answer};
ghost use Rattle.stores.specs.Model.{size};

use crate::cells::cell_of;
use crate::fault::QueueFault;
use crate::numbers;
use crate::permit::{FullPermit, ReceiverStep, Refused};
use crate::receiver::Receiver;
use items::ItemKind;
use protocol::ReceiverPhase;
use stores::{MAX_HEAD, Store};

impl<I: ItemKind> Receiver<I> {
    // One step with the item in hand, by the phase, which is data of the receiver's record.
    pub fn step<S: Store<Item = I>>(
        &mut self,
        store: &mut S,
        permit: FullPermit,
    ) -> Result<ReceiverStep, Refused<FullPermit, QueueFault<S::Fault>>>
        ensures answer { step_answer (queue_reason S.Fault.Refusal.reason) result ≡ (receiver_step I.ItemKind.blank (receiver_view self.old) (S.Store.model store.old)).answer }
        ensures own { IfErr result (λ e. Own e.fault) }
        ensures receiver { receiver_view self.new ≡ (receiver_step I.ItemKind.blank (receiver_view self.old) (S.Store.model store.old)).receiver }
        ensures model { S.Store.model store.new ≡ (receiver_step I.ItemKind.blank (receiver_view self.old) (S.Store.model store.old)).store }
        ensures refused { OnErr result ((store.new ≡ store.old) × (self.new ≡ self.old)) }
        ensures lender { S.Store.lender store.new ≡ S.Store.lender store.old }
    {
        if store.cells() == 0 {
            return Err(Refused::new(permit, QueueFault::NoCells));
        }
        let Some(item) = self.hand else {
            return Err(Refused::new(permit, QueueFault::HandEmpty));
        };
        match self.phase {
            ReceiverPhase::Probing => self.probe(store, permit),
            ReceiverPhase::Busy => Ok(self.skip(store, permit)),
            ReceiverPhase::Found => Ok(self.fill(store, permit, item)),
            ReceiverPhase::Filled => Ok(self.announce(store, permit)),
        }
    }

    // Looks whether the cell of the tail is used.
    fn probe<S: Store<Item = I>>(
        &mut self,
        store: &S,
        permit: FullPermit,
    ) -> Result<ReceiverStep, Refused<FullPermit, QueueFault<S::Fault>>>
        requires { 0 < size (S.Store.model store.now) }
        ensures answer { step_answer (queue_reason S.Fault.Refusal.reason) result ≡ (step_in I.ItemKind.blank (receiver_view self.old) (S.Store.model store.now) Probing I.ItemKind.blank).answer }
        ensures own { IfErr result (λ e. Own e.fault) }
        ensures receiver { receiver_view self.new ≡ (step_in I.ItemKind.blank (receiver_view self.old) (S.Store.model store.now) Probing I.ItemKind.blank).receiver }
        ensures model { S.Store.model store.now ≡ (step_in I.ItemKind.blank (receiver_view self.old) (S.Store.model store.now) Probing I.ItemKind.blank).store }
        ensures refused { OnErr result (self.new ≡ self.old) }
    {
        let tail = self.tail;
        // No rank is announced or skipped from here on.
        if tail >= MAX_HEAD {
            return Err(Refused::new(permit, QueueFault::TailAtLimit));
        }
        let stored = store.rank(cell_of(store, tail)).unwrap();
        let phase = if numbers::is_used(stored) {
            ReceiverPhase::Busy
        } else {
            ReceiverPhase::Found
        };
        self.phase = phase;
        Ok(ReceiverStep::Stepped(permit, phase, tail))
    }

    // Leaves the tail in the gap of its cell, and goes on to the next rank.
    fn skip<S: Store<Item = I>>(&mut self, store: &mut S, permit: FullPermit) -> ReceiverStep
        requires cells { 0 < size (S.Store.model store.old) }
        requires phase { (receiver_view self.old).phase ≡ Busy }
        ensures answer { Ok (step_said result) ≡ (step_in I.ItemKind.blank (receiver_view self.old) (S.Store.model store.old) Busy I.ItemKind.blank).answer }
        ensures receiver { receiver_view self.new ≡ (step_in I.ItemKind.blank (receiver_view self.old) (S.Store.model store.old) Busy I.ItemKind.blank).receiver }
        ensures model { S.Store.model store.new ≡ (step_in I.ItemKind.blank (receiver_view self.old) (S.Store.model store.old) Busy I.ItemKind.blank).store }
        ensures lender { S.Store.lender store.new ≡ S.Store.lender store.old }
    {
        let tail = self.tail;
        let cell = cell_of(store, tail);
        store.put_gap(cell, tail as i64).unwrap();
        self.tail = tail + 1;
        self.phase = ReceiverPhase::Probing;
        ReceiverStep::Skipped(permit, tail)
    }

    // Puts the item into the cell of the tail.
    fn fill<S: Store<Item = I>>(
        &mut self,
        store: &mut S,
        permit: FullPermit,
        item: I,
    ) -> ReceiverStep
        requires cells { 0 < size (S.Store.model store.old) }
        requires phase { (receiver_view self.old).phase ≡ Found }
        ensures answer { Ok (step_said result) ≡ (step_in I.ItemKind.blank (receiver_view self.old) (S.Store.model store.old) Found item).answer }
        ensures receiver { receiver_view self.new ≡ (step_in I.ItemKind.blank (receiver_view self.old) (S.Store.model store.old) Found item).receiver }
        ensures model { S.Store.model store.new ≡ (step_in I.ItemKind.blank (receiver_view self.old) (S.Store.model store.old) Found item).store }
        ensures lender { S.Store.lender store.new ≡ S.Store.lender store.old }
    {
        let tail = self.tail;
        let cell = cell_of(store, tail);
        store.put_item(cell, item).unwrap();
        self.phase = ReceiverPhase::Filled;
        ReceiverStep::Stepped(permit, ReceiverPhase::Filled, tail)
    }

    // Puts the tail as the rank of its cell: the item is handed over.
    fn announce<S: Store<Item = I>>(&mut self, store: &mut S, permit: FullPermit) -> ReceiverStep
        requires cells { 0 < size (S.Store.model store.old) }
        requires phase { (receiver_view self.old).phase ≡ Filled }
        ensures answer { Ok (step_said result) ≡ (step_in I.ItemKind.blank (receiver_view self.old) (S.Store.model store.old) Filled I.ItemKind.blank).answer }
        ensures receiver { receiver_view self.new ≡ (step_in I.ItemKind.blank (receiver_view self.old) (S.Store.model store.old) Filled I.ItemKind.blank).receiver }
        ensures model { S.Store.model store.new ≡ (step_in I.ItemKind.blank (receiver_view self.old) (S.Store.model store.old) Filled I.ItemKind.blank).store }
        ensures lender { S.Store.lender store.new ≡ S.Store.lender store.old }
    {
        let tail = self.tail;
        let cell = cell_of(store, tail);
        store.put_rank(cell, tail as i64).unwrap();
        self.tail = tail + 1;
        self.phase = ReceiverPhase::Probing;
        self.hand = None;
        ReceiverStep::Announced(permit.empty(), tail)
    }
}
