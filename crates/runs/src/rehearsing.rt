// Rehearsals: turns taken from a list, each a call of the queue.
ghost use Rattle.std.specs.Prelude.{◌≡◌, ℕ, ◌<◌, List, IfSome, IfErr, None, MatchResult};
ghost use Rattle.std.specs.Option.{option_map};
ghost use Rattle.stores.specs.Model.{size, with_end};
ghost use Rattle.protocol.specs.Lives.{Queue};
ghost use Rattle.protocol.specs.Rules.{closed_at};
ghost use Rattle.protocol.specs.State.{free};
ghost use Rattle.queue.specs.Faults.{queue_reason};
ghost use Rattle.queue.specs.Logs.{log_view, log_lender};
ghost use Rattle.queue.specs.Receivers.{receiver_view};
ghost use Rattle.lives.specs.Lent.{queue_view, SameParts};
ghost use Rattle.lives.specs.Permits.{permit_of};
ghost use Rattle.schedules.specs.Hands.{HandFits, party_call};
ghost use Rattle.schedules.specs.Rehearsals.{Ended as Ending, turn_call, items_after, by_call, take_turns, rehearsed};
ghost use Rattle.runs.specs.Faults.{TurnFault, LayOutFault};
ghost use Rattle.runs.specs.Rehearsals.{stop_view, went, RehearsedAs, Rehearses};

use crate::fault::RunFault;
use items::ItemKind;
use lives::{Held, Parts, Turn};
use protocol::{Call, Worker};
use queue::{FreePermit, Log, QueueFault, Receiver, lay_out};
use stores::Store;

// The turn, from 0, that was refused, and why.
#[derive(Clone, Copy, PartialEq, Eq, Debug)]
pub struct Stop<F> {
    pub turn: usize,
    pub fault: F,
}

// The end mark that the queue was closed at; and where the turns stopped, if not after the last.
#[derive(Clone, Copy, PartialEq, Eq, Debug)]
pub struct Rehearsed<F> {
    pub end: i64,
    pub stop: Option<Stop<F>>,
}

// A submit takes the next item.
fn items_after<I: Copy>(call: Call<I>, items: &[I]) -> &[I]
    ensures { result.now ≡ items_after call items.now }
{
    match call {
        Call::Submit(_) => items.get(1..).unwrap_or(items),
        _ => items,
    }
}

// The receiver's side of a rehearsal: the permit that is held, and the items that are left.
struct Side<'i, I> {
    held: Held,
    items: &'i [I],
}

impl<I: Copy> Side<'_, I> {
    // The call of a party's turn: none of the receiver where its hand is empty and no item is left.
    fn call(&self, party: usize) -> Option<Call<I>>
        ensures { result ≡ party_call (permit_of self.now.held) self.now.items.now party }
    {
        if party > 0 {
            return Some(Call::WorkerStep(party - 1));
        }
        match (&self.held, self.items) {
            (Held::Full(_), _) => Some(Call::ReceiverStep),
            (Held::Free(_), [item, ..]) => Some(Call::Submit(*item)),
            _ => None,
        }
    }
}

// After a turn: the receiver's side, and the fault if it was refused.
struct Taken<'i, I, F> {
    side: Side<'i, I>,
    outcome: Result<(), F>,
}

fn take_turn<'i, I: ItemKind, S: Store<Item = I>>(
    parts: &mut Parts<'_, '_, '_, '_, '_, I, S>,
    side: Side<'i, I>,
    party: usize,
    turn: usize,
) -> Taken<'i, I, RunFault<QueueFault<S::Fault>>>
    requires { HandFits (permit_of side.held) (receiver_view parts.old.receiver.now).hand }
    ensures went { (next : Queue I → List I → Ending I) → by_call I.ItemKind.blank (turn_call (queue_view S.Store.model parts.old (permit_of side.entry.held)) side.entry.items.now party) turn (queue_view S.Store.model parts.old (permit_of side.entry.held)) side.entry.items.now next ≡ went (queue_reason S.Fault.Refusal.reason) result.outcome turn (queue_view S.Store.model parts.new (permit_of result.side.held)) (next (queue_view S.Store.model parts.new (permit_of result.side.held)) result.side.items.now) }
    ensures hand { HandFits (permit_of result.side.held) (receiver_view parts.new.receiver.now).hand }
    ensures size { size (S.Store.model parts.new.store.now) ≡ size (S.Store.model parts.old.store.now) }
    ensures fault { IfErr result.outcome (TurnFault S.Fault.Refusal.reason S.Fault.Refusal.layer) }
    ensures lent { SameParts S.Store.lender parts.old parts.new }
{
    let Some(call) = side.call(party) else {
        return Taken {
            side,
            outcome: Err(RunFault::NoItemLeft(turn)),
        };
    };
    let Side { held, items } = side;
    let Turn { held, answer } = parts.make(held, call);
    match answer {
        Ok(_) => Taken {
            side: Side {
                held,
                items: items_after(call, items),
            },
            outcome: Ok(()),
        },
        Err(fault) => Taken {
            side: Side { held, items },
            outcome: Err(RunFault::Below(fault)),
        },
    }
}

// After the last turn, or one that was refused: the receiver's side, and where it stopped.
struct Ended<'i, I, F> {
    side: Side<'i, I>,
    stop: Option<Stop<F>>,
}

fn take_turns<'i, I: ItemKind, S: Store<Item = I>>(
    parts: &mut Parts<'_, '_, '_, '_, '_, I, S>,
    side: Side<'i, I>,
    turns: &[usize],
) -> Ended<'i, I, RunFault<QueueFault<S::Fault>>>
    requires { HandFits (permit_of side.held) (receiver_view parts.old.receiver.now).hand }
    ensures ended { take_turns I.ItemKind.blank 0 (queue_view S.Store.model parts.old (permit_of side.entry.held)) side.entry.items.now turns.now ≡ record { queue = (queue_view S.Store.model parts.new (permit_of result.side.held)); stop = option_map (stop_view (queue_reason S.Fault.Refusal.reason)) result.stop } }
    ensures hand { HandFits (permit_of result.side.held) (receiver_view parts.new.receiver.now).hand }
    ensures size { size (S.Store.model parts.new.store.now) ≡ size (S.Store.model parts.old.store.now) }
    ensures fault { IfSome result.stop (λ s. TurnFault S.Fault.Refusal.reason S.Fault.Refusal.layer s.fault) }
    ensures lent { SameParts S.Store.lender parts.old parts.new }
{
    let mut side = side;
    for (turn, party) in turns.iter().enumerate() {
        let Taken {
            side: next,
            outcome,
        } = take_turn(parts, side, *party, turn);
        side = next;
        if let Err(fault) = outcome {
            return Ended {
                side,
                stop: Some(Stop { turn, fault }),
            };
        }
    }
    Ended { side, stop: None }
}

// Withdraws what is in hand, and closes. The queue has cells and then an empty hand, so the close is not refused.
fn finish<I: ItemKind, S: Store<Item = I>>(
    parts: &mut Parts<'_, '_, '_, '_, '_, I, S>,
    held: Held,
) -> i64
    requires cells { 0 < size (S.Store.model parts.old.store.now) }
    requires hand { HandFits (permit_of held) (receiver_view parts.old.receiver.now).hand }
    ensures end { result ≡ closed_at (receiver_view parts.old.receiver.now) (S.Store.model parts.old.store.now) }
    ensures model { S.Store.model parts.new.store.now ≡ with_end (S.Store.model parts.old.store.now) (closed_at (receiver_view parts.old.receiver.now) (S.Store.model parts.old.store.now)) }
    ensures workers { parts.new.workers.now ≡ parts.old.workers.now }
    ensures log { log_view parts.new.log.now ≡ log_view parts.old.log.now }
    ensures lent { SameParts S.Store.lender parts.old parts.new }
{
    let permit = match held {
        Held::Free(permit) => permit,
        Held::Full(permit) => parts.receiver.withdraw(permit).1,
        Held::Spent => unreachable(),
    };
    // No `unwrap`: a refusal would bring a permit, which can't be dropped.
    match parts.receiver.close(parts.store, permit) {
        Ok(end) => end,
        Err(_) => unreachable(),
    }
}

// The turns in a queue that is laid out, and what follows the last of them.
fn perform<I: ItemKind, S: Store<Item = I>>(
    parts: &mut Parts<'_, '_, '_, '_, '_, I, S>,
    permit: FreePermit,
    items: &[I],
    turns: &[usize],
) -> Rehearsed<RunFault<QueueFault<S::Fault>>>
    requires cells { 0 < size (S.Store.model parts.old.store.now) }
    requires hand { (receiver_view parts.old.receiver.now).hand ≡ None }
    ensures rehearsed { RehearsedAs (queue_reason S.Fault.Refusal.reason) (rehearsed I.ItemKind.blank (queue_view S.Store.model parts.old free) items.now turns.now) result (S.Store.model parts.new.store.now) parts.new.workers.now (log_view parts.new.log.now) }
    ensures fault { IfSome result.stop (λ s. TurnFault S.Fault.Refusal.reason S.Fault.Refusal.layer s.fault) }
    ensures lent { SameParts S.Store.lender parts.old parts.new }
{
    let side = Side {
        held: Held::Free(permit),
        items,
    };
    let Ended { side, stop } = take_turns(parts, side, turns);
    let Side { held, items: _ } = side;
    let end = finish(parts, held);
    Rehearsed { end, stop }
}

fn laid_out<I: ItemKind, S: Store<Item = I>>(
    store: &mut S,
    workers: &mut [Worker<I>],
    log: &mut Log<'_, I>,
    start: u64,
    items: &[I],
    turns: &[usize],
) -> Result<Rehearsed<RunFault<QueueFault<S::Fault>>>, RunFault<QueueFault<S::Fault>>>
    ensures rehearses { Rehearses I.ItemKind.blank (queue_reason S.Fault.Refusal.reason) S.Store.model start items.now turns.now store.old workers.old (log_view log.old) store.new workers.new (log_view log.new) result }
    ensures fault { MatchResult result (λ d. IfSome d.stop (λ s. TurnFault S.Fault.Refusal.reason S.Fault.Refusal.layer s.fault)) LayOutFault }
    ensures lender { S.Store.lender store.new ≡ S.Store.lender store.old }
    ensures lent { log_lender log.new ≡ log_lender log.old }
{
    let mut receiver = Receiver::new();
    let permit = lay_out(store, &mut receiver, workers, log, start).map_err(RunFault::Below)?;
    let mut parts = Parts {
        store,
        receiver: &mut receiver,
        workers,
        log,
    };
    Ok(perform(&mut parts, permit, items, turns))
}

// Lays a queue out at `start` and takes the turns one after the other: 0 is the receiver, which submits the next item
// where its hand is empty and else makes a step; k is worker k - 1. After the last turn, or one that is refused, it
// withdraws and closes. The receiver is its own, so it takes the other parts one by one. A party is the number that the
// text of a plan has for it.
pub fn rehearse<I: ItemKind, S: Store<Item = I>>(
    store: &mut S,
    workers: &mut [Worker<I>],
    log: &mut Log<'_, I>,
    start: u64,
    items: &[I],
    turns: &[usize],
) -> Result<Rehearsed<RunFault<QueueFault<S::Fault>>>, RunFault<QueueFault<S::Fault>>>
    ensures rehearses { Rehearses I.ItemKind.blank (queue_reason S.Fault.Refusal.reason) S.Store.model start items.now turns.now store.old workers.old (log_view log.old) store.new workers.new (log_view log.new) result }
    ensures fault { MatchResult result (λ d. IfSome d.stop (λ s. TurnFault S.Fault.Refusal.reason S.Fault.Refusal.layer s.fault)) LayOutFault }
    ensures lender { S.Store.lender store.new ≡ S.Store.lender store.old }
    ensures lent { log_lender log.new ≡ log_lender log.old }
{
    laid_out(store, workers, log, start, items, turns)
}
