// A worker's step, by its phase.
ghost use Rattle.std.specs.Prelude.{◌≡◌, ℕ, ◌<◌, IfErr, Ok, OnErr};
ghost use Rattle.protocol.specs.Records.{Log as LogRecord};
ghost use Rattle.protocol.specs.Rules.{takes, looks, work_in};
ghost use Rattle.protocol.specs.declared.answer.WorkerAnswer.{WorkerAnswer as AnswerOf};
ghost use Rattle.protocol.specs.declared.record.WorkerPhase.TheVariants.{Seeking, Doubting, Sure, Copied};
ghost use Rattle.queue.specs.Faults.{queue_reason, Carries};
ghost use Rattle.queue.specs.Logs.{log_view, log_lender};
ghost use Rattle.queue.specs.Workers.{moved_view, moved_answer};
ghost use Rattle.stores.specs.Model.{size};

use crate::cells::cell_of;
use crate::fault::QueueFault;
use crate::log::Log;
use crate::numbers;
use items::ItemKind;
use protocol::{Entry, Worker, WorkerAnswer, WorkerPhase};
use stores::Store;

// What a step makes of a worker's record, and its answer.
#[derive(Drop)]
pub(crate) struct Moved<I> {
    pub(crate) answer: WorkerAnswer<I>,
    pub(crate) worker: Worker<I>,
}

// Only the phase changes.
fn in_phase<I: Copy>(w: Worker<I>, phase: WorkerPhase, answer: WorkerAnswer<I>) -> Moved<I>
    ensures answer { result.answer ≡ answer }
    ensures worker { result.worker ≡ record { phase = phase; rank = w.rank; copy = w.copy } }
{
    Moved {
        answer,
        worker: Worker { phase, ..w },
    }
}

// The same, where the answer is the new phase.
fn to_phase<I: Copy>(w: Worker<I>, phase: WorkerPhase) -> Moved<I>
    ensures answer { result.answer ≡ WorkerAnswer.Stepped phase w.rank }
    ensures worker { result.worker ≡ record { phase = phase; rank = w.rank; copy = w.copy } }
{
    in_phase(w, phase, WorkerAnswer::Stepped(phase, w.rank))
}

// Idle or passed: takes the next rank, unless the queue is over. The store's refusal is carried whole.
fn take_next<I: ItemKind, S: Store<Item = I>, A: FnOnce(Worker<I>) -> WorkerAnswer<I>>(
    store: &mut S,
    w: Worker<I>,
    answer: A,
) -> Result<Moved<I>, QueueFault<S::Fault>>
    requires cells { 0 < size (S.Store.model store.old) }
    requires answers { A.IsAlwaysCallable answer }
    ensures answer { (k : ℕ) (l : LogRecord I) (a : ℕ → AnswerOf I) → ((r : ℕ) (v : AnswerOf I) → A.post answer (record { phase = Seeking; rank = r; copy = w.copy }) v → v ≡ a r) → moved_answer (queue_reason S.Fault.Refusal.reason) result ≡ (takes I.ItemKind.blank k w (S.Store.model store.old) l a).answer }
    ensures carries { IfErr result (Carries S.Fault.Refusal.reason S.Fault.Refusal.layer) }
    ensures model { (k : ℕ) (l : LogRecord I) (a : ℕ → AnswerOf I) → S.Store.model store.new ≡ (takes I.ItemKind.blank k w (S.Store.model store.old) l a).store }
    ensures refused { OnErr result (store.new ≡ store.old) }
    ensures lender { S.Store.lender store.new ≡ S.Store.lender store.old }
{
    let mark = store.end_mark();
    if numbers::is_ended(mark, store.head()) {
        return Ok(in_phase(w, WorkerPhase::Idle, WorkerAnswer::Over(mark)));
    }
    let rank = store.next_rank().map_err(QueueFault::Below)?;
    let worker = Worker {
        phase: WorkerPhase::Seeking,
        rank,
        ..w
    };
    Ok(Moved {
        answer: answer(worker),
        worker,
    })
}

// Seeking or marked: looks whether the own rank stands in its cell. A marked worker looks once more, since the rank
// may have been put before the gap.
fn look<I: ItemKind, S: Store<Item = I>>(store: &S, w: Worker<I>, absent: WorkerPhase) -> Moved<I>
    requires { 0 < size (S.Store.model store.now) }
    ensures answer { (k : ℕ) (l : LogRecord I) → Ok (moved_view result) ≡ (looks I.ItemKind.blank k w (S.Store.model store.now) l absent).answer }
{
    let stored = store.rank(cell_of(store, w.rank)).unwrap();
    if numbers::is_rank(stored, w.rank) {
        to_phase(w, WorkerPhase::Sure)
    } else {
        to_phase(w, absent)
    }
}

// Doubting: looks whether the own rank was skipped, or cut off.
fn doubt<I: ItemKind, S: Store<Item = I>>(store: &S, w: Worker<I>) -> Moved<I>
    requires { 0 < size (S.Store.model store.now) }
    ensures answer { (k : ℕ) (l : LogRecord I) → Ok (moved_view result) ≡ (work_in I.ItemKind.blank k w (S.Store.model store.now) l Doubting).answer }
{
    let gap = store.gap(cell_of(store, w.rank)).unwrap();
    if numbers::covers_rank(gap, w.rank) {
        to_phase(w, WorkerPhase::Marked)
    } else if numbers::is_ended(store.end_mark(), w.rank) {
        in_phase(w, WorkerPhase::Idle, WorkerAnswer::GivenUp(w.rank))
    } else {
        in_phase(w, WorkerPhase::Seeking, WorkerAnswer::Waiting(w.rank))
    }
}

// Sure: copies the item of the own cell.
fn copy_item<I: ItemKind, S: Store<Item = I>>(store: &S, w: Worker<I>) -> Moved<I>
    requires { 0 < size (S.Store.model store.now) }
    ensures answer { (k : ℕ) (l : LogRecord I) → Ok (moved_view result) ≡ (work_in I.ItemKind.blank k w (S.Store.model store.now) l Sure).answer }
{
    let copy = store.item(cell_of(store, w.rank)).unwrap();
    to_phase(Worker { copy, ..w }, WorkerPhase::Copied)
}

// Copied: frees the cell, and logs the item.
fn deliver<I: ItemKind, S: Store<Item = I>>(
    store: &mut S,
    log: &mut Log<'_, I>,
    k: usize,
    w: Worker<I>,
) -> Result<Moved<I>, QueueFault<S::Fault>>
    requires { 0 < size (S.Store.model store.old) }
    ensures answer { moved_answer (queue_reason S.Fault.Refusal.reason) result ≡ (work_in I.ItemKind.blank k w (S.Store.model store.old) (log_view log.old) Copied).answer }
    ensures carries { IfErr result (Carries S.Fault.Refusal.reason S.Fault.Refusal.layer) }
    ensures model { S.Store.model store.new ≡ (work_in I.ItemKind.blank k w (S.Store.model store.old) (log_view log.old) Copied).store }
    ensures log { log_view log.new ≡ (work_in I.ItemKind.blank k w (S.Store.model store.old) (log_view log.old) Copied).log }
    ensures refused { OnErr result ((store.new ≡ store.old) × (log.new ≡ log.old)) }
    ensures lender { S.Store.lender store.new ≡ S.Store.lender store.old }
    ensures lent { log_lender log.new ≡ log_lender log.old }
{
    if log.is_full() {
        return Err(QueueFault::LogFull(k));
    }
    let cell = cell_of(store, w.rank);
    store.put_rank(cell, -1).unwrap();
    log.append(Entry {
        rank: w.rank,
        worker: k,
        item: w.copy,
    });
    Ok(in_phase(
        w,
        WorkerPhase::Idle,
        WorkerAnswer::Delivered(w.rank, w.copy),
    ))
}

// The phase is data of the worker's record, so a `match`, and no table of steps.
pub(crate) fn step_in_phase<I: ItemKind, S: Store<Item = I>>(
    store: &mut S,
    log: &mut Log<'_, I>,
    k: usize,
    w: Worker<I>,
) -> Result<Moved<I>, QueueFault<S::Fault>>
    requires { 0 < size (S.Store.model store.old) }
    ensures answer { moved_answer (queue_reason S.Fault.Refusal.reason) result ≡ (work_in I.ItemKind.blank k w (S.Store.model store.old) (log_view log.old) w.phase).answer }
    ensures carries { IfErr result (Carries S.Fault.Refusal.reason S.Fault.Refusal.layer) }
    ensures model { S.Store.model store.new ≡ (work_in I.ItemKind.blank k w (S.Store.model store.old) (log_view log.old) w.phase).store }
    ensures log { log_view log.new ≡ (work_in I.ItemKind.blank k w (S.Store.model store.old) (log_view log.old) w.phase).log }
    ensures refused { OnErr result ((store.new ≡ store.old) × (log.new ≡ log.old)) }
    ensures lender { S.Store.lender store.new ≡ S.Store.lender store.old }
    ensures lent { log_lender log.new ≡ log_lender log.old }
{
    match w.phase {
        // Closures over the worker: of a variant as a function the check knows too little.
        WorkerPhase::Idle => take_next(store, w, |w| WorkerAnswer::Claimed(w.rank)),
        WorkerPhase::Seeking => Ok(look(store, w, WorkerPhase::Doubting)),
        WorkerPhase::Doubting => Ok(doubt(store, w)),
        WorkerPhase::Marked => Ok(look(store, w, WorkerPhase::Passed)),
        WorkerPhase::Passed => take_next(store, w, |w| WorkerAnswer::MovedOn(w.rank)),
        WorkerPhase::Sure => Ok(copy_item(store, w)),
        WorkerPhase::Copied => deliver(store, log, k, w),
    }
}
