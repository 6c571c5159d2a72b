// A worker's step.
ghost use Rattle.std.specs.Prelude.{◌≡◌, ◌<◌, IfErr, OnErr};
ghost use Rattle.stores.specs.Model.{size};
ghost use Rattle.protocol.specs.Rules.{one_step, worker_step};
ghost use Rattle.queue.specs.Faults.{queue_reason, Carries};
ghost use Rattle.queue.specs.Logs.{log_view, log_lender};
ghost use Rattle.queue.specs.Workers.{moved_answer, worker_answer};

use crate::fault::QueueFault;
use crate::log::Log;
use crate::worker::phases::{Moved, step_in_phase};
use items::ItemKind;
use protocol::{Worker, WorkerAnswer, WorkerPhase};
use stores::Store;

mod phases;

// One step of worker `k`: only its record in the table changes.
pub fn worker_step<I: ItemKind, S: Store<Item = I>>(
    store: &mut S,
    workers: &mut [Worker<I>],
    log: &mut Log<'_, I>,
    k: usize,
) -> Result<WorkerAnswer<I>, QueueFault<S::Fault>>
    ensures answer { worker_answer (queue_reason S.Fault.Refusal.reason) result ≡ (worker_step I.ItemKind.blank k workers.old (S.Store.model store.old) (log_view log.old)).answer }
    ensures carries { IfErr result (Carries S.Fault.Refusal.reason S.Fault.Refusal.layer) }
    ensures workers { workers.new ≡ (worker_step I.ItemKind.blank k workers.old (S.Store.model store.old) (log_view log.old)).workers }
    ensures model { S.Store.model store.new ≡ (worker_step I.ItemKind.blank k workers.old (S.Store.model store.old) (log_view log.old)).store }
    ensures log { log_view log.new ≡ (worker_step I.ItemKind.blank k workers.old (S.Store.model store.old) (log_view log.old)).log }
    ensures refused { OnErr result ((store.new ≡ store.old) × (workers.new ≡ workers.old) × (log.new ≡ log.old)) }
    ensures lender { S.Store.lender store.new ≡ S.Store.lender store.old }
    ensures lent { log_lender log.new ≡ log_lender log.old }
{
    if store.cells() == 0 {
        return Err(QueueFault::NoCells);
    }
    let Some(&w) = workers.get(k) else {
        return Err(QueueFault::NoSuchWorker(k));
    };
    let moved = one_step(store, log, k, w)?;
    workers[k] = moved.worker;
    Ok(moved.answer)
}

// One step of worker k, whose record is `w`.
fn one_step<I: ItemKind, S: Store<Item = I>>(
    store: &mut S,
    log: &mut Log<'_, I>,
    k: usize,
    w: Worker<I>,
) -> Result<Moved<I>, QueueFault<S::Fault>>
    requires { 0 < size (S.Store.model store.old) }
    ensures answer { moved_answer (queue_reason S.Fault.Refusal.reason) result ≡ (one_step I.ItemKind.blank k w (S.Store.model store.old) (log_view log.old)).answer }
    ensures carries { IfErr result (Carries S.Fault.Refusal.reason S.Fault.Refusal.layer) }
    ensures model { S.Store.model store.new ≡ (one_step I.ItemKind.blank k w (S.Store.model store.old) (log_view log.old)).store }
    ensures log { log_view log.new ≡ (one_step I.ItemKind.blank k w (S.Store.model store.old) (log_view log.old)).log }
    ensures refused { OnErr result ((store.new ≡ store.old) × (log.new ≡ log.old)) }
    ensures lender { S.Store.lender store.new ≡ S.Store.lender store.old }
    ensures lent { log_lender log.new ≡ log_lender log.old }
{
    if w.phase != WorkerPhase::Idle && w.rank >= store.head() {
        return Err(QueueFault::RankOutOfRange(k));
    }
    step_in_phase(store, log, k, w)
}
