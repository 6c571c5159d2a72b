// Lays a queue out.
ghost use Rattle.std.specs.Prelude.{◌≡◌, map, IfErr, OnErr};
ghost use Rattle.stores.specs.Model.{size, cleared};
ghost use Rattle.protocol.specs.Rules.{no_lay_out, laid_receiver, idled, emptied_log, unless};
ghost use Rattle.queue.specs.Faults.{queue_reason, reason_of, Own};
ghost use Rattle.queue.specs.Logs.{log_view, log_lender};
ghost use Rattle.queue.specs.Receivers.{receiver_view};

use crate::fault::QueueFault;
use crate::log::Log;
use crate::permit::FreePermit;
use crate::receiver::Receiver;
use items::ItemKind;
use protocol::{Worker, WorkerPhase};
use stores::{MAX_HEAD, Store};

// A worker table has no more records.
pub const MAX_WORKERS: usize = 64;

// Clears the store at `start`, empties the receiver's hand and the log, and makes every worker idle. The parts stand one
// by one, as a rule of this queue: in a gateway the receiver and each worker go into a task of their own.
pub fn lay_out<I: ItemKind, S: Store<Item = I>>(
    store: &mut S,
    receiver: &mut Receiver<I>,
    workers: &mut [Worker<I>],
    log: &mut Log<'_, I>,
    start: u64,
) -> Result<FreePermit, QueueFault<S::Fault>>
    ensures answer { reason_of (queue_reason S.Fault.Refusal.reason) result ≡ no_lay_out (S.Store.model store.old) workers.old start }
    ensures own { IfErr result Own }
    ensures receiver { receiver_view receiver.new ≡ unless (no_lay_out (S.Store.model store.old) workers.old start) (laid_receiver start) (receiver_view receiver.old) }
    ensures workers { workers.new ≡ unless (no_lay_out (S.Store.model store.old) workers.old start) (map idled workers.old) workers.old }
    ensures model { S.Store.model store.new ≡ unless (no_lay_out (S.Store.model store.old) workers.old start) (cleared I.ItemKind.blank (size (S.Store.model store.old)) start) (S.Store.model store.old) }
    ensures log { log_view log.new ≡ unless (no_lay_out (S.Store.model store.old) workers.old start) (emptied_log (log_view log.old)) (log_view log.old) }
    ensures refused { OnErr result ((store.new ≡ store.old) × (receiver.new ≡ receiver.old) × (workers.new ≡ workers.old) × (log.new ≡ log.old)) }
    ensures lender { S.Store.lender store.new ≡ S.Store.lender store.old }
    ensures lent { log_lender log.new ≡ log_lender log.old }
{
    if store.cells() == 0 {
        return Err(QueueFault::NoCells);
    }
    if start >= MAX_HEAD {
        return Err(QueueFault::StartTooHigh);
    }
    let count = workers.len();
    if !(1..=MAX_WORKERS).contains(&count) {
        return Err(QueueFault::WorkerCount(count));
    }
    store.clear(start).unwrap();
    *receiver = Receiver::at(start);
    make_idle(workers);
    log.clear();
    Ok(FreePermit::new())
}

// Ranks and copies stay.
fn make_idle<I: Copy>(workers: &mut [Worker<I>])
    ensures { workers.new ≡ map idled workers.old }
{
    for w in workers.iter_mut() {
        w.phase = WorkerPhase::Idle;
    }
}
