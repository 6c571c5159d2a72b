// Draining a closed queue.
ghost use Rattle.std.specs.Prelude.{◌≡◌, ◌+◌, ◌^◌, ◌<◌, Some, None, IfErr, MatchResult};
ghost use Rattle.stores.specs.Refusals.{Reason};
ghost use Rattle.queue.specs.Faults.{queue_reason};
ghost use Rattle.queue.specs.Logs.{log_view, log_lender};
ghost use Rattle.schedules.specs.Drains.{next_worker, no_drain, drain_from, drained};
ghost use Rattle.schedules.specs.Budgets.{DrainedInTime};
ghost use Rattle.runs.specs.Faults.{run_reason, DrainFault, StepFault};
ghost use Rattle.runs.specs.Drains.{steps_of, outcome_of, OfChecks, DrainedAs};

use crate::fault::RunFault;
use items::ItemKind;
use protocol::{Worker, WorkerAnswer};
use queue::{Log, MAX_WORKERS, QueueFault, worker_step};
use stores::Store;

// A larger budget is cut to this one, which is enough for every queue.
const MAX_BUDGET: u64 = 1 << 43;

// So many steps were made; an unfinished drain has used its budget up. No enum: the steps mean the same in both cases.
#[derive(Clone, Copy, PartialEq, Eq, Debug)]
pub struct Drained {
    pub steps: u64,
    pub finished: bool,
}

// So many steps were made, and stay made, before one was refused.
#[derive(Clone, Copy, PartialEq, Eq, Debug)]
pub struct DrainStop<F> {
    pub steps: u64,
    pub fault: F,
}

impl<F> DrainStop<F> {
    // Before the first step.
    fn before(fault: F) -> DrainStop<F>
        ensures steps { result.steps ≡ 0 }
        ensures fault { result.fault ≡ fault }
    {
        DrainStop { steps: 0, fault }
    }
}

fn next_worker<I: Copy>(answer: WorkerAnswer<I>, k: usize) -> usize
    requires { k + 1 < 2 ^ 64 }
    ensures { result ≡ next_worker answer k }
{
    match answer {
        WorkerAnswer::Over(_) => k + 1,
        _ => k,
    }
}

fn step_each<I: ItemKind, S: Store<Item = I>>(
    store: &mut S,
    workers: &mut [Worker<I>],
    log: &mut Log<'_, I>,
    budget: u64,
) -> Result<Drained, DrainStop<RunFault<QueueFault<S::Fault>>>>
    ensures drained { DrainedAs (queue_reason S.Fault.Refusal.reason) (drain_from I.ItemKind.blank budget 0 0 workers.old (S.Store.model store.old) (log_view log.old)) result workers.new (S.Store.model store.new) (log_view log.new) }
    ensures fault { IfErr result (λ e. StepFault S.Fault.Refusal.reason S.Fault.Refusal.layer e.fault) }
    ensures lender { S.Store.lender store.new ≡ S.Store.lender store.old }
    ensures lent { log_lender log.new ≡ log_lender log.old }
{
    let mut k = 0;
    for steps in 0..budget {
        if k >= workers.len() {
            return Ok(Drained {
                steps,
                finished: true,
            });
        }
        // A `match`: a closure would take the count of the steps, and read no plainer.
        match worker_step(store, workers, log, k) {
            Ok(answer) => k = next_worker(answer, k),
            Err(fault) => {
                return Err(DrainStop {
                    steps,
                    fault: RunFault::Below(fault),
                });
            }
        }
    }
    Ok(Drained {
        steps: budget,
        finished: k >= workers.len(),
    })
}

// What is checked before the first step.
fn check<I: ItemKind, S: Store<Item = I>, F>(
    store: &S,
    workers: &[Worker<I>],
) -> Result<(), DrainStop<RunFault<F>>>
    ensures reason { (reason : F → Reason) → MatchResult result (λ _. no_drain (S.Store.model store.now) workers.now ≡ None) (λ e. no_drain (S.Store.model store.now) workers.now ≡ Some (run_reason reason e.fault)) }
    ensures before { IfErr result (λ e. (e.steps ≡ 0) × OfChecks e.fault) }
{
    if store.cells() == 0 {
        return Err(DrainStop::before(RunFault::NoCells));
    }
    let count = workers.len();
    if !(1..=MAX_WORKERS).contains(&count) {
        return Err(DrainStop::before(RunFault::WorkerCount(count)));
    }
    // Only this mark is an open queue's.
    if store.end_mark() == -1 {
        return Err(DrainStop::before(RunFault::StillOpen));
    }
    Ok(())
}

fn checked<I: ItemKind, S: Store<Item = I>>(
    store: &mut S,
    workers: &mut [Worker<I>],
    log: &mut Log<'_, I>,
    budget: u64,
) -> Result<Drained, DrainStop<RunFault<QueueFault<S::Fault>>>>
    ensures drained { DrainedAs (queue_reason S.Fault.Refusal.reason) (drained I.ItemKind.blank budget workers.old (S.Store.model store.old) (log_view log.old)) result workers.new (S.Store.model store.new) (log_view log.new) }
    ensures fault { IfErr result (λ e. DrainFault S.Fault.Refusal.reason S.Fault.Refusal.layer e.fault) }
    ensures refused { IfErr result (λ e. OfChecks e.fault → (store.new ≡ store.old) × (workers.new ≡ workers.old) × (log.new ≡ log.old)) }
    ensures in_time { DrainedInTime I.ItemKind.blank budget workers.old (S.Store.model store.old) (log_view log.old) (steps_of result) (outcome_of (queue_reason S.Fault.Refusal.reason) result) }
    ensures lender { S.Store.lender store.new ≡ S.Store.lender store.old }
    ensures lent { log_lender log.new ≡ log_lender log.old }
{
    check(store, workers)?;
    step_each(store, workers, log, budget.min(MAX_BUDGET))
}

// Steps worker 0 until it is told over, then worker 1, and so on, for as many steps as the budget allows. It takes the
// workers' parts of the queue one by one: by then the receiver may be gone.
pub fn drain<I: ItemKind, S: Store<Item = I>>(
    store: &mut S,
    workers: &mut [Worker<I>],
    log: &mut Log<'_, I>,
    budget: u64,
) -> Result<Drained, DrainStop<RunFault<QueueFault<S::Fault>>>>
    ensures drained { DrainedAs (queue_reason S.Fault.Refusal.reason) (drained I.ItemKind.blank budget workers.old (S.Store.model store.old) (log_view log.old)) result workers.new (S.Store.model store.new) (log_view log.new) }
    ensures fault { IfErr result (λ e. DrainFault S.Fault.Refusal.reason S.Fault.Refusal.layer e.fault) }
    ensures refused { IfErr result (λ e. OfChecks e.fault → (store.new ≡ store.old) × (workers.new ≡ workers.old) × (log.new ≡ log.old)) }
    ensures in_time { DrainedInTime I.ItemKind.blank budget workers.old (S.Store.model store.old) (log_view log.old) (steps_of result) (outcome_of (queue_reason S.Fault.Refusal.reason) result) }
    ensures lender { S.Store.lender store.new ≡ S.Store.lender store.old }
    ensures lent { log_lender log.new ≡ log_lender log.old }
{
    checked(store, workers, log, budget)
}
