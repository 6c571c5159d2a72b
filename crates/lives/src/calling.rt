// One call of a life, made through the queue's own calls.
ghost use Rattle.lives.specs.Lent.{queue_view, SameParts};
ghost use Rattle.lives.specs.Permits.{permit_of};
ghost use Rattle.lives.specs.Turns.{Makes, told, Accepted, FaultOf};
ghost use Rattle.protocol.specs.Lives.{left_by};
ghost use Rattle.protocol.specs.State.{Permit, free, full};
ghost use Rattle.protocol.specs.declared.answer.Call.TheVariants.{Submit, Withdraw, ReceiverStep as StepCall, WorkerStep, Close};
ghost use Rattle.queue.specs.Faults.{queue_reason};
ghost use Rattle.queue.specs.Receivers.{step_said};
ghost use Rattle.std.specs.Prelude.{◌≡◌, Ok, MatchResult};

use crate::held::Held;
use crate::parts::Parts;
use items::ItemKind;
use protocol::{Answer, Call, ReceiverAnswer};
use queue::{FreePermit, FullPermit, QueueFault, ReceiverStep, Refused, worker_step};
use stores::Store;

// The permit after a call, and its answer or the fault for which it was refused.
pub struct Turn<I, F> {
    pub held: Held,
    pub answer: Result<Answer<I>, F>,
}

impl<I, F> Turn<I, F> {
    // A call for which the permit is not at hand.
    fn not_made(held: Held) -> Turn<I, F>
        ensures held { result.held ≡ held }
        ensures answer { result.answer ≡ Ok Answer.NotMade }
    {
        Turn {
            held,
            answer: Ok(Answer::NotMade),
        }
    }

    // An accepted step of the receiver.
    fn received(step: ReceiverStep) -> Turn<I, F>
        ensures held { permit_of result.held ≡ left_by (step_said step) }
        ensures answer { result.answer ≡ Ok (Answer.Received (step_said step)) }
    {
        let (held, answer) = match step {
            ReceiverStep::Stepped(full, phase, tail) => {
                (Held::Full(full), ReceiverAnswer::Stepped(phase, tail))
            }
            ReceiverStep::Skipped(full, rank) => (Held::Full(full), ReceiverAnswer::Skipped(rank)),
            ReceiverStep::Announced(free, rank) => {
                (Held::Free(free), ReceiverAnswer::Announced(rank))
            }
        };
        Turn {
            held,
            answer: Ok(Answer::Received(answer)),
        }
    }
}

impl<I: ItemKind, S: Store<Item = I>> Parts<'_, '_, '_, '_, '_, I, S> {
    fn submit(&mut self, permit: FreePermit, item: I) -> Turn<I, QueueFault<S::Fault>>
        ensures made { Makes I.ItemKind.blank (queue_view S.Store.model self.old free) (Submit item) (queue_view S.Store.model self.new (permit_of result.held)) (told (queue_reason S.Fault.Refusal.reason) result.answer) }
        ensures fault { MatchResult result.answer Accepted (FaultOf S.Fault.Refusal.reason S.Fault.Refusal.layer (Submit item)) }
        ensures lent { SameParts S.Store.lender self.old self.new }
    {
        match self.receiver.submit(self.store, permit, item) {
            Ok(full) => Turn {
                held: Held::Full(full),
                answer: Ok(Answer::Submitted),
            },
            Err(Refused { permit, fault }) => Turn {
                held: Held::Free(permit),
                answer: Err(fault),
            },
        }
    }

    fn withdraw(&mut self, permit: FullPermit) -> Turn<I, QueueFault<S::Fault>>
        ensures made { Makes I.ItemKind.blank (queue_view S.Store.model self.old full) Withdraw (queue_view S.Store.model self.new (permit_of result.held)) (told (queue_reason S.Fault.Refusal.reason) result.answer) }
        ensures fault { MatchResult result.answer Accepted (FaultOf {X = I} S.Fault.Refusal.reason S.Fault.Refusal.layer Withdraw) }
        ensures lent { SameParts S.Store.lender self.old self.new }
    {
        let (item, free) = self.receiver.withdraw(permit);
        Turn {
            held: Held::Free(free),
            answer: Ok(Answer::Withdrew(item)),
        }
    }

    fn receiver_step(&mut self, permit: FullPermit) -> Turn<I, QueueFault<S::Fault>>
        ensures made { Makes I.ItemKind.blank (queue_view S.Store.model self.old full) StepCall (queue_view S.Store.model self.new (permit_of result.held)) (told (queue_reason S.Fault.Refusal.reason) result.answer) }
        ensures fault { MatchResult result.answer Accepted (FaultOf {X = I} S.Fault.Refusal.reason S.Fault.Refusal.layer StepCall) }
        ensures lent { SameParts S.Store.lender self.old self.new }
    {
        match self.receiver.step(self.store, permit) {
            Ok(step) => Turn::received(step),
            Err(Refused { permit, fault }) => Turn {
                held: Held::Full(permit),
                answer: Err(fault),
            },
        }
    }

    fn close(&mut self, permit: FreePermit) -> Turn<I, QueueFault<S::Fault>>
        ensures made { Makes I.ItemKind.blank (queue_view S.Store.model self.old free) Close (queue_view S.Store.model self.new (permit_of result.held)) (told (queue_reason S.Fault.Refusal.reason) result.answer) }
        ensures fault { MatchResult result.answer Accepted (FaultOf {X = I} S.Fault.Refusal.reason S.Fault.Refusal.layer Close) }
        ensures lent { SameParts S.Store.lender self.old self.new }
    {
        match self.receiver.close(self.store, permit) {
            Ok(mark) => Turn {
                held: Held::Spent,
                answer: Ok(Answer::Closed(mark)),
            },
            Err(Refused { permit, fault }) => Turn {
                held: Held::Free(permit),
                answer: Err(fault),
            },
        }
    }

    fn work(&mut self, k: usize) -> Result<Answer<I>, QueueFault<S::Fault>>
        ensures made { (p : Permit) → Makes I.ItemKind.blank (queue_view S.Store.model self.old p) (WorkerStep k) (queue_view S.Store.model self.new p) (told (queue_reason S.Fault.Refusal.reason) result) }
        ensures fault { MatchResult result Accepted (FaultOf {X = I} S.Fault.Refusal.reason S.Fault.Refusal.layer (WorkerStep k)) }
        ensures lent { SameParts S.Store.lender self.old self.new }
    {
        worker_step(self.store, self.workers, self.log, k).map(Answer::Worked)
    }

    // Makes one call of a life, through the queue's own; one whose permit is not at hand is passed over. As a function of
    // its own it made a turn over a turned block memory a quarter longer.
    #[inline(always)]
    pub fn make(&mut self, held: Held, call: Call<I>) -> Turn<I, QueueFault<S::Fault>>
        ensures made { Makes I.ItemKind.blank (queue_view S.Store.model self.old (permit_of held)) call (queue_view S.Store.model self.new (permit_of result.held)) (told (queue_reason S.Fault.Refusal.reason) result.answer) }
        ensures fault { MatchResult result.answer Accepted (FaultOf S.Fault.Refusal.reason S.Fault.Refusal.layer call) }
        ensures lent { SameParts S.Store.lender self.old self.new }
    {
        match (call, held) {
            (Call::WorkerStep(k), held) => {
                let answer = self.work(k);
                Turn { held, answer }
            }
            (Call::Submit(item), Held::Free(permit)) => self.submit(permit, item),
            (Call::Close, Held::Free(permit)) => self.close(permit),
            (Call::ReceiverStep, Held::Full(permit)) => self.receiver_step(permit),
            (Call::Withdraw, Held::Full(permit)) => self.withdraw(permit),
            (_, held) => Turn::not_made(held),
        }
    }
}
