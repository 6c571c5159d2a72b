// Replays a life: a lay out, and then any list of calls.
ghost use Rattle.std.specs.Prelude.{◌≡◌, slice_set};
ghost use Rattle.queue.specs.Faults.{queue_reason};
ghost use Rattle.lives.specs.Lent.{queue_view, SameParts};
ghost use Rattle.lives.specs.Permits.{permit_of};
ghost use Rattle.lives.specs.Replays.{Lived, Replayed};
ghost use Rattle.lives.specs.Turns.{told};

use crate::calling::Turn;
use crate::held::Held;
use crate::parts::Parts;
use items::ItemKind;
use protocol::{Answer, Call};
use queue::{QueueFault, lay_out};
use stores::{Refusal, Store};

// A refusal is told by its number and its place.
fn told<I, F: Refusal>(answer: Result<Answer<I>, F>) -> Answer<I>
    ensures { result ≡ told F.Refusal.reason answer }
{
    answer.unwrap_or_else(|fault| Answer::Refused {
        number: fault.number(),
        place: fault.place(),
    })
}

// Writes an answer into its slot, if there is one. By number: of a slot that `get_mut` lends too little is known.
fn put_answer<I: Copy>(answers: &mut [Answer<I>], i: usize, answer: Answer<I>)
    ensures { answers.new ≡ slice_set answers.old i answer }
{
    if i < answers.len() {
        answers[i] = answer;
    }
}

impl<I: ItemKind, S: Store<Item = I>> Parts<'_, '_, '_, '_, '_, I, S> {
    // Makes the calls one after the other.
    fn follow(&mut self, held: Held, calls: &[Call<I>], answers: &mut [Answer<I>]) -> Held
        ensures lived { Lived I.ItemKind.blank (queue_view S.Store.model self.old (permit_of held)) calls.now (queue_view S.Store.model self.new (permit_of result)) answers.old answers.new }
        ensures lent { SameParts S.Store.lender self.old self.new }
    {
        let mut held = held;
        for (i, call) in calls.iter().enumerate() {
            let Turn { held: next, answer } = self.make(held, *call);
            put_answer(answers, i, told(answer));
            held = next;
        }
        held
    }

    fn live(
        &mut self,
        start: u64,
        calls: &[Call<I>],
        answers: &mut [Answer<I>],
    ) -> Result<Held, QueueFault<S::Fault>>
        ensures replayed { Replayed I.ItemKind.blank (queue_reason S.Fault.Refusal.reason) S.Store.model start calls.now self.old answers.old self.new answers.new result }
        ensures lent { SameParts S.Store.lender self.old self.new }
    {
        let permit = lay_out(self.store, self.receiver, self.workers, self.log, start)?;
        Ok(self.follow(Held::Free(permit), calls, answers))
    }

    // Lays a queue out at `start` and makes these calls, each through the queue's own; one whose permit is not at hand is
    // passed over. The answer of each goes into its slot, as many as there are: the caller lends them, since a queue asks
    // for no heap. It hands back the permit that it then holds. What the whole life promises stands on this contract.
    pub fn replay(
        &mut self,
        start: u64,
        calls: &[Call<I>],
        answers: &mut [Answer<I>],
    ) -> Result<Held, QueueFault<S::Fault>>
        ensures replayed { Replayed I.ItemKind.blank (queue_reason S.Fault.Refusal.reason) S.Store.model start calls.now self.old answers.old self.new answers.new result }
        ensures lent { SameParts S.Store.lender self.old self.new }
    {
        self.live(start, calls, answers)
    }
}
