// The calls of a queue after its lay out, and what the two kinds of step answer.
use crate::record::{ReceiverPhase, WorkerPhase};

#[derive(Clone, Copy, PartialEq, Eq, Debug)]
pub enum Call<I> {
    Submit(I),
    Withdraw,
    ReceiverStep,
    WorkerStep(usize),
    Close,
}

// What an accepted receiver step answers: its new phase with the tail, or the rank that is skipped or announced.
#[derive(Clone, Copy, PartialEq, Eq, Debug)]
pub enum ReceiverAnswer {
    Stepped(ReceiverPhase, u64),
    Skipped(u64),
    Announced(u64),
}

// What an accepted worker step answers: over with the end mark, else the new phase or the word with a rank.
#[derive(Clone, Copy, PartialEq, Eq, Debug)]
pub enum WorkerAnswer<I> {
    Over(i64),
    Claimed(u64),
    MovedOn(u64),
    Waiting(u64),
    GivenUp(u64),
    Stepped(WorkerPhase, u64),
    Delivered(u64, I),
}

// What a call of a life answers. An event of a history is a call with its answer.
#[derive(Clone, Copy, PartialEq, Eq, Debug)]
pub enum Answer<I> {
    // The permit that the call takes was not at hand.
    NotMade,
    // By number and place: a type of faults would stand in every definition of the promise, which never looks into it.
    Refused { number: u64, place: u64 },
    Submitted,
    Withdrew(Option<I>),
    Received(ReceiverAnswer),
    Worked(WorkerAnswer<I>),
    Closed(i64),
}
