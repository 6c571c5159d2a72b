// Calls, answers and entries in plain words. These types print them for this program, which tells an item by its probe
// alone.
use items::Reading;
use protocol::{Answer, Call, Entry, WorkerAnswer};
use std::fmt;

#[derive(Drop)]
pub(crate) struct CallText(pub(crate) Call<Reading>);

#[derive(Drop)]
pub(crate) struct AnswerText(pub(crate) Answer<Reading>);

#[derive(Drop)]
pub(crate) struct EntryText(pub(crate) Entry<Reading>);

#[derive(Drop)]
struct WorkerText(WorkerAnswer<Reading>);

impl fmt::Display for CallText {
    fn fmt<W: fmt::Write>(&self, f: &mut fmt::Formatter<W>) -> fmt::Result {
        match self.0 {
            Call::Submit(item) => {
                let probe = item.probe;
                write!(f, "submit probe {probe}")
            }
            Call::Withdraw => write!(f, "withdraw"),
            Call::ReceiverStep => write!(f, "receiver"),
            Call::WorkerStep(k) => write!(f, "worker {k}"),
            Call::Close => write!(f, "close"),
        }
    }
}

impl fmt::Display for WorkerText {
    fn fmt<W: fmt::Write>(&self, f: &mut fmt::Formatter<W>) -> fmt::Result {
        match self.0 {
            WorkerAnswer::Over(mark) => write!(f, "over at {mark}"),
            WorkerAnswer::Claimed(rank) => write!(f, "claimed {rank}"),
            WorkerAnswer::MovedOn(rank) => write!(f, "moved on to {rank}"),
            WorkerAnswer::Waiting(rank) => write!(f, "waiting {rank}"),
            WorkerAnswer::GivenUp(rank) => write!(f, "given up {rank}"),
            WorkerAnswer::Stepped(phase, rank) => write!(f, "{phase} {rank}"),
            WorkerAnswer::Delivered(rank, item) => {
                let probe = item.probe;
                write!(f, "delivered {rank} probe {probe}")
            }
        }
    }
}

impl fmt::Display for AnswerText {
    fn fmt<W: fmt::Write>(&self, f: &mut fmt::Formatter<W>) -> fmt::Result {
        match self.0 {
            Answer::NotMade => write!(f, "not made"),
            Answer::Refused { number, place } => write!(f, "refused {number} {place}"),
            Answer::Submitted => write!(f, "submitted"),
            Answer::Withdrew(Some(item)) => {
                let probe = item.probe;
                write!(f, "withdrew probe {probe}")
            }
            Answer::Withdrew(None) => write!(f, "withdrew nothing"),
            Answer::Received(answer) => write!(f, "{answer}"),
            Answer::Worked(answer) => {
                let answer = WorkerText(answer);
                write!(f, "{answer}")
            }
            Answer::Closed(mark) => write!(f, "closed at {mark}"),
        }
    }
}

impl fmt::Display for EntryText {
    fn fmt<W: fmt::Write>(&self, f: &mut fmt::Formatter<W>) -> fmt::Result {
        let rank = self.0.rank;
        let worker = self.0.worker;
        let probe = self.0.item.probe;
        write!(f, "{rank} {worker} {probe}")
    }
}
