// Phases and answers in plain words.
ghost use Rattle.std.specs.Prelude.{Some};
ghost use Rattle.protocol.specs.Words.{receiver_word, worker_word, receiver_answer_text};

use crate::answer::ReceiverAnswer;
use crate::record::{ReceiverPhase, WorkerPhase};
use std::fmt;

impl fmt::Display for ReceiverPhase {
    ghost output = { λ phase. Some (receiver_word phase) };

    fn fmt<W: fmt::Write>(&self, f: &mut fmt::Formatter<W>) -> fmt::Result {
        match self {
            ReceiverPhase::Probing => f.write_str("probing"),
            ReceiverPhase::Busy => f.write_str("busy"),
            ReceiverPhase::Found => f.write_str("found"),
            ReceiverPhase::Filled => f.write_str("filled"),
        }
    }
}

impl fmt::Display for WorkerPhase {
    ghost output = { λ phase. Some (worker_word phase) };

    fn fmt<W: fmt::Write>(&self, f: &mut fmt::Formatter<W>) -> fmt::Result {
        match self {
            WorkerPhase::Idle => f.write_str("idle"),
            WorkerPhase::Seeking => f.write_str("seeking"),
            WorkerPhase::Doubting => f.write_str("doubting"),
            WorkerPhase::Marked => f.write_str("marked"),
            WorkerPhase::Passed => f.write_str("passed"),
            WorkerPhase::Sure => f.write_str("sure"),
            WorkerPhase::Copied => f.write_str("copied"),
        }
    }
}

impl fmt::Display for ReceiverAnswer {
    ghost output = { λ answer. Some (receiver_answer_text answer) };

    fn fmt<W: fmt::Write>(&self, f: &mut fmt::Formatter<W>) -> fmt::Result {
        match self {
            ReceiverAnswer::Stepped(phase, tail) => write!(f, "{phase} {tail}"),
            ReceiverAnswer::Skipped(rank) => write!(f, "skipped {rank}"),
            ReceiverAnswer::Announced(rank) => write!(f, "announced {rank}"),
        }
    }
}
