// The protocol of the hand-over queue: its records and answers, the rules of each call, the account of a history,
// and the promise over whole lives of a queue with its proof. The calls themselves are in the crate above.
#![tactic(auto)]

mod answer;
mod blank;
mod record;
mod theorem;
mod words;

pub use answer::{Answer, Call, ReceiverAnswer, WorkerAnswer};
pub use record::{Entry, ReceiverPhase, Worker, WorkerPhase};
pub use theorem::whole_life;
