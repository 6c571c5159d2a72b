// Runs of a queue: a drain, and a rehearsal. They see only what the queue, its lives and the stores promise.
#![tactic(auto)]

mod draining;
mod fault;
mod rehearsing;

pub use draining::{DrainStop, Drained, drain};
pub use fault::RunFault;
pub use rehearsing::{Rehearsed, Stop, rehearse};
