// The calls of the hand-over queue, one step a call, over any store and any item kind.
#![tactic(auto)]

mod cells;
mod fault;
mod laying;
mod log;
mod numbers;
mod permit;
mod receiver;
mod worker;

pub use fault::QueueFault;
pub use laying::{MAX_WORKERS, lay_out};
pub use log::{Log, find};
pub use permit::{FreePermit, FullPermit, ReceiverStep, Refused};
pub use receiver::Receiver;
pub use worker::worker_step;
