// The shared store: its model, its calls and their refusals, and record memory.
#![tactic(auto)]

mod cell;
mod checks;
mod limits;
mod record;
mod refusal;
mod store;

pub use cell::Cell;
pub use checks::{check_cell, check_some, check_start};
pub use limits::{MAX_CELLS, MAX_HEAD};
pub use record::RecordMemory;
pub use refusal::{Layer, Refusal, StoreFault};
pub use store::Store;
