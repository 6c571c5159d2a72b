// Block memory: a store over lent bytes, laid out in blocks with checks, and the inspection of such bytes.
#![tactic(auto)]

mod clearing;
mod fault;
mod inspection;
mod memory;
mod reading;
mod slices;
mod words;

pub use fault::BlockFault;
pub use inspection::{fits, inspect};
pub use memory::BlockMemory;
pub use reading::{Header, stored_cell, stored_header};
