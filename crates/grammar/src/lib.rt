// The text of a plan: three lines that say how a rehearsal of the queue goes.
// Its form is in specs/, and the laws of it in proofs/; the code that reads it is in the crate above.
#![tactic(auto)]

mod plan;

pub use plan::{Header, Stretch};
