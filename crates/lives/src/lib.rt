// Lives of a queue: any list of calls after a lay out, and the promise over all of them.
#![tactic(auto)]

mod calling;
mod held;
mod parts;
mod replaying;
mod spare;

pub use calling::Turn;
pub use held::Held;
pub use parts::Parts;
