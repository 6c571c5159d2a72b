// What is printed of a rehearsal.
#![tactic(auto)]

mod lines;
mod text;

pub use lines::{Stopped, refused_line};
pub use text::report;
