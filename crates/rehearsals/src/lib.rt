// The program `rehearse` as one function: from the bytes of its input to those of its output.
#![tactic(auto)]

mod output;
mod staging;

pub use output::rehearsal_text;
