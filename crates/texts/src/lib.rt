// Reads the text of a plan.
#![tactic(auto)]

mod fault;
mod form;
mod lexer;
mod line;
mod meaning;
mod numeral;
mod parser;
mod plan;
mod scan;
mod word;

pub use fault::{ParseFault, TextFault};
pub use lexer::Lexer;
pub use parser::parse;
pub use plan::Plan;
pub use word::{Saying, Word};
