// Arrangements: where the cells of a store lie in the store below.
#![tactic(auto)]

mod arranged;
mod arrangement;
mod fault;
mod straight;
mod turned;

pub use arranged::ArrangedStore;
pub use arrangement::Arrangement;
pub use fault::ArrangementFault;
pub use straight::Straight;
pub use turned::Turned;

#[cfg(test)]
mod tests;
