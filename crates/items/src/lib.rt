// Item kinds: what can be handed over through a store's cells.
#![tactic(auto)]

mod kind;
mod notice;
mod reading;

pub use kind::ItemKind;
pub use notice::Notice;
pub use reading::Reading;
