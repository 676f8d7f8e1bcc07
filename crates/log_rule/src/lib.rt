//! What the passes of a cell know of its one log, and the rule of the table that they share: a ticket lock about the
//! state, and one log of which each pass has seen a prefix. There is no code: each kind of step keeps the rule.
#![tactic(auto)]

mod lawful;
pub mod laws;
mod view;

pub use lawful::Lawful;
pub use view::{Book, CellFacts, Role, View};
