//! Entries by recency: the newest first.
//! Its one contract: the index holds the items that were put in and not taken out, each in its place of that order.
#![tactic(auto)]

mod index;
pub mod laws;
mod ranked;

pub use index::Recency;
pub use ranked::{Ranked, by_recency, entry_by_recency};
