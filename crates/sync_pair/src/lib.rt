//! The exchange of two stores in memory: each of two sides hears what the other says.
//! The contract: the bytes of each turn, the rows that each side gets and the number of items are those of the exchange.
//! Its laws say what both stores come to hold, and what that costs.
#![tactic(auto)]

pub mod laws;
mod meet;
mod pass;
mod peer;

pub use meet::{PairRun, meet_rows};
pub use sync_core::SNAPSHOT_MAX;
