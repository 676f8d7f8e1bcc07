//! Which rows of an area are offered in a session: the most recent, as far as limits leave.
//! Its one contract: they are the longest front of the area's newest rows that keeps both limits.
#![tactic(auto)]

mod chosen;
mod index;
mod inside;
mod interest;
mod last;
pub mod laws;

pub use interest::{Interest, offered};
