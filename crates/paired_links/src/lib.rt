//! Links for tests that run sessions in threads: the two ends of a link between two threads, and a link in memory behind
//! a gate that another thread opens. They lock and wait, so no crate of the program stands on them.
#![tactic(auto)]

mod channel;
mod gate_link;
mod pair_link;
mod pipe;

pub use gate_link::GateLink;
pub use pair_link::{PairLink, pair};
