//! Fingerprints of sets of rows: how many rows there are, and the sums of their digests in four lanes.
//! The contract: what is added up row by row is the total of the list, and the fingerprint is the digest of that.
#![tactic(auto)]

mod lanes;
pub mod laws;
mod leaf;
mod words;

pub use lanes::Lanes;
pub use leaf::Leaf;
