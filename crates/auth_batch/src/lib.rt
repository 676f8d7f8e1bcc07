//! A checker of rows that remembers the capabilities which it found valid, and lets rows be checked on all processors.
//! The contract is that of the checkers: the verdicts are those of `PlainChecker`, whatever is remembered.
#![tactic(auto)]

mod checker;
pub mod laws;
mod valid;

pub use checker::{CachedChecker, REMEMBERED};
