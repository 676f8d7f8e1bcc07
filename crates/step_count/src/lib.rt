//! A counter of work that takes no bytes and no time when the program runs.
//! The contract: a step counts one, and nothing else moves the count, so a bound on it is a bound on the work.
#![tactic(auto)]

mod steps;

pub use steps::Steps;
