//! One log for all threads: a cell that lets one pass at a time at the state of a namespace.
//! Its one contract: each pass has seen a prefix of the one log, which has just the rows that the passes were told
//! Stored.
#![tactic(auto)]

mod board;
mod cell;
mod joining;
pub mod laws;
mod limits;
mod making;
mod meeting;
mod pass;
mod turn;
mod work;

pub use cell::NsCell;
pub use limits::PASS_LIMIT;
pub use ns_state::{LogFull, NsState, Told};
pub use pass::Pass;
