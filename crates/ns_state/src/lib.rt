//! The state of one namespace: the log of the rows that were stored, each with the number of the pass that offered it,
//! and what is live of them, by place and by recency.
//! Its one contract: an offer of a row does what the machine of a log does, and the store is live of the log.
#![tactic(auto)]

pub mod laws;
mod live_log;
mod log;
mod newest;
mod positions;
mod ranking;
mod state;

pub use live_log::{LOG_LIMIT, LiveLog, LogFull};
pub use state::{NsState, Told};
