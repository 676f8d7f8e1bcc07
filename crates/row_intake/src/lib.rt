//! The intake of rows that come in messages: what all of some bytes are as a message, how many rows came and what became of
//! them, and what an answer to the one who asked says of that. Sessions take rows in by it, and so do those who follow.
//! The contract: each row is counted once, as stored, kept, missed or refused, and the log covers the authorised ones but for
//! those for which it had no room.
#![tactic(auto)]

mod known;
mod sending;
mod tally;

pub use known::known_raws;
pub use mc_cap::RefusedRow;
pub use sending::send;
pub use tally::Tally;
