//! Texts of refusals and of how sessions end, as the report tells them.
//! The contract: a call appends just the text that the definitions give, or leaves the vector as it was.
#![tactic(auto)]

mod refusals;
mod session;

pub use refusals::row_refusal_text;
pub use session::session_end_text;
