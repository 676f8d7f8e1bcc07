//! Rows of a stream that comes in any pieces: row frames, one after the other.
//! The contract: over any cutting into pieces, the rows handed out are those at the front of the stream, and what is
//! refused is told at the same offset.
#![tactic(auto)]

mod begun;
mod frame;
pub mod laws;
mod reading;
mod refusal;
mod stream;

pub use refusal::StreamRefusal;
pub use stream::RowStream;
