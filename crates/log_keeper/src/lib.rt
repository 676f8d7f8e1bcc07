//! A log of rows in a file, which a crash at any moment leaves with whole slices of rows.
//! The contract: at each moment of a `keep` every file that a crash may leave holds the rows from before, or those and the
//! slice, and after Ok only the latter; what `open` answers is what the file holds.
#![tactic(auto)]

mod beginning;
mod header;
mod keeper;
pub mod laws;
mod opening;
mod reading;
mod records;
mod refusal;
mod settling;
mod spelled;

pub use keeper::{LogKeeper, Opened};
pub use refusal::KeepRefusal;
