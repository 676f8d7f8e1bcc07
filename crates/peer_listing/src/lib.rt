//! Lines of entries, keys and drills, and the rows of a generator.
//! The contract: a call appends just the line that the definitions give, or leaves the vector as it was.
#![tactic(auto)]

mod frames;
mod generator;
pub mod laws;
mod listing;
mod rows;
mod signing;
mod summary;
mod writers;

pub use generator::{GENERATED_ROWS, generated_row, generator_namespace};
pub use listing::{key_line, listing_head, listing_line};
pub use summary::{DrillCounts, drill_summary};
pub use writers::Generator;
