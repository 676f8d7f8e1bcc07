//! How two stores that differ in a box go on: with all of the rows of the box where these are few, else with a cut of
//! the box, in two or in up to four parts.
//! The contract: the choice is made by the rows that the box includes alone, and where these rise by subspace and path,
//! each cut leaves some of them in each part.
#![tactic(auto)]

mod among;
mod choice;
mod even;
mod inside;
pub mod laws;
mod least;
mod load;
mod parts;
mod rows;

pub use choice::{Choice, ENTRIES_MAX, choose};
pub use even::{choose_parts, choose_parts_among};
pub use parts::box_parts;
pub use rows::{nth, row_at};
