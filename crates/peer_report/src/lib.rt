//! From the end of a command to its status and the report's lines: the one place where either is made.
//! The contract: just the lines of that end are written, and the status is that of the end, unless the report itself fails.
#![tactic(auto)]

mod lines;
mod links;
mod report;

pub use report::end_run;
