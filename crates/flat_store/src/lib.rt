//! The plain store of rows: one list by rising place, looked through from front to end.
//! Its one contract: after an ingest the rows are what is live of the old rows with the new one added.
#![tactic(auto)]

mod store;

pub use store::FlatStore;
