//! The store of rows that is looked through only where a row's prefixes and extensions stand, and its snapshots.
//! Its one contract: after an ingest the rows are what is live of the old rows with the new one added.
#![tactic(auto)]

mod block;
mod changing;
pub mod laws;
mod looking;
mod reading;

pub use changing::store::BlockStore;
pub use looking::hint::Hint;
pub use reading::rows::Rows;
pub use reading::snapshot::Snapshot;
pub use reading::time_order::TimeOrder;
