//! What is read of rows that stand: a snapshot, and what it tells of a box, along the blocks or by time.

pub(crate) mod boxes;
pub(crate) mod by_time;
pub(crate) mod fingerprint;
pub(crate) mod listing;
pub(crate) mod rows;
pub(crate) mod runs;
pub(crate) mod snapshot;
pub(crate) mod summary;
pub(crate) mod time_order;
pub(crate) mod walk;
