//! The log file of a server.

use cap_codec::RawRows;
use log_keeper::LogKeeper;
use willow_outside::Disk;

/// A log file that is open: its keeper, how many rows it held when it was last made, opened or written, and up to which row of
/// the log it was kept.
#[derive(Drop)]
pub(crate) struct LogFile<K: Disk> {
    pub(crate) keeper: LogKeeper<RawRows, K>,
    pub(crate) kept: u64,
    pub(crate) front: u32,
}
