//! Where the rows of a log stand, as a guess.

use std::alloc::Global;
use std::collections::HashMap;
use std::hash::{FoldHasher, Hasher};
use willow_entry::Row;
use willow_path::NoMemory;

/// The positions of the rows of a log, by a hash of each row's entry. What is told is a guess, which a glance at the log
/// confirms: of two rows with one hash only the later is known. The hash has no secret, so rows can be chosen that share
/// one; then the log is walked over, as it would be without a guess.
#[derive(Drop)]
pub(crate) struct Positions {
    by_hash: HashMap<u64, u32>,
}

impl Positions {
    /// No row is known.
    pub(crate) fn new(alloc: Global) -> Positions {
        Positions {
            by_hash: HashMap::new(alloc),
        }
    }

    /// Makes room for one row more.
    pub(crate) fn reserve(&mut self) -> Result<(), NoMemory> {
        self.by_hash.reserve(1)?;
        Ok(())
    }

    /// The row of this hash is known to stand there, if there is room for it; else the log is walked over for it.
    pub(crate) fn put(&mut self, hash: u64, at: u32) {
        let _known = self.by_hash.insert(hash, at);
    }

    /// Where a row with the entry of this one may stand.
    pub(crate) fn of<R: Row>(&self, row: &R) -> Option<u32> {
        self.by_hash.get(&hash_of(row)).copied()
    }
}

/// A hash of the row's entry.
pub(crate) fn hash_of<R: Row>(row: &R) -> u64 {
    let mut hasher = FoldHasher::default();
    hasher.write(row.entry_bytes());
    hasher.finish()
}
