//! A row that several share.

use crate::entry::Entry;
use crate::row::Row;
use std::sync::Arc;
use willow_path::NoMemory;

/// What is shared is a row of its value: lists of shared rows go, without a copy, to what takes rows.
impl<R: Row> Row for Arc<R> {
    ghost value = { λ shared. R.value shared.value };

    fn entry(&self) -> &Entry {
        (**self).entry()
    }

    fn entry_bytes(&self) -> &[u8] {
        (**self).entry_bytes()
    }

    fn token_bytes(&self) -> &[u8] {
        (**self).token_bytes()
    }

    /// The same row, shared once more.
    fn copy(&self) -> Result<Self, NoMemory> {
        Ok(self.clone()?)
    }
}
