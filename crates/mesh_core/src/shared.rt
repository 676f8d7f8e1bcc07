//! Rows that nodes share.

ghost use Rattle.std.specs.Prelude.{◌≡◌, IfOk};
ghost use Rattle.cap_codec.specs.Rows.{row_of};

use cap_codec::RawRow;
use std::alloc::Global;
use std::marker::Model;
use std::sync::Arc;
use willow_entry::{Entry, Row};
use willow_path::NoMemory;

/// A row of a mesh: it stands in memory once, however many nodes hold it. A contract sees the row.
#[derive(Drop)]
pub struct MeshRow {
    row: Arc<RawRow>,
}

impl Model for MeshRow {
    ghost use Rattle.cap_codec.specs.Rows.{RawValue};

    ghost Value = { RawValue };

    ghost view = { λ r. r.row.value };
}

impl MeshRow {
    /// The row, to be shared.
    pub(crate) fn new(alloc: Global, row: RawRow) -> Result<MeshRow, NoMemory>
        ensures { IfOk result (λ shared. shared ≡ row) }
    {
        Ok(MeshRow {
            row: Arc::new(alloc, row)?,
        })
    }

    /// The row, for one more that holds it.
    pub(crate) fn shared(&self) -> Result<Arc<RawRow>, NoMemory>
        ensures { IfOk result (λ row. row.value ≡ self.now) }
    {
        let row = self.row.clone()?;
        Ok(row)
    }

    /// The row.
    pub fn raw(&self) -> &RawRow
        ensures { result.now ≡ self.now }
    {
        &self.row
    }
}

impl Row for MeshRow {
    ghost value = { row_of };

    fn entry(&self) -> &Entry {
        self.raw().entry()
    }

    fn entry_bytes(&self) -> &[u8] {
        self.raw().entry_bytes()
    }

    fn token_bytes(&self) -> &[u8] {
        self.raw().token_bytes()
    }

    fn copy(&self) -> Result<MeshRow, NoMemory> {
        Ok(MeshRow {
            row: self.row.clone()?,
        })
    }
}
