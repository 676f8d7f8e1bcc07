//! Rows read from the bodies of frames.

ghost use Rattle.std.specs.Prelude.{◌≡◌, option_map, IfOk, OnErr};
ghost use Rattle.willow_entry.specs.EntryForm.{EntryAsks, IsEntry};
ghost use Rattle.willow_entry.specs.RowBody.{ReadsBody};
ghost use Rattle.willow_entry.specs.Row.{RowValue};

use crate::row::Row;
use std::alloc::Global;
use willow_path::NoMemory;

/// A grammar of the bodies of rows. A body is the spelling of an entry and behind it the bytes of a token;
/// the grammar says which rows have one.
pub trait RowForm {
    type R: Row;

    ghost IsRow: { RowValue → Type 0 };

    /// The row of the body, or None exactly where the body is not in the grammar. Memory is asked for behind the
    /// entry's path.
    fn read(alloc: Global, body: &[u8]) -> Result<Option<Self::R>, NoMemory>
        ensures reads { IfOk result (λ row. ReadsBody IsRow body.now (option_map Self.R.value row)) }
        ensures asked { OnErr result (EntryAsks body.now) };

    ghost entries_fit: { (r : RowValue) → IsRow r → IsEntry r.entry };
}
