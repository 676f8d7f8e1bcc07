//! Rows without authorisation.

ghost use Rattle.std.specs.Prelude.{◌≡◌, IfOk};
ghost use Rattle.willow_entry.specs.RowBody.{IsBareRow};

use crate::entry::Entry;
use crate::row::{Row, SharedRow};
use crate::row_form::RowForm;
use std::alloc::Global;
use std::marker::Model;
use willow_path::{End, NoMemory, NotHere};

/// An entry with any bytes as token, which nobody has checked: for laws and tests.
/// A contract sees the entry and the token.
#[derive(Drop)]
pub struct BareRow {
    entry: Entry,
    spelled: Vec<u8>,
    token: Vec<u8>,
}

impl Model for BareRow {
    ghost use Rattle.std.specs.Prelude.{◌≡◌};
    ghost use Rattle.willow_entry.specs.Row.{RowValue};

    ghost Value = { RowValue };

    ghost use Rattle.willow_entry.specs.EntryForm.{entry_spelling, IsEntry};

    ghost view = { λ r. record { entry = r.entry; token = r.token.items } };

    ghost invariant = { λ r. (r.spelled.items ≡ entry_spelling r.entry) × IsEntry r.entry };
}

impl BareRow {
    /// The row of this entry and this token.
    pub fn new(alloc: Global, entry: Entry, token: Vec<u8>) -> Result<BareRow, NoMemory>
        ensures entry { IfOk result (λ row. row.entry ≡ entry) }
        ensures token { IfOk result (λ row. row.token ≡ token.items) }
    {
        let mut spelled = Vec::new(alloc);
        entry.encode(&mut spelled)?;
        Ok(BareRow {
            entry,
            spelled,
            token,
        })
    }
}

impl Row for BareRow {
    ghost value = { λ r. r };

    fn entry(&self) -> &Entry {
        &self.entry
    }

    fn entry_bytes(&self) -> &[u8] {
        &self.spelled
    }

    fn token_bytes(&self) -> &[u8] {
        &self.token
    }

    fn copy(&self) -> Result<BareRow, NoMemory> {
        Ok(BareRow {
            entry: self.entry.copy()?,
            spelled: Vec::from_slice(*self.spelled.allocator(), &self.spelled)?,
            token: Vec::from_slice(*self.token.allocator(), &self.token)?,
        })
    }
}

impl SharedRow for BareRow {}

/// The bodies of bare rows: an entry within its limits, and any bytes as token.
pub struct BareRows;

impl RowForm for BareRows {
    type R = BareRow;

    ghost IsRow = { IsBareRow };

    fn read(alloc: Global, body: &[u8]) -> Result<Option<BareRow>, NoMemory> {
        match Entry::decode(alloc, body) {
            Ok((entry, taken)) => {
                let token = Vec::from_slice(alloc, &body[taken..])?;
                Ok(Some(BareRow::new(alloc, entry, token)?))
            }
            Err(End::Refused(NotHere)) => Ok(None),
            Err(End::NoMemory) => Err(NoMemory),
        }
    }

    ghost entries_fit = { λ r fits. fits.0 };
}
