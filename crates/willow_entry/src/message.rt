//! What is signed of an entry.

ghost use Rattle.std.specs.Prelude.{◌≡◌, ◌++◌, OnOk, OnErr, IfOk};
ghost use Rattle.willow_entry.specs.Message.{entry_message};

use crate::entry::Entry;
use crate::row::Row;
use spelling::{NoMemory, put_byte, put_bytes};
use std::alloc::Global;

/// What is signed of an entry: the letter E, and the spelling of the entry.
#[tactic(auto, unfolding(crate::specs::Message::entry_message))]
pub fn entry_message(alloc: Global, entry: &Entry) -> Result<Vec<u8>, NoMemory>
    ensures { IfOk result (λ message. message.items ≡ entry_message entry.now) }
{
    let mut message = Vec::with_capacity(alloc, entry.spelled_len().saturating_add(1))?;
    put_byte(&mut message, b'E')?;
    entry.encode(&mut message)?;
    Ok(message)
}

/// What is signed of a row's entry, by the spelling that the row keeps.
pub fn row_message<R: Row>(alloc: Global, row: &R) -> Result<Vec<u8>, NoMemory>
    ensures { IfOk result (λ message. message.items ≡ entry_message (R.value row.now).entry) }
{
    let mut message = Vec::new(alloc);
    put_row_message(row, &mut message)?;
    Ok(message)
}

/// Appends what is signed of a row's entry to `out`, by the spelling that the row keeps. Without memory `out` stays as
/// it was.
#[tactic(auto, unfolding(crate::specs::Message::entry_message))]
pub fn put_row_message<R: Row>(row: &R, out: &mut Vec<u8>) -> Result<(), NoMemory>
    ensures spelled { OnOk result (out.new.items ≡ out.old.items ++ entry_message (R.value row.now).entry) }
    ensures err { OnErr result (out.new.items ≡ out.old.items) }
{
    let entry = row.entry_bytes();
    out.reserve(entry.len().saturating_add(1))?;
    let begun = out.len();
    put_byte(out, b'E')?;
    if let Err(NoMemory) = put_bytes(out, entry) {
        out.truncate(begun);
        return Err(NoMemory);
    }
    Ok(())
}
