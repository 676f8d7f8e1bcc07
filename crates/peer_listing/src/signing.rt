//! What the generator's writers sign of their rows, and their signatures, four at a time.

ghost use Rattle.std.specs.Prelude.{◌≡◌, ◌++◌, ◌≤◌, map, IfOk, OnOk};
ghost use Rattle.std.specs.List.{flat_map};
ghost use Rattle.sha_lanes.specs.Message.{bytes_of, digest_of};
ghost use Rattle.peer_listing.specs.Ranges.{entries_between};
ghost use Rattle.peer_listing.specs.Signing.{signed_bytes};

use crate::generator::{GENERATED_ROWS, generated_entry};
use sha_lanes::{Message, sha256_all};
use spelling::{NoMemory, put_byte, put_bytes};
use std::alloc::Global;
use willow_entry::Entry;

// No more bytes than these are signed of a row of the generator.
const MOST_SIGNED: usize = 160;

// The entries of the rows from one to before another.
pub(crate) fn entries_between(alloc: Global, from: u32, to: u32) -> Result<Vec<Entry>, NoMemory>
    requires order { from ≤ to }
    requires within { to ≤ GENERATED_ROWS }
    ensures { IfOk result (λ entries. entries.items ≡ entries_between from to) }
{
    let mut entries = Vec::with_capacity(alloc, (to - from) as usize)?;
    'rows: for i in from..to {
        entries.push(generated_entry(alloc, i)?)?;
    }
    Ok(entries)
}

// What is signed of each entry, one behind the other.
pub(crate) fn signed_bytes(alloc: Global, entries: &[Entry]) -> Result<Vec<u8>, NoMemory>
    ensures { IfOk result (λ bytes. bytes.items ≡ flat_map signed_bytes entries.now) }
{
    let mut bytes = Vec::with_capacity(alloc, entries.len().saturating_mul(MOST_SIGNED))?;
    'entries: for entry in entries {
        put_signed(entry, &mut bytes)?;
    }
    Ok(bytes)
}

// Appends what is signed of an entry, or without memory a part of it.
#[tactic(auto, unfolding(willow_entry::specs::Message::entry_message))]
fn put_signed(entry: &Entry, out: &mut Vec<u8>) -> Result<(), NoMemory>
    ensures { OnOk result (out.new.items ≡ out.old.items ++ signed_bytes entry.now) }
{
    put_bytes(out, &entry.subspace.to_bytes())?;
    put_byte(out, b'E')?;
    entry.encode(out)
}

// What is signed of each entry, as messages, of bytes that have it one behind the other. Nothing is copied: each stands
// whole in the second piece of its message.
pub(crate) fn messages<'a>(
    alloc: Global,
    entries: &[Entry],
    bytes: &'a [u8],
) -> Result<Vec<Message<'a>>, NoMemory>
    requires { bytes.now ≡ flat_map signed_bytes entries.now }
    ensures bytes { IfOk result (λ messages. map bytes_of messages.items ≡ map signed_bytes entries.now) }
    ensures whole { IfOk result (λ messages. map (λ m. m.rest.now) messages.items ≡ map signed_bytes entries.now) }
{
    let mut messages = Vec::with_capacity(alloc, entries.len())?;
    let mut left = bytes;
    'entries: for entry in entries {
        let key = entry.subspace.to_bytes();
        let signed = (key.len() + 1).saturating_add(entry.spelled_len());
        let (message, behind) = left.split_at(signed.min(left.len()));
        messages.push(Message {
            front: &[],
            rest: message,
        })?;
        left = behind;
    }
    Ok(messages)
}

// The digests of messages, in order.
pub(crate) fn digests(alloc: Global, messages: &[Message<'_>]) -> Result<Vec<[u8; 32]>, NoMemory>
    ensures { IfOk result (λ made. made.items ≡ map digest_of messages.now) }
{
    let mut made = vec![in alloc; [0; 32]; messages.len()]?;
    sha256_all(messages, &mut made);
    Ok(made)
}
