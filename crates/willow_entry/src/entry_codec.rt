//! How entries are spelled as bytes, and read back.

ghost use Rattle.std.specs.Prelude.{◌≡◌, ◌<◌, ◌≤◌, ◌^◌, ◌++◌, ℕ, List, length, take, vec_len, OnOk, OnErr, IsErrOf};
ghost use Rattle.std.specs.Int.{w64, to_be_bytes};
ghost use Rattle.spelling.specs.Form.{Decodes};
ghost use Rattle.spelling.specs.Front.{Whole, ◌>>=◌ as ◌|>>◌};
ghost use Rattle.spelling.specs.Memory.{IsWhole};
ghost use Rattle.spelling.specs.Reading.{Gives, NeedsNoMemory, bytes_at, number_at};
ghost use Rattle.spelling.specs.Spelling.{AreSoManyBytes};
ghost use Rattle.spelling.specs.declared.ending.End.TheVariants as ends;
ghost use Rattle.spelling.specs.declared.input.Unread.TheVariants as unread;
ghost use Rattle.willow_path.specs.PathSpelling.{path_at};
ghost use Rattle.willow_entry.specs.declared.entry.Entry.{Entry as EntryValue};
ghost use Rattle.willow_entry.specs.EntryForm.{entry_at, entry_spelling, EntryAsks, IsEntry};

use crate::entry::Entry;
use spelling::{End, Input, NoMemory, NotHere, Unread, put_bytes, put_u64};
use std::alloc::Global;
use willow_path::{
    Digest, NamespaceKey, UserKey, read_digest, read_namespace_key, read_path, read_user_key,
};

// How many bytes of an entry's spelling are not its path's: two keys of 33 bytes, two numbers of 8 and a digest of 32.
const BESIDE_PATH: usize = 33 + 33 + 8 + 8 + 32;

/// No entry's spelling has fewer bytes: one whose path has no component has so many.
pub const LEAST_ENTRY: usize = BESIDE_PATH + 1;

impl Entry {
    /// The number of bytes of the entry's spelling.
    #[tactic(auto, using(crate::proofs::SpelledLength::entry_length, crate::proofs::SpelledLength::path_long))]
    pub fn spelled_len(&self) -> usize
        ensures { result ≡ length (entry_spelling self.now) }
    {
        see_limits(self);
        BESIDE_PATH + self.path.spelled_len()
    }

    /// Appends the spelling of the entry to `out`: the 33 bytes of the namespace key and of the subspace key,
    /// the path, the timestamp and the payload length in 8 bytes each, and the 32 bytes of the digest.
    /// An error leaves `out` as it was.
    pub fn encode(&self, out: &mut Vec<u8>) -> Result<(), NoMemory>
        ensures spelled { OnOk result (out.new.items ≡ out.old.items ++ entry_spelling self.now) }
        ensures err { OnErr result (out.new.items ≡ out.old.items) }
        ensures fits { IsEntry self.now }
    {
        see_limits(self);
        let begun = out.len();
        match spell(self, out) {
            Ok(()) => Ok(()),
            Err(NoMemory) => {
                out.truncate(begun);
                Err(NoMemory)
            }
        }
    }

    /// The entry that is spelled at the front of the bytes, with the number of bytes taken. It is not here
    /// exactly where no front of the bytes is the spelling of an entry. Memory is asked for behind the path.
    pub fn decode(alloc: Global, bytes: &[u8]) -> Result<(Entry, usize), End<NotHere>>
        ensures decodes { Decodes entry_spelling IsEntry bytes.now result }
        ensures asked { IsErrOf result ends.NoMemory → EntryAsks bytes.now }
    {
        let mut input = Input::new(bytes);
        let entry = read_entry(alloc, &mut input)?;
        Ok((entry, bytes.len().saturating_sub(input.len())))
    }
}

/// Reads an entry from the front of the input. It is wrong as soon as the bytes read begin none. Memory is asked for
/// behind the path.
#[tactic(auto, unfolding(crate::specs::EntryForm::entry_at))]
pub fn read_entry(alloc: Global, input: &mut Input) -> Result<Entry, Unread>
    ensures gives { Gives (λ entry. entry) result input.new (entry_at input.old) }
    ensures asked { IsErrOf result unread.NoMemory → EntryAsks input.old }
{
    let namespace = read_namespace_key(input)?;
    let subspace = read_user_key(input)?;
    read_behind_keys(alloc, namespace, subspace, input)
}

// Reads what an entry of these keys has behind them.
fn read_behind_keys(
    alloc: Global,
    namespace: NamespaceKey,
    subspace: UserKey,
    input: &mut Input,
) -> Result<Entry, Unread>
    ensures gives { Gives (λ entry. entry) result input.new
        (path_at input.old |>> (λ p. number_at w64 p.1 |>> (λ t. number_at w64 t.1 |>> (λ l. bytes_at 32 l.1 |>> (λ d. Whole (record { namespace = namespace; subspace = subspace; path = p.0; timestamp = t.0; length = l.0; digest = record { 0 = d.0 } }) d.1))))) }
    ensures asked { IsErrOf result unread.NoMemory → IsWhole (path_at input.old) }
{
    let path = read_path(alloc, input)?;
    let (timestamp, length, digest) = read_numbers(input)?;
    Ok(Entry {
        namespace,
        subspace,
        path,
        timestamp,
        length,
        digest,
    })
}

// Reads timestamp, payload length and digest, which an entry of any name has behind its path.
fn read_numbers(input: &mut Input) -> Result<(u64, u64, Digest), Unread>
    ensures gives { (n s : List ℕ) (p : List (List ℕ)) → Gives {Y = EntryValue} (λ x. record { namespace = n; subspace = s; path = p; timestamp = x.0; length = x.1; digest = x.2 }) result input.new
        (number_at w64 input.old |>> (λ t. number_at w64 t.1 |>> (λ l. bytes_at 32 l.1 |>> (λ d. Whole (record { namespace = n; subspace = s; path = p; timestamp = t.0; length = l.0; digest = record { 0 = d.0 } }) d.1)))) }
    ensures sure { NeedsNoMemory result }
{
    let timestamp = input.number_u64()?;
    let length = input.number_u64()?;
    let digest = read_digest(input)?;
    Ok((timestamp, length, digest))
}

// The fields are within their limits, as their types say.
fn see_limits(entry: &Entry)
    ensures { IsEntry entry.now }
{
    let _keys = (entry.namespace.to_bytes(), entry.subspace.to_bytes());
    let _path = entry.path.total();
    see_number(entry.timestamp);
    see_number(entry.length);
    see_digest(&entry.digest.0);
}

// A number of 8 bytes is within its limit.
fn see_number(n: u64)
    ensures { n < 2 ^ 64 }
{
    let _ = n;
}

// A digest has 32 bytes.
fn see_digest(digest: &[u8; 32])
    ensures { AreSoManyBytes 32 digest.now }
{
    let _first = digest.as_slice()[0];
}

// Appends the spelling, or without memory a part of it.
#[tactic(auto, unfolding(crate::specs::EntryForm::entry_spelling))]
fn spell(entry: &Entry, out: &mut Vec<u8>) -> Result<(), NoMemory>
    ensures spelled { OnOk result (out.new.items ≡ out.old.items ++ entry_spelling entry.now) }
    ensures kept { take (vec_len out.old) out.new.items ≡ out.old.items }
{
    put_bytes(out, &entry.namespace.to_bytes())?;
    put_bytes(out, &entry.subspace.to_bytes())?;
    entry.path.encode(out)?;
    spell_numbers(entry, out)
}

// Appends timestamp, payload length and digest, or without memory a part of them.
fn spell_numbers(entry: &Entry, out: &mut Vec<u8>) -> Result<(), NoMemory>
    ensures spelled { OnOk result (out.new.items ≡ out.old.items
        ++ (to_be_bytes w64 entry.now.timestamp ++ (to_be_bytes w64 entry.now.length ++ entry.now.digest.0))) }
    ensures kept { take (vec_len out.old) out.new.items ≡ out.old.items }
    ensures longer { vec_len out.old ≤ vec_len out.new }
{
    put_u64(out, entry.timestamp)?;
    put_u64(out, entry.length)?;
    put_bytes(out, &entry.digest.0)
}
