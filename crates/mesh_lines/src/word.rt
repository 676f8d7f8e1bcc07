//! The words of a line.

ghost use Rattle.std.specs.Prelude.{◌≡◌, ℕ, List, MatchOption, Option};
ghost use Rattle.peer_words.specs.Values.{IsAnyOrKey, IsNumber, IsNumberWithin};
ghost use Rattle.mesh_lines.specs.Lines.{IsNode};

use hex::FromHex;
use itoa::Buffer;
use std::str;
use willow_path::UserKey;

/// The number that the word spells.
pub(crate) fn number_of(word: &[u8]) -> Option<u64>
    ensures { MatchOption result ((n : ℕ) → IsNumber word.now n → ⊥) (IsNumber word.now) }
{
    match str::from_utf8(word) {
        Ok(text) => printed_number(text),
        Err(_) => None,
    }
}

// The number that is printed just so.
fn printed_number(text: &str) -> Option<u64>
    ensures { MatchOption result ((n : ℕ) → IsNumber text.now n → ⊥) (IsNumber text.now) }
{
    let n = text.parse::<u64>().ok()?;
    let mut digits = Buffer::new();
    if digits.format(n) != text {
        return None;
    }
    Some(n)
}

/// The number that the word spells, where it is at least one bound and at most the other.
pub(crate) fn number_within(least: u32, most: u32, word: &[u8]) -> Option<u32>
    ensures { MatchOption result ((n : ℕ) → IsNumberWithin least most word.now n → ⊥) (IsNumberWithin least most word.now) }
{
    let n = number_of(word)?;
    if n < u64::from(least) {
        return None;
    }
    if u64::from(most) < n {
        return None;
    }
    Some(n as u32)
}

/// The number of one of so many nodes.
pub(crate) fn node_of(nodes: u32, word: &[u8]) -> Option<u32>
    ensures { MatchOption result ((node : ℕ) → IsNode nodes word.now node → ⊥) (IsNode nodes word.now) }
{
    let n = number_of(word)?;
    if n >= u64::from(nodes) {
        return None;
    }
    Some(n as u32)
}

/// The subspace of the key that the word spells, or None for `any`.
pub(crate) fn subspace_of(word: &[u8]) -> Option<Option<UserKey>>
    ensures { MatchOption result ((subspace : Option (List ℕ)) → IsAnyOrKey word.now subspace → ⊥) (IsAnyOrKey word.now) }
{
    if word == b"any".as_slice() {
        return Some(None);
    }
    let Ok(bytes) = <[u8; 33] as FromHex>::from_hex(word) else {
        return None;
    };
    match UserKey::from_bytes(bytes) {
        Some(key) => Some(Some(key)),
        None => None,
    }
}
