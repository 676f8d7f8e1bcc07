//! Numbers in words.

ghost use Rattle.std.specs.Prelude.{◌≤◌, List, ℕ, MatchOption};
ghost use Rattle.peer_words.specs.Values.{IsNumber, IsNumberWithin, IsNumberOrNone, IsCount, IsLinks};
ghost use Rattle.peer_words.specs.Words.{Reads};

use crate::command::Usage;
use crate::limits::{MOST_LINKS, MOST_ROWS};
use crate::word::Word;
use std::alloc::Global;
use willow_path::End;

// The number that the word spells in decimal digits without a leading zero.
pub(crate) fn number_of(word: &str) -> Option<u64>
    ensures { MatchOption result ((n : ℕ) → IsNumber word.now n → ⊥) (IsNumber word.now) }
{
    let bytes = word.as_bytes();
    if bytes.is_empty() {
        return None;
    }
    if bytes[0] == b'+' {
        return None;
    }
    if bytes[0] == b'0' && bytes.len() > 1 {
        return None;
    }
    word.parse::<u64>().ok()
}

// The number that the word spells, where it is at least one bound and at most the other.
pub(crate) fn number_within(least: u32, most: u32, word: &str) -> Option<u32>
    ensures { MatchOption result ((n : ℕ) → IsNumberWithin least most word.now n → ⊥) (IsNumberWithin least most word.now) }
{
    let n = number_of(word)?;
    if n < u64::from(least) {
        return None;
    }
    if u64::from(most) < n {
        return None;
    }
    Some(n as u32)
}

impl Word for u64 {
    ghost spells = { IsNumber };

    ghost asks = { λ word. ⊥ };

    fn of_word(_alloc: Global, word: &str) -> Result<u64, End<Usage>> {
        number_of(word).ok_or(End::Refused(Usage))
    }
}

/// None is the word `none`.
impl Word for Option<u64> {
    ghost spells = { IsNumberOrNone };

    ghost asks = { λ word. ⊥ };

    fn of_word(_alloc: Global, word: &str) -> Result<Option<u64>, End<Usage>> {
        if word == "none" {
            return Ok(None);
        }
        match number_of(word) {
            Some(n) => Ok(Some(n)),
            None => Err(End::Refused(Usage)),
        }
    }
}

/// A count of rows.
impl Word for u32 {
    ghost spells = { IsCount };

    ghost asks = { λ word. ⊥ };

    fn of_word(_alloc: Global, word: &str) -> Result<u32, End<Usage>> {
        number_within(1, MOST_ROWS, word).ok_or(End::Refused(Usage))
    }
}

/// A number of links.
#[derive(Clone, Copy)]
pub(crate) struct Links(pub(crate) u32);

impl Word for Links {
    ghost spells = { λ word links. IsLinks word links.0 };

    ghost asks = { λ word. ⊥ };

    fn of_word(_alloc: Global, word: &str) -> Result<Links, End<Usage>> {
        match number_within(1, MOST_LINKS, word) {
            Some(n) => Ok(Links(n)),
            None => Err(End::Refused(Usage)),
        }
    }
}
