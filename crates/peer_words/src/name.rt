//! Names of files and places in words.

ghost use Rattle.std.specs.Prelude.{◌≡◌, List, MatchBool};
ghost use Rattle.std.specs.List.{list_all};
ghost use Rattle.peer_words.specs.Values.{IsName, IsNameWord, IsPlace, IsPlaceWord, is_letter_or_digit, is_name_byte};
ghost use Rattle.peer_words.specs.Words.{Reads};

use crate::command::Usage;
use crate::limits::{MOST_NAME_BYTES, MOST_PLACE_BYTES, MOST_PORT};
use crate::number::number_within;
use crate::word::Word;
use std::alloc::Global;
use willow_path::End;

/// The name of a file.
#[derive(Drop)]
pub(crate) struct Name(pub(crate) String);

impl Word for Name {
    ghost spells = { λ word name. IsNameWord word name.0 };

    ghost asks = { IsName };

    fn of_word(alloc: Global, word: &str) -> Result<Name, End<Usage>> {
        if !is_name(word) {
            return Err(End::Refused(Usage));
        }
        Ok(Name(String::from_str(alloc, word)?))
    }
}

// Whether the word is the name of a file.
fn is_name(word: &str) -> bool
    ensures { MatchBool result (IsName word.now) (IsName word.now → ⊥) }
{
    let bytes = word.as_bytes();
    if bytes.is_empty() {
        return false;
    }
    if bytes.len() > MOST_NAME_BYTES {
        return false;
    }
    if !is_letter_or_digit(bytes[0]) {
        return false;
    }
    are_name_bytes(bytes)
}

/// Where a listener is, or is to be.
#[derive(Drop)]
pub(crate) struct Place(pub(crate) String);

impl Word for Place {
    ghost spells = { λ word place. IsPlaceWord word place.0 };

    ghost asks = { IsPlace };

    fn of_word(alloc: Global, word: &str) -> Result<Place, End<Usage>> {
        if !is_place(word) {
            return Err(End::Refused(Usage));
        }
        Ok(Place(String::from_str(alloc, word)?))
    }
}

// Whether the word is a host and a port.
fn is_place(word: &str) -> bool
    ensures { MatchBool result (IsPlace word.now) (IsPlace word.now → ⊥) }
{
    if word.len() > MOST_PLACE_BYTES {
        return false;
    }
    let Some((host, digits)) = word.split_once(':') else {
        return false;
    };
    if host.is_empty() {
        return false;
    }
    number_within(1, MOST_PORT, digits).is_some()
}

// Whether each byte may stand in the name of a file.
fn are_name_bytes(bytes: &[u8]) -> bool
    ensures { result ≡ list_all is_name_byte bytes.now }
{
    bytes.iter().all(|byte| is_name_byte(*byte))
}

// A letter, a digit, `.`, `_` or `-`.
fn is_name_byte(byte: u8) -> bool
    ensures { result ≡ is_name_byte byte }
{
    is_letter_or_digit(byte) || matches!(byte, b'.' | b'_' | b'-')
}

// A letter or a digit of ASCII.
fn is_letter_or_digit(byte: u8) -> bool
    ensures { result ≡ is_letter_or_digit byte }
{
    matches!(byte, b'0'..=b'9' | b'A'..=b'Z' | b'a'..=b'z')
}
