//! What can be read from a value.

ghost use Rattle.std.specs.Prelude.{◌≡◌, ℕ, List, IsErrOf};
ghost use Rattle.spelling.specs.declared.ending.End.TheVariants as ends;
ghost use Rattle.peer_words.specs.Values.{IsKeyWord, IsAnyOrKey, IsDigestWord, IsHeight, IsMode};
ghost use Rattle.peer_words.specs.Words.{Reads};

use crate::command::Usage;
use hex::FromHex;
use lms_core::Height;
use mc_cap::Mode;
use std::alloc::Global;
use willow_path::{Digest, End, NamespaceKey, UserKey};

/// A value that a word can spell.
pub(crate) trait Word: Sized {
    ghost spells: { List ℕ → Self → Type 0 };

    // where the word asks for memory
    ghost asks: { List ℕ → Type 0 };

    /// What the word spells; it is refused exactly where it spells nothing. Memory is asked for only where the word asks.
    fn of_word(alloc: Global, word: &str) -> Result<Self, End<Usage>>
        ensures reads { Reads (spells word.now) result }
        ensures asked { IsErrOf result ends.NoMemory → asks word.now };
}

impl Word for NamespaceKey {
    ghost spells = { IsKeyWord };

    ghost asks = { λ word. ⊥ };

    fn of_word(_alloc: Global, word: &str) -> Result<NamespaceKey, End<Usage>> {
        let Ok(bytes) = <[u8; 33] as FromHex>::from_hex(word) else {
            return Err(End::Refused(Usage));
        };
        NamespaceKey::from_bytes(bytes).ok_or(End::Refused(Usage))
    }
}

impl Word for UserKey {
    ghost spells = { IsKeyWord };

    ghost asks = { λ word. ⊥ };

    fn of_word(_alloc: Global, word: &str) -> Result<UserKey, End<Usage>> {
        let Ok(bytes) = <[u8; 33] as FromHex>::from_hex(word) else {
            return Err(End::Refused(Usage));
        };
        UserKey::from_bytes(bytes).ok_or(End::Refused(Usage))
    }
}

/// None is the word `any`.
impl Word for Option<UserKey> {
    ghost spells = { IsAnyOrKey };

    ghost asks = { λ word. ⊥ };

    fn of_word(alloc: Global, word: &str) -> Result<Option<UserKey>, End<Usage>> {
        if word == "any" {
            return Ok(None);
        }
        Ok(Some(UserKey::of_word(alloc, word)?))
    }
}

impl Word for Digest {
    ghost spells = { IsDigestWord };

    ghost asks = { λ word. ⊥ };

    fn of_word(_alloc: Global, word: &str) -> Result<Digest, End<Usage>> {
        match <[u8; 32] as FromHex>::from_hex(word) {
            Ok(bytes) => Ok(Digest(bytes)),
            Err(_) => Err(End::Refused(Usage)),
        }
    }
}

impl Word for Height {
    ghost spells = { IsHeight };

    ghost asks = { λ word. ⊥ };

    fn of_word(_alloc: Global, word: &str) -> Result<Height, End<Usage>> {
        match word {
            "5" => Ok(Height::H5),
            "10" => Ok(Height::H10),
            _ => Err(End::Refused(Usage)),
        }
    }
}

impl Word for Mode {
    ghost spells = { IsMode };

    ghost asks = { λ word. ⊥ };

    fn of_word(_alloc: Global, word: &str) -> Result<Mode, End<Usage>> {
        match word {
            "read" => Ok(Mode::Read),
            "write" => Ok(Mode::Write),
            _ => Err(End::Refused(Usage)),
        }
    }
}
