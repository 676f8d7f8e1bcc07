//! Signers in words.

ghost use Rattle.std.specs.Prelude.{◌≡◌, List, ℕ, MatchOption};
ghost use Rattle.peer_words.specs.Memory.{SignerWordAsks};
ghost use Rattle.peer_words.specs.Signers.{IsSignerWord, IsOpenBody};
ghost use Rattle.peer_words.specs.Words.{Reads};

use crate::command::{SignerWord, Usage};
use crate::name::Name;
use crate::word::Word;
use hex::FromHex;
use std::alloc::Global;
use willow_path::{End, UserKey};

impl Word for SignerWord {
    ghost spells = { IsSignerWord };

    ghost asks = { SignerWordAsks };

    fn of_word(alloc: Global, word: &str) -> Result<SignerWord, End<Usage>> {
        if let Some(digits) = word.strip_prefix("open:") {
            return match open_key(digits) {
                Some(key) => Ok(SignerWord::OpenKey(key)),
                None => Err(End::Refused(Usage)),
            };
        }
        if let Some(file) = word.strip_prefix("lms:") {
            return Ok(SignerWord::LmsFile(Name::of_word(alloc, file)?.0));
        }
        Err(End::Refused(Usage))
    }
}

// The key of kind 0 with the body that the digits spell.
fn open_key(digits: &str) -> Option<UserKey>
    ensures { MatchOption result ((key : List ℕ) → IsOpenBody digits.now key → ⊥) (IsOpenBody digits.now) }
{
    let body = <[u8; 32] as FromHex>::from_hex(digits).ok()?;
    let mut bytes = [0; 33];
    bytes[1..].copy_from_slice(&body);
    UserKey::from_bytes(bytes)
}
