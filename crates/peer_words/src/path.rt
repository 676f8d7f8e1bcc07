//! Paths in words.

ghost use Rattle.std.specs.Prelude.{◌≡◌, ◌==◌, ◌≤◌, ◌%◌, List, ℕ, length, IsErrOf};
ghost use Rattle.std.specs.List.{position_or_len};
ghost use Rattle.hex.specs.Hex.{decode_of};
ghost use Rattle.spelling.specs.declared.ending.End.TheVariants as ends;
ghost use Rattle.peer_words.specs.Memory.{PathWordAsks};
ghost use Rattle.peer_words.specs.Values.{IsPathWord, IsParts};
ghost use Rattle.peer_words.specs.Words.{Reads, ReadsBy};

use crate::command::Usage;
use crate::word::Word;
use hex::FromHexError;
use std::alloc::Global;
use willow_path::{End, Path};

impl Word for Path {
    ghost spells = { IsPathWord };

    ghost asks = { PathWordAsks };

    fn of_word(alloc: Global, word: &str) -> Result<Path, End<Usage>> {
        if word == "." {
            return Ok(Path::empty(alloc));
        }
        if word.is_empty() {
            return Err(End::Refused(Usage));
        }
        parts_of(alloc, word.as_bytes())
    }
}

// The path whose components are spelled in the word one after another. Memory is asked for behind the first `/`.
fn parts_of(alloc: Global, word: &[u8]) -> Result<Path, End<Usage>>
    ensures reads { Reads (IsParts word.now) result }
    ensures asked { IsErrOf result ends.NoMemory → PathWordAsks word.now }
{
    let mut path = Path::empty(alloc);
    let mut left = word;
    while !left.is_empty() {
        if left[0] != b'/' {
            return Err(End::Refused(Usage));
        }
        let (_, others) = left.split_at(1);
        let (digits, behind) = others.split_at(part_end(others));
        let part = part_of(alloc, digits)?;
        match path.push(&part) {
            Ok(()) => {}
            Err(End::Refused(_)) => return Err(End::Refused(Usage)),
            Err(End::NoMemory) => return Err(End::NoMemory),
        }
        left = behind;
    }
    Ok(path)
}

// Where the first component in front ends: before the next `/`, or at the end.
fn part_end(word: &[u8]) -> usize
    ensures value { result ≡ position_or_len (λ b. b == 47) word.now }
    ensures within { result ≤ length word.now }
{
    let mut end = 0;
    while end < word.len() && word[end] != b'/' {
        end += 1;
    }
    end
}

// The component that the digits spell. Memory is asked for where their number is even.
fn part_of(alloc: Global, digits: &[u8]) -> Result<Vec<u8>, End<Usage>>
    ensures reads { ReadsBy (λ part. part.items) (λ part. decode_of digits.now ≡ Ok part) result }
    ensures asked { IsErrOf result ends.NoMemory → length digits.now % 2 ≡ 0 }
{
    match hex::decode(alloc, digits) {
        Ok(part) => Ok(part),
        Err(FromHexError::OutOfMemory) => Err(End::NoMemory),
        Err(_) => Err(End::Refused(Usage)),
    }
}
