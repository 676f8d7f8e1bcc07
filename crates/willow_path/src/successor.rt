//! The least key above a key, and the least path above all extensions of a path.

ghost use Rattle.std.specs.Prelude.{◌≡◌, ◌↔◌, ℕ, ◌+◌, ◌-◌, ◌<◌, ◌≤◌, min, List, [], ◌∷◌, ◌++◌, length, take, replicate, slice_index_or, IsNone, IfOk};
ghost use Rattle.std.specs.Option.{option_map};
ghost use Rattle.willow_path.specs.Path.{IsPath, total};
ghost use Rattle.willow_path.specs.Successor.{IsAfter, IsAfterKey, after, key_after, part_after, raised};

use crate::key::UserKey;
use crate::limits::{MAX_PART, MAX_TOTAL};
use crate::path::Path;
use spelling::NoMemory;
use std::alloc::Global;

impl UserKey {
    /// The least greater key; None exactly for byte 01 followed by 32 bytes ff.
    #[tactic(auto, using(crate::proofs::PartSuccessor::key_after_is, crate::proofs::PartSuccessor::key_after_last))]
    pub fn after(&self) -> Option<UserKey>
        ensures value { result ≡ key_after self.now }
        ensures least { IsAfterKey self.now result }
        ensures last { IsNone result ↔ (self.now ≡ 1 ∷ replicate 32 255) }
    {
        next_key(&self.to_bytes())
    }
}

// The least greater key, if there is one.
fn next_key(bytes: &[u8; 33]) -> Option<UserKey>
    ensures { result ≡ key_after bytes.now }
{
    let mut front = bytes.as_slice();
    while let [rest @ .., last] = front {
        if *last < 255 {
            return UserKey::from_bytes(filled(rest, *last + 1));
        }
        front = rest;
    }
    None
}

// The bytes, the last byte, and zeros behind it.
fn filled(front: &[u8], last: u8) -> [u8; 33]
    requires { length front.now < 33 }
    ensures { result ≡ front.now ++ last ∷ replicate (32 - length front.now) 0 }
{
    let mut bytes = [0; 33];
    bytes[..front.len()].copy_from_slice(front);
    bytes[front.len()] = last;
    bytes
}

impl Path {
    /// The least path within the limits that is greater than every path with this one as prefix, or None
    /// where there is none.
    pub fn after_prefixed(&self) -> Result<Option<Path>, NoMemory>
        ensures value { IfOk result (λ found. found ≡ after self.now) }
        ensures least { IfOk result (λ found. IsAfter self.now found) }
    {
        let mut before = self.total();
        let mut count = self.count();
        while count > 0 {
            count -= 1;
            before -= self.part(count).len();
            match self.raised_at(count, before)? {
                Some(path) => return Ok(Some(path)),
                None => {}
            }
        }
        Ok(None)
    }

    // The path up to this place with the least greater component there, if there is one. The components
    // before the place have so many bytes.
    fn raised_at(&self, at: usize, before: usize) -> Result<Option<Path>, NoMemory>
        requires at { at < length self.now }
        requires before { before ≡ total (take at self.now) }
        requires path { IsPath self.now }
        ensures { IfOk result (λ found. found ≡ option_map (λ next. take at self.now ++ next ∷ []) (part_after (min MAX_PART (MAX_TOTAL - before)) (slice_index_or self.now at []))) }
    {
        let next = next_part(
            self.allocator(),
            self.part(at),
            MAX_PART.min(MAX_TOTAL - before),
        )?;
        match next {
            None => Ok(None),
            Some(next) => {
                let mut path = self.front(at)?;
                path.add(&next)?;
                Ok(Some(path))
            }
        }
    }

    // The path of the components before this place.
    fn front(&self, count: usize) -> Result<Path, NoMemory>
        requires count { count ≤ length self.now }
        requires path { IsPath self.now }
        ensures { IfOk result (λ path. path ≡ take count self.now) }
    {
        let mut path = Path::empty(self.allocator());
        for i in 0..count {
            path.add(self.part(i))?;
        }
        Ok(path)
    }
}

// The least greater component of so many bytes at most, if there is one.
#[tactic(auto, unfolding(crate::specs::Successor::part_after))]
fn next_part(alloc: Global, part: &[u8], limit: usize) -> Result<Option<Vec<u8>>, NoMemory>
    ensures { IfOk result (λ next. option_map (λ bytes. bytes.items) next ≡ part_after limit part.now) }
{
    if part.len() < limit {
        Ok(Some(extended(alloc, part, 0)?))
    } else {
        raised_part(alloc, part)
    }
}

// Cut behind the last byte that can be raised, and that byte raised, if there is one.
fn raised_part(alloc: Global, part: &[u8]) -> Result<Option<Vec<u8>>, NoMemory>
    ensures { IfOk result (λ next. option_map (λ bytes. bytes.items) next ≡ raised part.now) }
{
    let mut front = part;
    while let [rest @ .., last] = front {
        if *last < 255 {
            return Ok(Some(extended(alloc, rest, *last + 1)?));
        }
        front = rest;
    }
    Ok(None)
}

// The bytes with one more.
fn extended(alloc: Global, bytes: &[u8], last: u8) -> Result<Vec<u8>, NoMemory>
    ensures { IfOk result (λ text. text.items ≡ bytes.now ++ last ∷ []) }
{
    let mut text = Vec::with_capacity(alloc, bytes.len() + 1)?;
    text.extend_from_slice(bytes)?;
    text.push(last)?;
    Ok(text)
}
