//! The capabilities that were found valid not long ago.

ghost use Rattle.std.specs.Prelude.{◌≡◌, ◌≤◌, ℕ, Contains, None, IsTrue};
ghost use Rattle.std.specs.Global.{Vec};
ghost use Rattle.mc_cap.specs.Forms.{capability_spelling, IsCapability};
ghost use Rattle.mc_cap.specs.declared.capability.Capability.{Capability};
ghost use Rattle.auth_entry.specs.Authorised.{capability_refusal};
ghost use Rattle.auth_entry.specs.Known.{IsKnown};

use cap_codec::RawRow;
use lru::LruCache;
use scheme_core::Verify;
use spelling::NoMemory;
use std::alloc::Global;
use std::hash::{FoldHasher, Hasher};
use std::marker::PhantomData;
use std::num::NonZeroUsize;

/// Capabilities that are valid by the rules of S, told by their bytes: a capability has one spelling, and no other
/// capability has it. They are found by a hash of the bytes; of two with one hash only the later is kept. Where as many
/// are kept as may be, the one that was asked for longest ago goes. Whether one is valid does not depend on a namespace
/// but its own, so none is kept beside it.
#[derive(Drop)]
pub(crate) struct ValidCapabilities<S: Verify> {
    spellings: LruCache<u64, Vec<u8>>,
    scheme: PhantomData<S>,
    ghost valid: { (p : ℕ × Vec ℕ) → Contains spellings.entries p → IsKnown S.rules p.1 },
}

impl<S: Verify> ValidCapabilities<S> {
    /// None is kept, and room for so many.
    pub(crate) fn new(alloc: Global, capacity: u32) -> Result<ValidCapabilities<S>, NoMemory>
        requires { 1 ≤ capacity }
    {
        let Some(capacity) = NonZeroUsize::new(capacity as usize) else {
            unreachable!()
        };
        Ok(ValidCapabilities {
            spellings: LruCache::sparse(alloc, capacity)?,
            scheme: PhantomData,
        })
    }

    /// Whether the row's capability is kept. It is then the last that was asked for.
    pub(crate) fn has(&mut self, row: &RawRow) -> bool
        ensures { IsTrue result → capability_refusal S.rules row.now.token.capability ≡ None }
    {
        row.known();
        let hash = hash_of(row.capability_bytes());
        self.holds(hash, row.capability_bytes()) && self.spellings.promote(&hash)
    }

    // Whether just these bytes are kept by the hash.
    fn holds(&self, hash: u64, spelling: &[u8]) -> bool
        ensures { (c : Capability) → IsTrue result → IsCapability c → spelling.now ≡ capability_spelling c → capability_refusal S.rules c ≡ None }
    {
        match self.spellings.peek(&hash) {
            Some(kept) => kept.as_slice() == spelling,
            None => false,
        }
    }

    /// Keeps the row's capability, which is valid.
    pub(crate) fn keep(&mut self, alloc: Global, row: &RawRow) -> Result<(), NoMemory>
        requires { capability_refusal S.rules row.now.token.capability ≡ None }
    {
        row.known();
        let spelling = Vec::from_slice(alloc, row.capability_bytes())?;
        self.spellings
            .put(hash_of(row.capability_bytes()), spelling)?;
        Ok(())
    }
}

// A hash of the bytes, many at a time.
fn hash_of(bytes: &[u8]) -> u64 {
    let mut hasher = FoldHasher::default();
    hasher.write(bytes);
    hasher.finish()
}
