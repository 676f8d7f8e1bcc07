//! Entries, and which of two is newer.

ghost use Rattle.std.specs.Prelude.{◌≡◌, IfOk};
ghost use Rattle.willow_entry.specs.Entry.{is_newer, rank_of, same_entry};

use crate::rank::{Rank, by_rank};
use std::cmp::Ordering;
use willow_path::{Digest, NamespaceKey, NoMemory, Path, UserKey};

/// An entry of the Willow Data Model: what was written where, when, and by whose leave.
#[derive(Drop)]
pub struct Entry {
    /// The namespace that it belongs to.
    pub namespace: NamespaceKey,
    /// The user in whose subspace it stands.
    pub subspace: UserKey,
    /// Its name within the subspace.
    pub path: Path,
    /// When it was written, in a unit that its writers agree on.
    pub timestamp: u64,
    /// The number of bytes of its payload.
    pub length: u64,
    /// The digest of its payload.
    pub digest: Digest,
}

impl Entry {
    /// An equal entry.
    pub fn copy(&self) -> Result<Entry, NoMemory>
        ensures { IfOk result (λ entry. entry ≡ self.now) }
    {
        Ok(Entry {
            namespace: self.namespace,
            subspace: self.subspace,
            path: self.path.copy()?,
            timestamp: self.timestamp,
            length: self.length,
            digest: self.digest,
        })
    }

    /// The rank of the entry.
    pub fn rank(&self) -> Rank<'_>
        ensures { result ≡ rank_of self.now }
    {
        Rank::new(self.timestamp, &self.digest, self.length)
    }
}

/// Whether e is newer than f: its timestamp is greater; or these are equal and its digest is greater;
/// or both are equal and its payload is longer.
#[tactic(auto, unfolding(crate::specs::Entry::is_newer))]
pub fn newer(e: &Entry, f: &Entry) -> bool
    ensures { result ≡ is_newer e.now f.now }
{
    by_rank(&e.rank(), &f.rank()) == Ordering::Greater
}

// Whether all fields are equal.
#[tactic(auto, unfolding(crate::specs::Entry::same_entry))]
pub(crate) fn same_entry(e: &Entry, f: &Entry) -> bool
    ensures { result ≡ same_entry e.now f.now }
{
    e.namespace == f.namespace
        && e.subspace == f.subspace
        && e.path == f.path
        && e.timestamp == f.timestamp
        && e.length == f.length
        && e.digest == f.digest
}
