//! What the index has of an entry: its place is its key, and its recency its rank.

ghost use Rattle.std.specs.Prelude.{◌≡◌, IfOk};
ghost use Rattle.std.specs.Ordering.{ordering_then};
ghost use Rattle.willow_entry.specs.Rank.{rank_cmp};
ghost use Rattle.willow_entry.specs.Row.{subspace_path_cmp};
ghost use Rattle.recency_index.specs.Recency.{ranked_of, item_rank, recency_cmp};

use link_arena::Twice;
use std::cmp::Ordering;
use std::sync::ledger::Ledger;
use step_count::Steps;
use willow_entry::{Entry, Rank, by_rank, by_subspace_path};
use willow_path::{Digest, NoMemory, Path, UserKey};

/// An entry's rank, and its place within its namespace.
#[derive(Drop)]
pub struct Ranked {
    /// When it was written.
    pub timestamp: u64,
    /// The digest of its payload.
    pub digest: Digest,
    /// The number of bytes of its payload.
    pub length: u64,
    /// The user in whose subspace it stands.
    pub subspace: UserKey,
    /// Its name within the subspace.
    pub path: Path,
}

impl Ranked {
    /// The item of an entry.
    pub fn of(entry: &Entry) -> Result<Ranked, NoMemory>
        ensures { IfOk result (λ item. item ≡ ranked_of entry.now) }
    {
        Ok(Ranked {
            timestamp: entry.timestamp,
            digest: entry.digest,
            length: entry.length,
            subspace: entry.subspace,
            path: entry.path.copy()?,
        })
    }

    // An item in this subspace at this path, of the least rank.
    pub(crate) fn at(subspace: &UserKey, path: &Path) -> Result<Ranked, NoMemory>
        ensures subspace { IfOk result (λ item. item.subspace ≡ subspace.now) }
        ensures path { IfOk result (λ item. item.path ≡ path.now) }
    {
        Ok(Ranked {
            timestamp: 0,
            digest: Digest([0; 32]),
            length: 0,
            subspace: *subspace,
            path: path.copy()?,
        })
    }

    // The rank of the entry.
    fn rank(&self) -> Rank<'_>
        ensures { result ≡ item_rank self.now }
    {
        Rank::new(self.timestamp, &self.digest, self.length)
    }
}

// How places within a namespace are ordered, of two items.
fn by_place(a: &Ranked, subspace: &UserKey, path: &Path) -> Ordering
    ensures { result ≡ subspace_path_cmp (a.now.subspace, a.now.path) (subspace.now, path.now) }
{
    by_subspace_path((&a.subspace, &a.path), (subspace, path))
}

// How two ranks, each at a place, are ordered by recency: the greater rank first, and of equal ranks the lower place.
fn by_rank_and_place(r: (&Rank, &UserKey, &Path), s: (&Rank, &UserKey, &Path)) -> Ordering
    ensures { result ≡ ordering_then (rank_cmp s.entry.0.now r.entry.0.now) (subspace_path_cmp (r.entry.1.now, r.entry.2.now) (s.entry.1.now, s.entry.2.now)) }
{
    match by_rank(s.0, r.0) {
        Ordering::Equal => by_subspace_path((r.1, r.2), (s.1, s.2)),
        order => order,
    }
}

// How two items are ordered by recency.
fn items_by_recency(a: &Ranked, b: &Ranked) -> Ordering
    ensures { result ≡ recency_cmp a.now b.now }
{
    by_rank_and_place(
        (&a.rank(), &a.subspace, &a.path),
        (&b.rank(), &b.subspace, &b.path),
    )
}

/// How two entries of one namespace are ordered by recency: the more recent first, which is the one of the greater
/// timestamp, then digest, then payload length, and of equal ranks the one of the lower subspace, then path.
pub fn by_recency(e: &Entry, f: &Entry) -> Ordering
    ensures { result ≡ recency_cmp (ranked_of e.now) (ranked_of f.now) }
{
    by_rank_and_place(
        (&e.rank(), &e.subspace, &e.path),
        (&f.rank(), &f.subspace, &f.path),
    )
}

/// How an entry and an item are ordered by recency, as two entries are.
pub fn entry_by_recency(e: &Entry, item: &Ranked) -> Ordering
    ensures { result ≡ recency_cmp (ranked_of e.now) item.now }
{
    by_rank_and_place(
        (&e.rank(), &e.subspace, &e.path),
        (&item.rank(), &item.subspace, &item.path),
    )
}

impl Twice for Ranked {
    ghost use Rattle.recency_index.specs.Orders.{ranked_cmp};
    ghost use Rattle.recency_index.specs.OrderLaws.{ranked_total, ranked_apart};

    ghost cmp_by = { ranked_cmp };

    ghost total = { ranked_total };

    ghost apart = { ranked_apart };

    fn by_key<L: Ledger>(&self, other: &Ranked, steps: &mut Steps<L>) -> Ordering {
        steps.tick();
        by_place(self, &other.subspace, &other.path)
    }

    fn by_rank<L: Ledger>(&self, other: &Ranked, steps: &mut Steps<L>) -> Ordering {
        steps.tick();
        items_by_recency(self, other)
    }
}
