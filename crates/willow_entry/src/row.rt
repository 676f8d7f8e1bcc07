//! Rows: entries with the bytes of their write tokens, of which some dominate others.

ghost use Rattle.std.specs.Prelude.{◌≡◌, map, position, IfOk, IfSome, IfNone};
ghost use Rattle.willow_entry.specs.EntryForm.{entry_spelling, IsEntry};
ghost use Rattle.willow_entry.specs.LogRow.{log_value};
ghost use Rattle.willow_entry.specs.Row.{RowValue, same_row, is_stronger, is_dominating, is_covering, subspace_path_cmp, inner_place_cmp, place_cmp, IsCoveringAt, HasCovering};

use crate::entry::{Entry, newer, same_entry};
use std::cmp::Ordering;
use willow_path::{NoMemory, Path, UserKey};

/// A row: an entry with the bytes of its write token. A contract sees these two, whatever else a row keeps.
pub trait Row: Drop + Sized {
    ghost value: { Self → RowValue };

    /// The entry.
    fn entry(&self) -> &Entry
        ensures entry { result.now ≡ (value self.now).entry }
        ensures fits { IsEntry (value self.now).entry };

    /// The spelling of the entry.
    fn entry_bytes(&self) -> &[u8]
        ensures { result.now ≡ entry_spelling (value self.now).entry };

    /// The bytes of the write token.
    fn token_bytes(&self) -> &[u8]
        ensures { result.now ≡ (value self.now).token };

    /// A row of the same entry and token.
    fn copy(&self) -> Result<Self, NoMemory>
        ensures { IfOk result (λ row. value row ≡ value self.now) };
}

/// A row that threads may share. Reasoning about rows asks for `Row` alone.
pub trait SharedRow: Row + Send + Sync {}

/// Whether r dominates s: they have the same namespace and subspace, the path of r is a prefix of that of s,
/// and either the entry of r is newer, or the entries are equal and the token of r is greater as bytes.
#[tactic(auto, unfolding(crate::specs::Row::is_dominating))]
pub fn dominates<R: Row>(r: &R, s: &R) -> bool
    ensures { result ≡ is_dominating (R.value r.now) (R.value s.now) }
{
    let (e, f) = (r.entry(), s.entry());
    e.namespace == f.namespace
        && e.subspace == f.subspace
        && e.path.is_prefix_of(&f.path)
        && is_stronger(r, s)
}

// Whether the entry of r is newer, or the entries are equal and the token of r is greater.
#[tactic(auto, unfolding(crate::specs::Row::is_stronger))]
fn is_stronger<R: Row>(r: &R, s: &R) -> bool
    ensures { result ≡ is_stronger (R.value r.now) (R.value s.now) }
{
    newer(r.entry(), s.entry())
        || same_entry(r.entry(), s.entry())
            && r.token_bytes().cmp(s.token_bytes()) == Ordering::Greater
}

/// Whether r and s have the same entry and the same token.
#[tactic(auto, unfolding(crate::specs::Row::same_row))]
pub fn same<R: Row, Q: Row>(r: &R, s: &Q) -> bool
    ensures { result ≡ same_row (R.value r.now) (Q.value s.now) }
{
    same_entry(r.entry(), s.entry()) && r.token_bytes() == s.token_bytes()
}

/// Whether r is s or dominates it.
#[tactic(auto, unfolding(crate::specs::Row::is_covering))]
pub fn covers<R: Row>(r: &R, s: &R) -> bool
    ensures { result ≡ is_covering (R.value r.now) (R.value s.now) }
{
    same(r, s) || dominates(r, s)
}

/// How places within a namespace are ordered: by subspace, then by path.
pub fn by_subspace_path(p: (&UserKey, &Path), q: (&UserKey, &Path)) -> Ordering
    ensures { result ≡ subspace_path_cmp (p.entry.0.now, p.entry.1.now) (q.entry.0.now, q.entry.1.now) }
{
    match p.0.cmp(q.0) {
        Ordering::Equal => p.1.cmp(q.1),
        order => order,
    }
}

/// How r and s are ordered within a namespace, whatever namespaces they are of: by subspace, then by path.
pub fn by_inner_place<R: Row, Q: Row>(r: &R, s: &Q) -> Ordering
    ensures { result ≡ inner_place_cmp (R.value r.now) (Q.value s.now) }
{
    let (e, f) = (r.entry(), s.entry());
    by_subspace_path((&e.subspace, &e.path), (&f.subspace, &f.path))
}

/// How the places of r and s are ordered: by namespace, then by subspace, then by path.
#[tactic(auto, unfolding(crate::specs::Row::place_cmp))]
pub fn by_place<R: Row>(r: &R, s: &R) -> Ordering
    ensures { result ≡ place_cmp (R.value r.now) (R.value s.now) }
{
    match r.entry().namespace.cmp(&s.entry().namespace) {
        Ordering::Equal => by_inner_place(r, s),
        order => order,
    }
}

/// The first position whose row is s or dominates it.
pub fn cover<R: Row>(rows: &[R], s: &R) -> Option<usize>
    ensures first { result ≡ position (λ r. is_covering r (R.value s.now)) (map R.value rows.now) }
    ensures found { IfSome result (λ i. IsCoveringAt (map R.value rows.now) i (R.value s.now)) }
    ensures none { IfNone result (HasCovering (map R.value rows.now) (R.value s.now) → ⊥) }
{
    first_cover(rows, s)
}

// The same, as a place in the list of the rows themselves.
fn first_cover<R: Row>(rows: &[R], s: &R) -> Option<usize>
    ensures { result ≡ position (λ r. is_covering (R.value r) (R.value s.now)) rows.now }
{
    rows.iter().position(|r| covers(r, s))
}

/// A row with the number of the pass that offered it. A contract sees both.
#[derive(Drop)]
pub struct LogRow<R> {
    /// The number of the pass.
    pub pass: u32,
    /// The row that it offered.
    pub row: R,
}

impl<R: Row> LogRow<R> {
    /// The same pass and a row of the same entry and token.
    pub fn copy(&self) -> Result<LogRow<R>, NoMemory>
        ensures { IfOk result (λ copy. log_value R.value copy ≡ log_value R.value self.now) }
    {
        Ok(LogRow {
            pass: self.pass,
            row: self.row.copy()?,
        })
    }
}
