//! The order of an image's rows: they rise by subspace and path, and no row dominates a later one.

ghost use Rattle.std.specs.Prelude.{◌≡◌, ◌↔◌, ◌+◌, [], ◌∷◌, ◌++◌, ◌<◌, ◌^◌, List, length, map, option_map, None, Some, Ok, IfOk, IsTrue, OnErr, OnOk};
ghost use Rattle.std.specs.List.{last_or};
ghost use Rattle.willow_entry.specs.Row.{RowValue, inner_place_cmp};
ghost use Rattle.peer_image.specs.Fronts.{at_prefixes_of, first_dominating, fronts_of, is_at_inner_prefix, last_fronts, numbered, seen, StandBehind};
ghost use Rattle.peer_image.specs.Order.{fall_after, first_fall, first_pruned, order_refusal, pruned_after, IsInnerRising};

use crate::refusal::ImageRefusal;
use spelling::NoMemory;
use std::alloc::Global;
use willow_entry::{Row, by_inner_place, dominates};

// Why the rows are none of a store: they do not rise, or else a row dominates a later one. Memory is asked for where they rise.
#[tactic(auto, using(crate::proofs::Falls::rising_from_none))]
pub(crate) fn order_refusal<R: Row>(
    alloc: Global,
    rows: &[R],
) -> Result<Option<ImageRefusal>, NoMemory>
    requires { length rows.now < 2 ^ 32 }
    ensures found { IfOk result (λ found. found ≡ order_refusal (map R.value rows.now)) }
    ensures some { OnErr result (0 < length rows.now) }
    ensures rising { OnErr result (IsInnerRising (map R.value rows.now)) }
{
    match first_fall(rows) {
        Some(refusal) => Ok(Some(refusal)),
        None => first_pruned(alloc, rows),
    }
}

// The first row that does not stand above the row before it.
#[tactic(auto, unfolding(crate::specs::Order::first_fall))]
fn first_fall<R: Row>(rows: &[R]) -> Option<ImageRefusal>
    requires { length rows.now < 2 ^ 32 }
    ensures { result ≡ first_fall (map R.value rows.now) }
{
    match rows {
        [] => None,
        [first, others @ ..] => fall_after(first, others),
    }
}

// The first of the rows that does not stand above the row before it, where `first` stands before all of them.
fn fall_after<R: Row>(first: &R, others: &[R]) -> Option<ImageRefusal>
    requires { length others.now + 1 < 2 ^ 32 }
    ensures { result ≡ fall_after 2 (R.value first.now) (map R.value others.now) }
{
    let mut last = first;
    let mut at = 1;
    for row in others {
        at += 1;
        if !by_inner_place(last, row).is_lt() {
            return Some(ImageRefusal::NotRising { at });
        }
        last = row;
    }
    None
}

// A row with its number, counted from 1.
#[derive(Drop)]
struct Front<'a, R> {
    at: u32,
    row: &'a R,
}

// Whether r stands in the subspace of s, at a prefix of its path.
#[tactic(auto, unfolding(crate::specs::Fronts::is_at_inner_prefix))]
fn is_at_inner_prefix<R: Row>(r: &R, s: &R) -> bool
    ensures { result ≡ is_at_inner_prefix (R.value r.now) (R.value s.now) }
{
    let (e, f) = (r.entry(), s.entry());
    e.subspace == f.subspace && e.path.is_prefix_of(&f.path)
}

// Leaves those that stand at prefixes of the row.
fn keep_fronts<R: Row>(fronts: &mut Vec<Front<R>>, row: &R)
    ensures { map (seen R.value) fronts.new.items ≡ fronts_of (R.value row.now) (map (seen R.value) fronts.old.items) }
{
    fronts.retain(|front| is_at_inner_prefix(front.row, row));
}

// The number of the first that dominates the row.
#[tactic(auto, unfolding(crate::specs::Fronts::first_dominating))]
fn dominating<R: Row>(fronts: &[Front<R>], row: &R) -> Option<u32>
    ensures { result ≡ first_dominating (R.value row.now) (map (seen R.value) fronts.now) }
{
    match fronts {
        [] => None,
        [front, others @ ..] => {
            if dominates(front.row, row) {
                Some(front.at)
            } else {
                dominating(others, row)
            }
        }
    }
}

// The first row that an earlier one dominates.
fn first_pruned<R: Row>(alloc: Global, rows: &[R]) -> Result<Option<ImageRefusal>, NoMemory>
    requires count { length rows.now < 2 ^ 32 }
    requires rising { IsInnerRising (map R.value rows.now) }
    ensures found { IfOk result (λ found. found ≡ first_pruned (map R.value rows.now)) }
    ensures some { OnErr result (0 < length rows.now) }
{
    pruned_behind(Vec::new(alloc), 0, rows)
}

// The first of the rows that an earlier one dominates, where so many stand before them and the fronts of these are given.
// Such rows stand at prefixes of its path, and as rows rise by subspace and path, what is at no prefix of a row is at none
// of a later one: so only the prefixes of the row before are looked at. Rows of other namespaces may stand between, so
// namespaces do not decide what is kept.
fn pruned_behind<'a, R: Row>(
    mut fronts: Vec<Front<'a, R>>,
    before: u32,
    rows: &'a [R],
) -> Result<Option<ImageRefusal>, NoMemory>
    requires { before + length rows.now < 2 ^ 32 }
    ensures found { (earlier : List RowValue) → StandBehind earlier (map (seen R.value) fronts.entry.items) before (map R.value rows.now)
        → IfOk result (λ found. found ≡ pruned_after earlier (map R.value rows.now)) }
    ensures some { OnErr result (0 < length rows.now) }
{
    pruned_along(&mut fronts, before, rows)
}

// The same, where the fronts are borrowed and go along with the rows.
fn pruned_along<'a, R: Row>(
    fronts: &mut Vec<Front<'a, R>>,
    before: u32,
    rows: &'a [R],
) -> Result<Option<ImageRefusal>, NoMemory>
    requires { before + length rows.now < 2 ^ 32 }
    ensures found { (earlier : List RowValue) → StandBehind earlier (map (seen R.value) fronts.old.items) before (map R.value rows.now)
        → IfOk result (λ found. found ≡ pruned_after earlier (map R.value rows.now)) }
    ensures some { OnErr result (0 < length rows.now) }
{
    let mut at = before;
    for row in rows {
        at += 1;
        if let Some(by) = judge_next(fronts, at, row)? {
            return Ok(Some(ImageRefusal::Pruned { at, by }));
        }
    }
    Ok(None)
}

// The number of the first front that dominates the row. Where none does, memory is asked for, and the fronts become those of
// the row, with itself behind them under this number.
fn judge_next<'a, R: Row>(
    fronts: &mut Vec<Front<'a, R>>,
    at: u32,
    row: &'a R,
) -> Result<Option<u32>, NoMemory>
    ensures by { IfOk result (λ by. by ≡ first_dominating (R.value row.now) (fronts_of (R.value row.now) (map (seen R.value) fronts.old.items))) }
    ensures kept { result ≡ Ok None → map (seen R.value) fronts.new.items ≡ fronts_of (R.value row.now) (map (seen R.value) fronts.old.items) ++ record { at = at; row = R.value row.now } ∷ [] }
    ensures undominated { OnErr result (first_dominating (R.value row.now) (fronts_of (R.value row.now) (map (seen R.value) fronts.old.items)) ≡ None) }
{
    keep_fronts(fronts, row);
    match dominating(fronts, row) {
        Some(by) => Ok(Some(by)),
        None => {
            fronts.push(Front { at, row })?;
            Ok(None)
        }
    }
}

// ---- a part at a time

/// Whether the rows are in order behind others, of which the fronts of the last are given: those at prefixes of its path,
/// itself among them. By these alone it shows for all (`fronts_decide_order`). Memory is asked for where the rows rise.
pub fn are_in_order<R: Row>(alloc: Global, fronts: &[R], rows: &[R]) -> Result<bool, NoMemory>
    requires count { length fronts.now + length rows.now < 2 ^ 32 }
    requires in_order { order_refusal (map R.value fronts.now) ≡ None }
    ensures order { IfOk result (λ x. IsTrue x ↔ (order_refusal (map R.value fronts.now ++ map R.value rows.now) ≡ None)) }
    ensures rising { OnErr result (IsInnerRising (map R.value fronts.now ++ map R.value rows.now)) }
{
    if !rise_behind(fronts, rows) {
        return Ok(false);
    }
    let kept = numbered(alloc, fronts)?;
    let pruned = pruned_behind(kept, fronts.len() as u32, rows)?;
    Ok(pruned.is_none())
}

// Whether the rows rise behind others that do.
fn rise_behind<R: Row>(earlier: &[R], rows: &[R]) -> bool
    requires count { length earlier.now + length rows.now < 2 ^ 32 }
    requires rising { IsInnerRising (map R.value earlier.now) }
    ensures { IsTrue result ↔ IsInnerRising (map R.value earlier.now ++ map R.value rows.now) }
{
    match earlier.last() {
        Some(last) => fall_after(last, rows).is_none(),
        None => first_fall(rows).is_none(),
    }
}

// The rows with their numbers.
fn numbered<R: Row>(alloc: Global, rows: &[R]) -> Result<Vec<Front<R>>, NoMemory>
    requires { length rows.now < 2 ^ 32 }
    ensures { IfOk result (λ fronts. map (seen R.value) fronts.items ≡ numbered 1 (map R.value rows.now)) }
{
    let mut fronts = Vec::with_capacity(alloc, rows.len())?;
    let mut at = 0;
    for row in rows {
        at += 1;
        fronts.push(Front { at, row })?;
    }
    Ok(fronts)
}

/// The fronts of the last of the rows, as rows of their own: those at prefixes of its path, itself among them. They are
/// found among the rows and the fronts of those before (`fronts_go_on`).
pub fn last_fronts<R: Row>(alloc: Global, fronts: &[R], rows: &[R]) -> Result<Vec<R>, NoMemory>
    ensures { IfOk result (λ kept. map R.value kept.items ≡ last_fronts (map R.value fronts.now ++ map R.value rows.now)) }
{
    let mut kept = Vec::new(alloc);
    if let Some(last) = last_of(fronts, rows) {
        copy_fronts(fronts, last, &mut kept)?;
        copy_fronts(rows, last, &mut kept)?;
    }
    Ok(kept)
}

// The last of the rows, or of the earlier ones where there are none.
fn last_of<'a, R: Row>(earlier: &'a [R], rows: &'a [R]) -> Option<&'a R>
    ensures { option_map (λ r. R.value r.now) result ≡ last_or None (map R.value earlier.now ++ map R.value rows.now) }
{
    match rows.last() {
        Some(last) => Some(last),
        None => earlier.last(),
    }
}

// Puts copies of those that stand at prefixes of the last row behind the kept ones.
fn copy_fronts<R: Row>(rows: &[R], last: &R, kept: &mut Vec<R>) -> Result<(), NoMemory>
    ensures { OnOk result (map R.value kept.new.items ≡ map R.value kept.old.items ++ at_prefixes_of (Some (R.value last.now)) (map R.value rows.now)) }
{
    for row in rows {
        if is_at_inner_prefix(row, last) {
            kept.push(row.copy()?)?;
        }
    }
    Ok(())
}
