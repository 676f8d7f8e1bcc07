//! The laws of rows, for whoever reasons about stores: each is the contract of a function that does nothing,
//! over lists of what contracts see of rows.

ghost use Rattle.std.specs.Prelude.{◌≡◌, ℕ, ◌^◌, ◌-◌, ◌≤◌, ◌<◌, ◌↔◌, ◌⊎◌, List, [], ◌∷◌, ◌++◌, Contains, IsTrue, IsPermutation};
ghost use Rattle.std.specs.Cmp.{IsTotalOrder};
ghost use Rattle.std.specs.List.{IsDistinct};
ghost use Rattle.std.specs.Ordering.{eq_by_cmp, is_gt};
ghost use Rattle.std.specs.declared.cmp.Ordering.TheVariants.{Equal};
ghost use Rattle.willow_entry.specs.declared.entry.Entry.{Entry};
ghost use Rattle.willow_entry.specs.Rank.{RankValue, rank_cmp};
ghost use Rattle.willow_entry.specs.Entry.{is_newer, rank_of, IsNewer};
ghost use Rattle.spelling.specs.Form.{IsForm};
ghost use Rattle.spelling.specs.Reader.{IsReader};
ghost use Rattle.willow_entry.specs.EntryForm.{entry_at, entry_spelling, IsEntry};
ghost use Rattle.willow_entry.specs.RowBody.{row_body};
ghost use Rattle.willow_entry.specs.Row.{RowValue, is_dominating, is_covering, subspace_path_cmp, inner_place_cmp, place_cmp, live, new, join, Dominates, HasCovering, IsLive, same_row};

use crate::frame::MAX_FRAME;
use crate::placed::MAX_ROWS;

/// Newer is a strict order of entries, by timestamp, then digest, then payload length.
pub fn newer()
    ensures means { (e f : Entry) → IsTrue (is_newer e f) ↔ IsNewer e f }
    ensures irreflexive { (e : Entry) → IsNewer e e → ⊥ }
    ensures transitive { (e f g : Entry) → IsNewer e f → IsNewer f g → IsNewer e g }
{}

/// Domination is a strict order of rows.
pub fn domination()
    ensures means { (r s : RowValue) → IsTrue (is_dominating r s) ↔ Dominates r s }
    ensures irreflexive { (r : RowValue) → Dominates r r → ⊥ }
    ensures transitive { (r s t : RowValue) → Dominates r s → Dominates s t → Dominates r t }
{}

/// A row covers itself and what it dominates.
pub fn covering()
    ensures same { (r s : RowValue) → IsTrue (same_row r s) ↔ (r ≡ s) }
    ensures means { (r s : RowValue) → IsTrue (is_covering r s) ↔ ((r ≡ s) ⊎ Dominates r s) }
    ensures live { (rows : List RowValue) (r : RowValue) → Contains rows r → HasCovering (live rows) r }
{}

/// Ranks are totally ordered, and those that tie are equal. An entry is newer where its rank is above.
#[tactic(auto, unfolding(crate::specs::Entry::is_newer), using(crate::proofs::Ranks::rank_total, crate::proofs::Ranks::rank_tie))]
pub fn ranks()
    ensures total { IsTotalOrder rank_cmp }
    ensures tied { (r s : RankValue) → rank_cmp r s ≡ Equal → r ≡ s }
    ensures newer { (e f : Entry) → is_newer e f ≡ is_gt (rank_cmp (rank_of e) (rank_of f)) }
{}

/// Rows are ordered by namespace, subspace and path. Within one namespace that is by subspace and path.
pub fn places()
    ensures total { IsTotalOrder place_cmp }
    ensures in_one_namespace { (r s : RowValue) → r.entry.namespace ≡ s.entry.namespace
        → place_cmp r s ≡ inner_place_cmp r s }
{}

/// Places within a namespace are totally ordered, and those that tie are equal.
#[tactic(auto, using(crate::proofs::Ranks::subspace_path_total, crate::proofs::Ranks::subspace_path_tie, crate::proofs::Ranks::inner_place_total))]
pub fn inner_places()
    ensures total { IsTotalOrder subspace_path_cmp }
    ensures tied { (p q : List ℕ × List (List ℕ)) → subspace_path_cmp p q ≡ Equal → p ≡ q }
    ensures of_rows { IsTotalOrder inner_place_cmp }
{}

/// The limits are these numbers.
pub fn limits()
    ensures frame { MAX_FRAME ≡ 131072 }
    ensures rows { MAX_ROWS ≡ 2 ^ 32 - 1 }
{}

/// The live rows are just the undominated ones, each once, by strictly rising places, and nothing else is: so no
/// two of them stand at one place.
pub fn liveness()
    ensures holds { (rows : List RowValue) → IsLive rows (live rows) }
    ensures distinct { (rows : List RowValue) → IsDistinct (eq_by_cmp place_cmp) (live rows) }
    ensures only { (rows kept : List RowValue) → IsLive rows kept → kept ≡ live rows }
    ensures settled { (rows : List RowValue) → live (live rows) ≡ live rows }
{}

/// What is live does not rest on the order of the rows, nor on how often each stands there.
pub fn order_is_free()
    ensures members { (xs ys : List RowValue)
        → ((r : RowValue) → Contains xs r ↔ Contains ys r) → live xs ≡ live ys }
    ensures permutation { (xs ys : List RowValue) → IsPermutation xs ys → live xs ≡ live ys }
    ensures covering { (xs ys : List RowValue)
        → ((r : RowValue) → Contains ys r → HasCovering xs r)
        → ((r : RowValue) → Contains xs r → HasCovering ys r) → live xs ≡ live ys }
{}

/// To prune early changes nothing, and what follows a front covers what is live of it.
pub fn pruning_early()
    ensures parts { (xs ys : List RowValue) → live (live xs ++ live ys) ≡ live (xs ++ ys) }
    ensures new { (rows : List RowValue) → live (new rows) ≡ live rows }
    ensures front { (front back : List RowValue) (r : RowValue)
        → Contains (live front) r → HasCovering (front ++ back) r }
    ensures live_front { (front back : List RowValue) (r : RowValue)
        → Contains (live front) r → HasCovering (live (front ++ back)) r }
{}

/// A join keeps what is live of two sets of rows.
pub fn joins()
    ensures commutative { (xs ys : List RowValue) → join xs ys ≡ join ys xs }
    ensures associative { (xs ys zs : List RowValue) → join (join xs ys) zs ≡ join xs (join ys zs) }
    ensures idempotent { (xs : List RowValue) → live xs ≡ xs → join xs xs ≡ xs }
{}

/// The reader of entries goes by the spellings alone: an entry is whole exactly where its spelling stands in front, the
/// bytes are a part exactly where they begin a spelling and more is due, and wrong exactly where none begins so.
#[tactic(auto, using(crate::proofs::EntryReads::entry_reader))]
pub fn readers()
    ensures entry { IsReader entry_at entry_spelling IsEntry }
{}

/// An entry within its limits has one spelling, and no spelling of an entry begins another. A body is that of
/// one row.
pub fn one_spelling()
    ensures entry { IsForm entry_spelling IsEntry }
    ensures body { (r s : RowValue) → IsEntry r.entry → IsEntry s.entry
        → row_body r ≡ row_body s → r ≡ s }
{}
