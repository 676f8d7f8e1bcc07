//! What the definitions mean. These functions do nothing: each is called, if at all, for its clauses.

ghost use Rattle.std.specs.Prelude.{◌≡◌, ◌↔◌, List, Contains};
ghost use Rattle.std.specs.Cmp.{IsTotalOrder};
ghost use Rattle.std.specs.declared.cmp.Ordering.TheVariants.{Less, Equal};
ghost use Rattle.willow_entry.specs.declared.entry.Entry.{Entry};
ghost use Rattle.willow_entry.specs.Entry.{IsNewer, rank_of};
ghost use Rattle.willow_entry.specs.Row.{RowValue, subspace_path_cmp};
ghost use Rattle.recency_index.specs.declared.ranked.Ranked.{Ranked};
ghost use Rattle.recency_index.specs.Recency.{ranked_of, recency_cmp, newest, AreNewestFirst};
ghost use Rattle.recency_index.specs.Rows.{items_of, newest_rows};

/// Recency is a total order, in which items that tie are equal. A newer entry comes first, and of entries of one rank the
/// one at the lower place.
#[tactic(auto, using(crate::proofs::Order::recency_total, crate::proofs::Order::recency_tie, crate::proofs::Order::newer_first, crate::proofs::Order::place_decides))]
pub fn recency()
    ensures total { IsTotalOrder recency_cmp }
    ensures tied { (a b : Ranked) → recency_cmp a b ≡ Equal → a ≡ b }
    ensures newer { (e f : Entry) → IsNewer e f → recency_cmp (ranked_of e) (ranked_of f) ≡ Less }
    ensures place { (e f : Entry) → rank_of e ≡ rank_of f → recency_cmp (ranked_of e) (ranked_of f) ≡ subspace_path_cmp (e.subspace, e.path) (f.subspace, f.path) }
{}

/// The most recent first: just the items of the list, each before those that it is more recent than, and no other list is
/// so.
#[tactic(auto, using(crate::proofs::Newest::newest_is_so, crate::proofs::Newest::newest_holds, crate::proofs::Newest::newest_only))]
pub fn newest_first()
    ensures order { (items : List Ranked) → AreNewestFirst (newest items) }
    ensures members { (items : List Ranked) (item : Ranked) → Contains (newest items) item ↔ Contains items item }
    ensures only { (items kept : List Ranked) → AreNewestFirst kept → ((item : Ranked) → Contains kept item ↔ Contains items item) → kept ≡ newest items }
{}

/// The newest rows are rows of the list, and their items are the newest of the rows' items.
#[tactic(auto, using(crate::proofs::Rows::newest_items, crate::proofs::Rows::newest_member))]
pub fn newest_rows()
    ensures items { (rows : List RowValue) → items_of (newest_rows rows) ≡ newest (items_of rows) }
    ensures rows { (rows : List RowValue) (r : RowValue) → Contains (newest_rows rows) r → Contains rows r }
{}
