//! What two stores of a namespace hold behind a meeting, and what the meeting tells and costs, in each version. These
//! functions do nothing: each is called, if at all, for its clauses.

ghost use Rattle.std.specs.Prelude.{◌≡◌, ℕ, ◌+◌, ◌*◌, ◌≤◌, max, List, [], length, Option, None, Some, IsTrue, All, Contains};
ghost use Rattle.std.specs.List.{IsDistinct};
ghost use Rattle.willow_area.specs.AreaBox.{area_box};
ghost use Rattle.willow_area.specs.Boxes.{Ranges};
ghost use Rattle.willow_area.specs.declared.area.Area.{Area};
ghost use Rattle.willow_entry.specs.Row.{RowValue, Dominates, HasCovering, join, live, same_row};
ghost use Rattle.block_store.specs.InBox.{is_in, rows_in};
ghost use Rattle.exchange_rules.specs.Items.{counted, to_left, to_right};
ghost use Rattle.exchange_rules.specs.Exchange.{Apart, exchange};
ghost use Rattle.sync_core.specs.SyncRules.{sync_rules};
ghost use Rattle.sync_pair.specs.Alone.{SayAlone};
ghost use Rattle.sync_pair.specs.Stores.{AreStores};
ghost use Rattle.sync_pair.specs.Agreement.{IsSelfContained, left_after, right_after};

/// Where the fingerprints of the exchange tell rows apart, each side comes to hold what it would if it joined its rows
/// with all that the other has in the box.
pub fn convergence()
    ensures left { (version : ℕ) (namespace : List ℕ) (a b : List RowValue) (x : Ranges)
        → AreStores namespace a b → Apart (sync_rules version) a b x
        → left_after version a b (Some x) ≡ join a (rows_in x b) }
    ensures right { (version : ℕ) (namespace : List ℕ) (a b : List RowValue) (x : Ranges)
        → AreStores namespace a b → Apart (sync_rules version) a b x
        → right_after version a b (Some x) ≡ join b (rows_in x a) }
{}

/// What a side holds then covers each of its own rows, whatever it was sent. Where the fingerprints tell rows apart, it
/// covers each row that the other has in the box.
pub fn covering()
    ensures left_keeps { (version : ℕ) (a b : List RowValue) (x : Option Ranges) → All (HasCovering (left_after version a b x)) a }
    ensures right_keeps { (version : ℕ) (a b : List RowValue) (x : Option Ranges) → All (HasCovering (right_after version a b x)) b }
    ensures left_gets { (version : ℕ) (namespace : List ℕ) (a b : List RowValue) (x : Ranges)
        → AreStores namespace a b → Apart (sync_rules version) a b x
        → All (HasCovering (left_after version a b (Some x))) (rows_in x b) }
    ensures right_gets { (version : ℕ) (namespace : List ℕ) (a b : List RowValue) (x : Ranges)
        → AreStores namespace a b → Apart (sync_rules version) a b x
        → All (HasCovering (right_after version a b (Some x))) (rows_in x a) }
{}

/// In a box that has the paths from the shortest on and times without end, as that of an area with the empty path and no
/// end of times, both sides then hold the same rows: those that the join of the two stores has there.
pub fn agreement()
    ensures left { (version : ℕ) (namespace : List ℕ) (a b : List RowValue) (x : Ranges)
        → AreStores namespace a b → IsSelfContained x → Apart (sync_rules version) a b x
        → rows_in x (left_after version a b (Some x)) ≡ rows_in x (join a b) }
    ensures right { (version : ℕ) (namespace : List ℕ) (a b : List RowValue) (x : Ranges)
        → AreStores namespace a b → IsSelfContained x → Apart (sync_rules version) a b x
        → rows_in x (right_after version a b (Some x)) ≡ rows_in x (join a b) }
    ensures areas { (version : ℕ) (namespace : List ℕ) (a b : List RowValue) (area : Area)
        → AreStores namespace a b → area.path ≡ [] → area.times.end ≡ None → Apart (sync_rules version) a b (area_box area)
        → rows_in (area_box area) (left_after version a b (Some (area_box area)))
        ≡ rows_in (area_box area) (right_after version a b (Some (area_box area))) }
{}

/// No row outside a box with the paths from the shortest on and times without end dominates one inside, so what is live
/// in it rests on the rows in it alone.
pub fn self_contained_boxes()
    ensures inside { (x : Ranges) (r s : RowValue)
        → IsSelfContained x → Dominates r s → IsTrue (is_in x s) → IsTrue (is_in x r) }
    ensures live { (x : Ranges) (rows : List RowValue)
        → IsSelfContained x → rows_in x (live rows) ≡ live (rows_in x rows) }
{}

/// A meeting over a box in which the stores have `a` and `b` rows has at most max(3, 3(a + b)) items, those of both sides
/// together.
pub fn bound()
    ensures { (version : ℕ) (namespace : List ℕ) (a b : List RowValue) (x : Ranges)
        → AreStores namespace a b
        → counted (exchange (sync_rules version) a b (Some x)) ≤ max 3 (3 * (length (rows_in x a) + length (rows_in x b))) }
{}

/// A side is sent only rows that the other has in the box, each once.
pub fn each_row_once()
    ensures left_only { (version : ℕ) (a b : List RowValue) (x : Ranges)
        → All (Contains (rows_in x b)) (to_left (exchange (sync_rules version) a b (Some x))) }
    ensures right_only { (version : ℕ) (a b : List RowValue) (x : Ranges)
        → All (Contains (rows_in x a)) (to_right (exchange (sync_rules version) a b (Some x))) }
    ensures left_once { (version : ℕ) (namespace : List ℕ) (a b : List RowValue) (x : Ranges)
        → AreStores namespace a b → IsDistinct same_row (to_left (exchange (sync_rules version) a b (Some x))) }
    ensures right_once { (version : ℕ) (namespace : List ℕ) (a b : List RowValue) (x : Ranges)
        → AreStores namespace a b → IsDistinct same_row (to_right (exchange (sync_rules version) a b (Some x))) }
{}

/// What is told rests on the rows in the box alone: rows elsewhere change nothing of it, nor of whether its fingerprints
/// tell rows apart.
pub fn two_worlds()
    ensures same { (version : ℕ) (a b c d : List RowValue) (x : Ranges)
        → rows_in x a ≡ rows_in x c → rows_in x b ≡ rows_in x d
        → exchange (sync_rules version) a b (Some x) ≡ exchange (sync_rules version) c d (Some x) }
    ensures apart { (version : ℕ) (a b c d : List RowValue) (x : Ranges)
        → rows_in x a ≡ rows_in x c → rows_in x b ≡ rows_in x d
        → Apart (sync_rules version) a b x → Apart (sync_rules version) c d x }
{}

/// So it is with each side by itself: what it says is a function of its own rows in the box and of the turns that it reads.
pub fn alone()
    ensures { (version : ℕ) (namespace : List ℕ) (a b : List RowValue) (x : Option Ranges)
        → AreStores namespace a b → SayAlone version a b x }
{}

/// Without an area that both sides read nothing is sent and nothing is counted, whatever the stores hold.
pub fn without_an_area()
    ensures to_left { (version : ℕ) (a b : List RowValue) → to_left (exchange (sync_rules version) a b None) ≡ [] }
    ensures to_right { (version : ℕ) (a b : List RowValue) → to_right (exchange (sync_rules version) a b None) ≡ [] }
    ensures counted { (version : ℕ) (a b : List RowValue) → counted (exchange (sync_rules version) a b None) ≡ 0 }
{}
