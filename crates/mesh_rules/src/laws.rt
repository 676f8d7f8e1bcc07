//! The laws of a mesh, each the contract of a function that does nothing, at whatever areas `X` there are.

ghost use Rattle.std.specs.Prelude.{◌≡◌, ℕ, List, [], ◌∷◌, None};
ghost use Rattle.willow_entry.specs.Row.{RowValue, join};
ghost use Rattle.mesh_rules.specs.Events.{NodeEvent, node_rows};
ghost use Rattle.mesh_rules.specs.Reaching.{Reaches};
ghost use Rattle.mesh_rules.specs.Laws.{OnlyReachedAreHeld, LiveAreHeld, ExactMakesUpNoRow, ExactLeavesLive, OfferedReach, ReachingAreListed, IsExactRun, ReachedAreHeld, LiveOfReachedAreHeld, AllReach, LiveOfAreasAreHeld, SameOfAreasAreHeld};
ghost use Rattle.mesh_rules.specs.Small.{Subspace, joining, includes, meets_in_order, meets_out_of_order, meets_over, not_yet_told, told_again};

/// What needs no exact meetings: where none makes up a row, a node holds only rows that reach it; where each leaves live
/// rows, a node holds live rows.
pub fn any_meetings<X>()
    ensures only { OnlyReachedAreHeld X }
    ensures live { LiveAreHeld X }
{}

/// An exact meeting makes up no row, and leaves live rows.
pub fn exact_meetings<X>()
    ensures only { ExactMakesUpNoRow X }
    ensures live { ExactLeavesLive X }
{}

/// The rows that reach a node are rows that are offered, and each of these reaches one. For each node there is a list of
/// those that reach it.
pub fn reaching<X>()
    ensures offered { OfferedReach X }
    ensures listed { ReachingAreListed X }
{}

/// Where each meeting leaves its two nodes with the joins, over areas that include what dominates their rows: each node
/// holds live rows that reach it and covers all that do, so it holds what is live of these. Where all rows of an area reach
/// it, it holds there what is live of them, and two such nodes hold the same there.
pub fn mesh<X>()
    ensures reached { ReachedAreHeld X }
    ensures just { LiveOfReachedAreHeld X }
    ensures areas { LiveOfAreasAreHeld X }
    ensures agree { SameOfAreasAreHeld X }
{}

/// There are meshes whose runs meet what the laws ask, whatever the events are.
pub fn a_lawful_mesh()
    ensures exact { (events : List (NodeEvent Subspace)) → IsExactRun joining events }
{}

/// A row comes from node 0 by node 1 to node 2 where they meet in this order, and in the other order it does not; nor
/// does it come over another subspace. Where nodes 0 and 2 are offered a row each and meet node 1 in this order, the last
/// holds what is live of both rows and the first its own alone; once it has met node 1 again both rows reach both nodes, and
/// they hold the same.
pub fn small_meshes()
    ensures in_order { (r : RowValue) → node_rows joining (meets_in_order r) 2 ≡ r ∷ [] }
    ensures reaches { (r : RowValue) → Reaches includes (meets_in_order r) r 2 }
    ensures out_of_order { (r : RowValue) → node_rows joining (meets_out_of_order r) 2 ≡ [] }
    ensures does_not_reach { (r : RowValue) → Reaches includes (meets_out_of_order r) r 2 → ⊥ }
    ensures elsewhere { (r : RowValue) (subspace : List ℕ)
        → (r.entry.subspace ≡ subspace → ⊥) → node_rows joining (meets_over subspace r) 1 ≡ [] }
    ensures first_alone { (r s : RowValue) → node_rows joining (not_yet_told r s) 0 ≡ r ∷ [] }
    ensures last_both { (r s : RowValue) → node_rows joining (not_yet_told r s) 2 ≡ join (s ∷ []) (r ∷ []) }
    ensures all_to_first { (r s : RowValue) → AllReach includes (told_again r s) None 0 }
    ensures all_to_last { (r s : RowValue) → AllReach includes (told_again r s) None 2 }
    ensures again { (r s : RowValue)
        → node_rows joining (told_again r s) 0 ≡ node_rows joining (told_again r s) 2 }
{}
