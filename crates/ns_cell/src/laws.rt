//! What follows from the contracts of a cell's calls, each the contract of a function that does nothing.

ghost use Rattle.std.specs.Prelude.{◌≡◌, ℕ, ◌+◌, ◌≤◌, ◌++◌, List, [], ◌∷◌, length, take, slice_get, Result, Ok, Err, Some};
ghost use Rattle.spelling.specs.declared.ending.End.{End};
ghost use Rattle.spelling.specs.declared.ending.End.TheVariants.{Refused, NoMemory};
ghost use Rattle.willow_entry.specs.Row.{HasCovering, IsCoveringAt};
ghost use Rattle.ns_state.specs.Log.{values};
ghost use Rattle.ns_state.specs.Answer.{IsFull};
ghost use Rattle.ns_state.specs.declared.live_log.LogFull.{LogFull};
ghost use Rattle.ns_state.specs.declared.state.Told.{Told};
ghost use Rattle.ns_state.specs.declared.state.Told.TheVariants.{Stored, Kept};
ghost use Rattle.willow_entry.specs.declared.row.LogRow.{LogRow};
ghost use Rattle.ns_cell.specs.declared.limits.TheConstants.{PASS_LIMIT};
ghost use Rattle.ns_cell.specs.Passes.{CellValue, PassValue, IsLater};
ghost use Rattle.ns_cell.specs.Answers.{IsOffered, Call, Makes, stored_by, offered, place};
ghost use Rattle.ns_cell.specs.Closed.{IsClosed};
ghost use Rattle.ns_cell.specs.Histories.{CallMade, Leads, HaveDone, IsJoinOfAll};

use willow_entry::Row;

/// A cell has at most 65,536 passes.
pub fn limits()
    ensures { PASS_LIMIT ≡ 65536 }
{}

/// What each answer to an offer says of what the pass has then seen. Stored: the row stands at the position told, under
/// the number of the pass, it is the last, and no row before it covers it. Kept: the row at the position told is the row
/// or dominates it. LogFull: as many rows as a log may have were seen, and none covers the row. But where it was stored
/// the own list stays.
pub fn answers<R: Row>()
    ensures stored { (before after : PassValue R) (row : R) (at : ℕ)
        → IsOffered R.value before row after (Ok (Stored at))
        → (slice_get after.seen at ≡ Some (offered before row)) × (length after.seen ≡ at + 1)
        × (HasCovering (values R.value (take at after.seen)) (R.value row) → ⊥)
        × (after.own ≡ before.own ++ offered before row ∷ []) }
    ensures kept { (before after : PassValue R) (row : R) (at : ℕ)
        → IsOffered R.value before row after (Ok (Kept at))
        → IsCoveringAt (values R.value after.seen) at (R.value row) × (after.own ≡ before.own) }
    ensures full { (before after : PassValue R) (row : R) (full : LogFull)
        → IsOffered R.value before row after (Err (Refused full))
        → IsFull R.value after.seen row full.front × (after.own ≡ before.own) }
    ensures no_memory { (before after : PassValue R) (row : R)
        → IsOffered R.value before row after (Err NoMemory)
        → after.own ≡ before.own }
{}

/// Each call of a pass has its place in the one log between what the pass had seen before it and what it has seen after
/// it, and the places of one pass never fall, whatever it did between two calls.
pub fn places<R: Row>()
    ensures between { (before after : PassValue R) (call : Call R)
        → Makes R.value before call after
        → (length before.seen ≤ place call after) × (place call after ≤ length after.seen) }
    ensures rise { (first then next last : PassValue R) (call later_call : Call R)
        → Makes R.value first call then → IsLater then next → Makes R.value next later_call last
        → place call then ≤ place later_call last }
{}

/// Whatever a pass does, its cell and its number stand, and its own list grows by the row that it stored and by nothing
/// else: a snapshot, a reading of the log and a meeting leave it as it was.
pub fn calls<R: Row>()
    ensures stays { (before after : PassValue R) (call : Call R)
        → Makes R.value before call after → (after.cell ≡ before.cell) × (after.number ≡ before.number) }
    ensures own { (before after : PassValue R) (call : Call R)
        → Makes R.value before call after → after.own ≡ before.own ++ stored_by before call }
{}

/// Whatever passes do at the same time, and in whatever order their turns come: what is live of the log of a closed cell is
/// the join of the rows that it was opened with and of every row that any pass was told Stored or Kept. `begins`, `goes_on`:
/// what the passes did is known from the calls' contracts, one call after the other.
pub fn all_told<R: Row>()
    ensures join { (cell : CellValue) (opening log : List (LogRow R)) (deeds : ℕ → List (CallMade R)) (passes : List (PassValue R))
        → HaveDone R.value cell opening deeds passes → IsClosed passes log
        → IsJoinOfAll R.value opening deeds passes log }
    ensures begins { (pass : PassValue R) → Leads R.value pass [] pass }
    ensures goes_on { (first last after : PassValue R) (deeds : List (CallMade R)) (call : Call R)
        → Leads R.value first deeds last → Makes R.value last call after
        → Leads R.value first (deeds ++ record { call = call; after = after } ∷ []) after }
{}
