//! One order of the slots: a tree and a list of the same slots.

ghost use Rattle.std.specs.Prelude.{◌≡◌, ℕ, length, Option};
ghost use Rattle.link_arena.specs.Tree.{Tree, CanPut, CanTake};
ghost use Rattle.link_arena.specs.Ordered.{IsOrdered, IsAdded, IsRemoved};
ghost use Rattle.link_arena.specs.Slots.{side, Precedes, content_at, other};

use crate::chain::{link_in, link_out};
use crate::put::put;
use crate::slot::{LOOSE, Slot, ends_at};
use crate::take::take;
use crate::twice::{Order, Twice};
use std::sync::ledger::Ledger;
use step_count::Steps;

// Adds a slot to one order, and answers the new root.
pub(crate) fn add<T: Twice, L: Ledger>(
    slots: &mut [Slot<T>],
    order: Order,
    root: Option<u32>,
    new: u32,
    steps: &mut Steps<L>,
) -> Option<u32>
    requires { (t : Tree) × CanPut (side order slots.old) (Precedes (T.cmp_by order) slots.old) (length slots.old) root t new }
    ensures added { (t : Tree) → IsOrdered (T.cmp_by order) order slots.old root t
        → CanPut (side order slots.old) (Precedes (T.cmp_by order) slots.old) (length slots.old) root t new
        → IsAdded (T.cmp_by order) order slots.new result t new }
    ensures other { (q : Option ℕ) (t : Tree) → IsOrdered (T.cmp_by (other order)) (other order) slots.old q t
        → IsOrdered (T.cmp_by (other order)) (other order) slots.new q t }
    ensures contents { (s : ℕ) → content_at slots.new s ≡ content_at slots.old s }
{
    let placed = put(slots, order, root, new, LOOSE, steps);
    link_in(slots, order, new, placed.ends);
    placed.root
}

// Removes a slot from one order, and answers the new root.
pub(crate) fn remove<T: Twice, L: Ledger>(
    slots: &mut [Slot<T>],
    order: Order,
    root: Option<u32>,
    slot: u32,
    steps: &mut Steps<L>,
) -> Option<u32>
    requires { (t : Tree) × CanTake (side order slots.old) (Precedes (T.cmp_by order) slots.old) (length slots.old) root t slot }
    ensures removed { (t : Tree) → IsOrdered (T.cmp_by order) order slots.old root t
        → CanTake (side order slots.old) (Precedes (T.cmp_by order) slots.old) (length slots.old) root t slot
        → IsRemoved (T.cmp_by order) order slots.new result t slot }
    ensures other { (q : Option ℕ) (t : Tree) → IsOrdered (T.cmp_by (other order)) (other order) slots.old q t
        → IsOrdered (T.cmp_by (other order)) (other order) slots.new q t }
    ensures contents { (s : ℕ) → content_at slots.new s ≡ content_at slots.old s }
{
    let root = take(slots, order, root, slot, steps);
    let between = ends_at(slots, order, slot);
    link_out(slots, order, slot, between);
    root
}
