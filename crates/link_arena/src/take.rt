//! A slot taken out of a tree.

ghost use Rattle.std.specs.Prelude.{◌≡◌, ℕ, length, Some};
ghost use Rattle.link_arena.specs.Tree.{Tree, IsTree, CanTake, IsOut, IsLeastOut};
ghost use Rattle.link_arena.specs.Slots.{side, rest, Precedes};

use crate::join::weave;
use crate::slot::{Slot, link_at, stands_before};
use crate::twice::{Order, Twice};
use std::sync::ledger::Ledger;
use step_count::Steps;

// Takes out the least slot of a tree, whose top is given, and answers it and the new root.
fn take_least<T: Twice>(slots: &mut [Slot<T>], order: Order, at: u32) -> (u32, Option<u32>)
    requires { (t : Tree) × IsTree (side order slots.old) (Precedes (T.cmp_by order) slots.old) (length slots.old) (Some at) t }
    ensures out { (t : Tree) → IsTree (side order slots.old) (Precedes (T.cmp_by order) slots.old) (length slots.old) (Some at) t
        → IsLeastOut (side order slots.old) (side order slots.new) (Precedes (T.cmp_by order) slots.old) (length slots.old) result.1 t result.0 }
    ensures rest { (s : ℕ) → rest order slots.new s ≡ rest order slots.old s }
{
    let link = link_at(slots, order, at);
    match link.left {
        None => (at, link.right),
        Some(below) => {
            let (least, left) = take_least(slots, order, below);
            (least, weave(slots, order, left, at, link.right))
        }
    }
}

// Takes out the top of a tree, and answers the new root.
fn take_top<T: Twice>(slots: &mut [Slot<T>], order: Order, at: u32) -> Option<u32>
    requires { (t : Tree) × IsTree (side order slots.old) (Precedes (T.cmp_by order) slots.old) (length slots.old) (Some at) t }
    ensures out { (t : Tree) → IsTree (side order slots.old) (Precedes (T.cmp_by order) slots.old) (length slots.old) (Some at) t
        → IsOut (side order slots.old) (side order slots.new) (Precedes (T.cmp_by order) slots.old) (length slots.old) result t at }
    ensures rest { (s : ℕ) → rest order slots.new s ≡ rest order slots.old s }
{
    let link = link_at(slots, order, at);
    match link.right {
        None => link.left,
        Some(below) => {
            let (least, right) = take_least(slots, order, below);
            weave(slots, order, link.left, least, right)
        }
    }
}

// Takes a slot out below a root, and answers the new root.
pub(crate) fn take<T: Twice, L: Ledger>(
    slots: &mut [Slot<T>],
    order: Order,
    root: Option<u32>,
    slot: u32,
    steps: &mut Steps<L>,
) -> Option<u32>
    requires { (t : Tree) × CanTake (side order slots.old) (Precedes (T.cmp_by order) slots.old) (length slots.old) root t slot }
    ensures out { (t : Tree) → CanTake (side order slots.old) (Precedes (T.cmp_by order) slots.old) (length slots.old) root t slot
        → IsOut (side order slots.old) (side order slots.new) (Precedes (T.cmp_by order) slots.old) (length slots.old) result t slot }
    ensures rest { (s : ℕ) → rest order slots.new s ≡ rest order slots.old s }
{
    let Some(at) = root else {
        return None;
    };
    if at == slot {
        return take_top(slots, order, at);
    }
    let link = link_at(slots, order, at);
    if stands_before(slots, order, slot, at, steps) {
        let left = take(slots, order, link.left, slot, steps);
        weave(slots, order, left, at, link.right)
    } else {
        let right = take(slots, order, link.right, slot, steps);
        weave(slots, order, link.left, at, right)
    }
}
