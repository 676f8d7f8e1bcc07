//! A slot put into a tree.

ghost use Rattle.std.specs.Prelude.{◌≡◌, ◌<◌, ℕ, length, None, Some};
ghost use Rattle.link_arena.specs.Tree.{Tree, AreReady, CanPut, IsWoven};
ghost use Rattle.link_arena.specs.Put.{IsPut};
ghost use Rattle.link_arena.specs.Slots.{side, rest, IsSetAt, Precedes, joint};

use crate::join::{join, weave};
use crate::slot::{Ends, Link, Slot, link_at, stands_before};
use crate::twice::{Order, Twice};
use std::sync::ledger::Ledger;
use step_count::Steps;

// The new root, and the neighbours of the slot.
#[derive(Clone, Copy)]
pub(crate) struct Placed {
    pub root: Option<u32>,
    pub ends: Ends,
}

// Puts a slot where there is no tree.
fn put_alone<T>(slots: &mut [Slot<T>], order: Order, new: u32, between: Ends) -> Placed
    ensures top { result.root ≡ Some new }
    ensures ends { result.ends ≡ between }
    ensures set { new < length slots.old → IsSetAt (side order slots.old) (side order slots.new) new (joint (side order slots.old) None None) }
    ensures rest { (s : ℕ) → rest order slots.new s ≡ rest order slots.old s }
{
    let root = join(slots, order, None, new, None);
    Placed {
        root,
        ends: between,
    }
}

// Puts together the left tree of a slot, into which one was put, and the right one.
fn weave_left<T>(slots: &mut [Slot<T>], order: Order, left: Placed, at: u32, link: Link) -> Placed
    ensures woven { (a b : Tree) → AreReady (side order slots.old) (length slots.old) left.root a at link.right b
        → IsWoven (side order slots.old) (side order slots.new) result.root a at b }
    ensures ends { result.ends ≡ left.ends }
    ensures rest { (s : ℕ) → rest order slots.new s ≡ rest order slots.old s }
{
    let root = weave(slots, order, left.root, at, link.right);
    Placed { root, ..left }
}

// Puts together the left tree of a slot and the right one, into which one was put.
fn weave_right<T>(slots: &mut [Slot<T>], order: Order, link: Link, at: u32, right: Placed) -> Placed
    ensures woven { (a b : Tree) → AreReady (side order slots.old) (length slots.old) link.left a at right.root b
        → IsWoven (side order slots.old) (side order slots.new) result.root a at b }
    ensures ends { result.ends ≡ right.ends }
    ensures rest { (s : ℕ) → rest order slots.new s ≡ rest order slots.old s }
{
    let root = weave(slots, order, link.left, at, right.root);
    Placed { root, ..right }
}

// Puts a slot below a root, which stands between two neighbours.
pub(crate) fn put<T: Twice, L: Ledger>(
    slots: &mut [Slot<T>],
    order: Order,
    root: Option<u32>,
    new: u32,
    between: Ends,
    steps: &mut Steps<L>,
) -> Placed
    requires { (t : Tree) × CanPut (side order slots.old) (Precedes (T.cmp_by order) slots.old) (length slots.old) root t new }
    ensures put { (t : Tree) → CanPut (side order slots.old) (Precedes (T.cmp_by order) slots.old) (length slots.old) root t new
        → IsPut (side order slots.old) (side order slots.new) (Precedes (T.cmp_by order) slots.old) (length slots.old) result.root t new between.before between.after result.ends.before result.ends.after }
    ensures rest { (s : ℕ) → rest order slots.new s ≡ rest order slots.old s }
{
    let Some(at) = root else {
        return put_alone(slots, order, new, between);
    };
    let link = link_at(slots, order, at);
    if stands_before(slots, order, new, at, steps) {
        let ends = Ends {
            after: Some(at),
            ..between
        };
        let left = put(slots, order, link.left, new, ends, steps);
        weave_left(slots, order, left, at, link)
    } else {
        let ends = Ends {
            before: Some(at),
            ..between
        };
        let right = put(slots, order, link.right, new, ends, steps);
        weave_right(slots, order, link, at, right)
    }
}
