//! Trees put together at a slot.

ghost use Rattle.std.specs.Prelude.{◌≡◌, ℕ, ◌+◌, ◌<◌, ◌≤◌, length, Some};
ghost use Rattle.link_arena.specs.Tree.{Tree, AreReady, IsWoven, height};
ghost use Rattle.link_arena.specs.Slots.{side, rest, IsSetAt, root_height, joint};

use crate::slot::{Link, Slot, link_at, set_link};
use crate::twice::Order;

// The height of the tree below a root.
fn height_of<T>(slots: &[Slot<T>], order: Order, root: Option<u32>) -> u32
    ensures { result ≡ root_height (side order slots.now) root }
{
    match root {
        None => 0,
        Some(at) => link_at(slots, order, at).height,
    }
}

// Hangs two trees below a slot.
pub(crate) fn join<T>(
    slots: &mut [Slot<T>],
    order: Order,
    left: Option<u32>,
    at: u32,
    right: Option<u32>,
) -> Option<u32>
    ensures top { result ≡ Some at }
    ensures set { at < length slots.old → IsSetAt (side order slots.old) (side order slots.new) at (joint (side order slots.old) left right) }
    ensures rest { (s : ℕ) → rest order slots.new s ≡ rest order slots.old s }
{
    let height = height_of(slots, order, left)
        .max(height_of(slots, order, right))
        .saturating_add(1);
    let link = Link {
        left,
        right,
        height,
    };
    set_link(slots, order, at, link);
    Some(at)
}

// Joins them where the left tree, whose top is given, is two higher.
fn lower_left<T>(
    slots: &mut [Slot<T>],
    order: Order,
    top: u32,
    at: u32,
    right: Option<u32>,
) -> Option<u32>
    ensures woven { (a b : Tree) → AreReady (side order slots.old) (length slots.old) (Some top) a at right b → height b + 2 ≤ height a
        → IsWoven (side order slots.old) (side order slots.new) result a at b }
    ensures rest { (s : ℕ) → rest order slots.new s ≡ rest order slots.old s }
{
    let link = link_at(slots, order, top);
    match link.right {
        Some(middle) if height_of(slots, order, link.left) < height_of(slots, order, link.right) =>
            {
                let inner = link_at(slots, order, middle);
                let first = join(slots, order, link.left, top, inner.left);
                let last = join(slots, order, inner.right, at, right);
                join(slots, order, first, middle, last)
            }
        _ => {
            let lower = join(slots, order, link.right, at, right);
            join(slots, order, link.left, top, lower)
        }
    }
}

// Joins them where the right tree, whose top is given, is two higher.
fn lower_right<T>(
    slots: &mut [Slot<T>],
    order: Order,
    left: Option<u32>,
    at: u32,
    top: u32,
) -> Option<u32>
    ensures woven { (a b : Tree) → AreReady (side order slots.old) (length slots.old) left a at (Some top) b → height a + 2 ≤ height b
        → IsWoven (side order slots.old) (side order slots.new) result a at b }
    ensures rest { (s : ℕ) → rest order slots.new s ≡ rest order slots.old s }
{
    let link = link_at(slots, order, top);
    match link.left {
        Some(middle) if height_of(slots, order, link.right) < height_of(slots, order, link.left) =>
            {
                let inner = link_at(slots, order, middle);
                let last = join(slots, order, inner.right, top, link.right);
                let first = join(slots, order, left, at, inner.left);
                join(slots, order, first, middle, last)
            }
        _ => {
            let lower = join(slots, order, left, at, link.left);
            join(slots, order, lower, top, link.right)
        }
    }
}

// Joins two trees whose heights differ by at most two into one that is balanced.
pub(crate) fn weave<T>(
    slots: &mut [Slot<T>],
    order: Order,
    left: Option<u32>,
    at: u32,
    right: Option<u32>,
) -> Option<u32>
    ensures woven { (a b : Tree) → AreReady (side order slots.old) (length slots.old) left a at right b
        → IsWoven (side order slots.old) (side order slots.new) result a at b }
    ensures rest { (s : ℕ) → rest order slots.new s ≡ rest order slots.old s }
{
    let before = height_of(slots, order, left);
    let after = height_of(slots, order, right);
    if before.saturating_sub(after) > 1 {
        if let Some(top) = left {
            return lower_left(slots, order, top, at, right);
        }
    }
    if after.saturating_sub(before) > 1 {
        if let Some(top) = right {
            return lower_right(slots, order, left, at, top);
        }
    }
    join(slots, order, left, at, right)
}
