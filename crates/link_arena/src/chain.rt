//! Slots linked into a doubly linked list, and out of it.

ghost use Rattle.std.specs.Prelude.{◌≡◌, ℕ, ◌<◌, ◌≢◌, length, Some, None, List, ◌++◌, ◌∷◌};
ghost use Rattle.link_arena.specs.Slots.{afters, befores, loose};
ghost use Rattle.link_arena.specs.Chain.{CanLink, IsChained};

use crate::slot::{Ends, Slot};
use crate::twice::Order;

// Makes a slot, where there is one, name the next.
fn point_after<T>(slots: &mut [Slot<T>], order: Order, at: Option<u32>, to: Option<u32>)
    ensures set { (z : ℕ) → at ≡ Some z → z < length slots.old → afters order slots.new z ≡ to }
    ensures others { (s : ℕ) → at ≢ Some s → afters order slots.new s ≡ afters order slots.old s }
    ensures before { (s : ℕ) → befores order slots.new s ≡ befores order slots.old s }
    ensures rest { (s : ℕ) → loose order slots.new s ≡ loose order slots.old s }
{
    let Some(at) = at else {
        return;
    };
    if at as usize >= slots.len() {
        return;
    }
    let slot = &mut slots[at as usize];
    match order {
        Order::Key => slot.key_ends.after = to,
        Order::Rank => slot.rank_ends.after = to,
    }
}

// Makes a slot, where there is one, name the one before.
fn point_before<T>(slots: &mut [Slot<T>], order: Order, at: Option<u32>, to: Option<u32>)
    ensures set { (z : ℕ) → at ≡ Some z → z < length slots.old → befores order slots.new z ≡ to }
    ensures others { (s : ℕ) → at ≢ Some s → befores order slots.new s ≡ befores order slots.old s }
    ensures after { (s : ℕ) → afters order slots.new s ≡ afters order slots.old s }
    ensures rest { (s : ℕ) → loose order slots.new s ≡ loose order slots.old s }
{
    let Some(at) = at else {
        return;
    };
    if at as usize >= slots.len() {
        return;
    }
    let slot = &mut slots[at as usize];
    match order {
        Order::Key => slot.key_ends.before = to,
        Order::Rank => slot.rank_ends.before = to,
    }
}

// Links a slot in between two neighbours.
pub(crate) fn link_in<T>(slots: &mut [Slot<T>], order: Order, new: u32, between: Ends)
    ensures chained { (first last : List ℕ) → CanLink (length slots.old) first new last between.before between.after
        → IsChained (afters order slots.old) (befores order slots.old) (first ++ last)
        → IsChained (afters order slots.new) (befores order slots.new) (first ++ new ∷ last) }
    ensures rest { (s : ℕ) → loose order slots.new s ≡ loose order slots.old s }
{
    point_after(slots, order, Some(new), between.after);
    point_before(slots, order, Some(new), between.before);
    point_after(slots, order, between.before, Some(new));
    point_before(slots, order, between.after, Some(new));
}

// Links a slot out from between its neighbours.
pub(crate) fn link_out<T>(slots: &mut [Slot<T>], order: Order, slot: u32, between: Ends)
    ensures chained { (first last : List ℕ) → CanLink (length slots.old) first slot last between.before between.after
        → IsChained (afters order slots.old) (befores order slots.old) (first ++ slot ∷ last)
        → IsChained (afters order slots.new) (befores order slots.new) (first ++ last) }
    ensures rest { (s : ℕ) → loose order slots.new s ≡ loose order slots.old s }
{
    point_after(slots, order, between.before, between.after);
    point_before(slots, order, between.after, between.before);
}
