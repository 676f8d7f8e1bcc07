//! The slots of an arena, and what each names by index.

ghost use Rattle.std.specs.Prelude.{◌≡◌, ℕ, ◌<◌, true, false, length, option_copied};
ghost use Rattle.std.specs.declared.cmp.Ordering.TheVariants.{Less};
ghost use Rattle.link_arena.specs.Slots.{side, rest, afters, befores, slot_cmp, value_at, IsSetAt};

use crate::twice::{Order, Twice, compare};
use std::cmp::Ordering;
use std::sync::ledger::Ledger;
use step_count::Steps;

// A slot's place in the tree of one order.
#[derive(Clone, Copy)]
pub(crate) struct Link {
    pub left: Option<u32>,
    pub right: Option<u32>,
    pub height: u32,
}

// A slot's neighbours in the list of one order.
#[derive(Clone, Copy)]
pub(crate) struct Ends {
    pub before: Option<u32>,
    pub after: Option<u32>,
}

// What a slot holds: a value, or where it is vacant, the next vacant slot.
#[derive(Drop)]
pub(crate) enum Content<T> {
    Value(T),
    Vacant(Option<u32>),
}

#[derive(Drop)]
pub(crate) struct Slot<T> {
    pub content: Content<T>,
    pub key: Link,
    pub rank: Link,
    pub key_ends: Ends,
    pub rank_ends: Ends,
}

// The place of a slot that stands in no tree.
pub(crate) const UNLINKED: Link = Link {
    left: None,
    right: None,
    height: 0,
};

// The neighbours of a slot that stands alone.
pub(crate) const LOOSE: Ends = Ends {
    before: None,
    after: None,
};

// The place of a slot, or none where there is no such slot.
pub(crate) fn link_at<T>(slots: &[Slot<T>], order: Order, at: u32) -> Link
    ensures { result ≡ side order slots.now at }
{
    match (slots.get(at as usize), order) {
        (Some(slot), Order::Key) => slot.key,
        (Some(slot), Order::Rank) => slot.rank,
        (None, _) => UNLINKED,
    }
}

// Writes the place of a slot.
pub(crate) fn set_link<T>(slots: &mut [Slot<T>], order: Order, at: u32, link: Link)
    ensures set { at < length slots.old → IsSetAt (side order slots.old) (side order slots.new) at link }
    ensures rest { (s : ℕ) → rest order slots.new s ≡ rest order slots.old s }
{
    if at as usize >= slots.len() {
        return;
    }
    let slot = &mut slots[at as usize];
    match order {
        Order::Key => slot.key = link,
        Order::Rank => slot.rank = link,
    }
}

// The neighbours of a slot, or none where there is no such slot.
pub(crate) fn ends_at<T>(slots: &[Slot<T>], order: Order, at: u32) -> Ends
    ensures before { result.before ≡ befores order slots.now at }
    ensures after { result.after ≡ afters order slots.now at }
{
    match (slots.get(at as usize), order) {
        (Some(slot), Order::Key) => slot.key_ends,
        (Some(slot), Order::Rank) => slot.rank_ends,
        (None, _) => LOOSE,
    }
}

// Whether the value of a slot stands before that of another: not where one is vacant.
pub(crate) fn stands_before<T: Twice, L: Ledger>(
    slots: &[Slot<T>],
    order: Order,
    a: u32,
    b: u32,
    steps: &mut Steps<L>,
) -> bool
    ensures before { result ≡ true → slot_cmp (T.cmp_by order) (value_at slots.now a) (value_at slots.now b) ≡ Less }
    ensures not_before { result ≡ false → slot_cmp (T.cmp_by order) (value_at slots.now a) (value_at slots.now b) ≡ Less → ⊥ }
{
    match compare_slots(slots, order, a, b, steps) {
        Ordering::Less => true,
        _ => false,
    }
}

// How the values of two slots are ordered: as equal where one is vacant.
fn compare_slots<T: Twice, L: Ledger>(
    slots: &[Slot<T>],
    order: Order,
    a: u32,
    b: u32,
    steps: &mut Steps<L>,
) -> Ordering
    ensures order { result ≡ slot_cmp (T.cmp_by order) (value_at slots.now a) (value_at slots.now b) }
{
    match (value_of(slots, a), value_of(slots, b)) {
        (Some(first), Some(second)) => compare(order, first, second, steps),
        _ => Ordering::Equal,
    }
}

// The value of a slot, or none where it is vacant.
pub(crate) fn value_of<T>(slots: &[Slot<T>], at: u32) -> Option<&T>
    ensures { option_copied result ≡ value_at slots.now at }
{
    match slots.get(at as usize) {
        Some(
            Slot {
                content: Content::Value(value),
                ..
            },
        ) => Some(value),
        _ => None,
    }
}
