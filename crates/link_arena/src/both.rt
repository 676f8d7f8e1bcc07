//! Two orders of one set of slots.

ghost use Rattle.std.specs.Prelude.{◌≡◌, ℕ};
ghost use Rattle.link_arena.specs.Tree.{Tree};
ghost use Rattle.link_arena.specs.Both.{top_of, CanAdd, CanRemove, AreAdded, AreRemoved};
ghost use Rattle.link_arena.specs.Slots.{content_at};

use crate::order::{add, remove};
use crate::slot::Slot;
use crate::twice::{Order, Twice};
use std::sync::ledger::{Blank, Ledger};
use step_count::Steps;

// The tops of the two trees.
#[derive(Clone, Copy)]
pub(crate) struct Tops {
    pub key: Option<u32>,
    pub rank: Option<u32>,
}

impl Tops {
    // The top of the tree of one order.
    pub(crate) fn of(self, order: Order) -> Option<u32>
        ensures { result ≡ top_of order self }
    {
        match order {
            Order::Key => self.key,
            Order::Rank => self.rank,
        }
    }
}

// Adds a slot to both orders, and answers the new tops.
pub(crate) fn add_both<T: Twice, L: Ledger>(
    slots: &mut [Slot<T>],
    tops: Tops,
    new: u32,
    steps: &mut Steps<L>,
) -> Tops
    requires { (t : Tree) × ((u : Tree) × CanAdd T.cmp_by slots.old tops.key tops.rank t u new) }
    ensures added { (t u : Tree) → CanAdd T.cmp_by slots.old tops.key tops.rank t u new → AreAdded T.cmp_by slots.new result.key result.rank t u new }
    ensures contents { (s : ℕ) → content_at slots.new s ≡ content_at slots.old s }
{
    let key = add(slots, Order::Key, tops.key, new, steps);
    let rank = add(slots, Order::Rank, tops.rank, new, steps);
    Tops { key, rank }
}

// Removes a slot from both orders, and answers the new tops. The blank is a new ledger of one part, which L names.
pub(crate) fn remove_both<T: Twice, L: Ledger>(
    slots: &mut [Slot<T>],
    tops: Tops,
    slot: u32,
    blank: Blank,
) -> Tops
    requires there { (t : Tree) × ((u : Tree) × CanRemove T.cmp_by slots.old tops.key tops.rank t u slot) }
    requires name { blank.name ≡ L.name }
    requires parts { blank.parts ≡ L.parts }
    requires one { blank.parts ≡ 1 }
    ensures removed { (t u : Tree) → CanRemove T.cmp_by slots.old tops.key tops.rank t u slot → AreRemoved T.cmp_by slots.new result.key result.rank t u slot }
    ensures contents { (s : ℕ) → content_at slots.new s ≡ content_at slots.old s }
{
    let mut steps = Steps::<L>::new(blank);
    let key = remove(slots, Order::Key, tops.key, slot, &mut steps);
    let rank = remove(slots, Order::Rank, tops.rank, slot, &mut steps);
    Tops { key, rank }
}
