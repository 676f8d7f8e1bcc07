//! Walks down a tree.

ghost use Rattle.std.specs.Prelude.{◌≡◌, ℕ, ◌-◌, ◌*◌, ◌+◌, ◌^◌, ◌<◌, ◌≤◌, MatchOption, None};
ghost use Rattle.link_arena.specs.declared.twice.Order.TheVariants.{Key};
ghost use Rattle.link_arena.specs.Tree.{Tree, Stands, size, slots_of, times};
ghost use Rattle.link_arena.specs.Chain.{first_or};
ghost use Rattle.link_arena.specs.Slots.{side, value_at, IsTied};
ghost use Rattle.link_arena.specs.Ordered.{IsFilled};

use crate::slot::{Slot, link_at, value_of};
use crate::twice::{Order, Twice};
use std::cmp::Ordering;
use std::sync::ledger::Ledger;
use step_count::Steps;

// The slot whose value has the key of the probe.
pub(crate) fn find_key<T: Twice, L: Ledger>(
    slots: &[Slot<T>],
    root: Option<u32>,
    probe: &T,
    steps: &mut Steps<L>,
) -> Option<u32>
    requires { (t : Tree) × IsFilled (T.cmp_by Key) Key slots.now root t }
    ensures found { (t : Tree) → IsFilled (T.cmp_by Key) Key slots.now root t
        → MatchOption result ((s : ℕ) → 0 < times s t → ¬ IsTied (T.cmp_by Key) probe.now (value_at slots.now s))
        (λ s. (0 < times s t) × IsTied (T.cmp_by Key) probe.now (value_at slots.now s)) }
    ensures bound { (t : Tree) → IsFilled (T.cmp_by Key) Key slots.now root t
        → 2 ^ (steps.new - steps.old) ≤ (size t + 2) * (size t + 2) }
    ensures more { steps.old ≤ steps.new }
{
    let mut at = root;
    while let Some(slot) = at {
        let Some(value) = value_of(slots, slot) else {
            return None;
        };
        let link = link_at(slots, Order::Key, slot);
        match probe.by_key(value, steps) {
            Ordering::Less => at = link.left,
            Ordering::Equal => return at,
            Ordering::Greater => at = link.right,
        }
    }
    None
}

// The first slot of the tree below a root.
pub(crate) fn least<T>(slots: &[Slot<T>], order: Order, root: Option<u32>) -> Option<u32>
    requires { (t : Tree) × Stands (side order slots.now) root t }
    ensures { (t : Tree) → Stands (side order slots.now) root t → result ≡ first_or None (slots_of t) }
{
    let mut at = root;
    let mut least = None;
    while let Some(slot) = at {
        least = at;
        at = link_at(slots, order, slot).left;
    }
    least
}
