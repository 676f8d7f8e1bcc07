//! Values that have a key and a rank.

ghost use Rattle.std.specs.Prelude.{◌≡◌, ◌+◌};
ghost use Rattle.std.specs.Cmp.{IsTotalOrder};
ghost use Rattle.std.specs.declared.cmp.Ordering.{Ordering};
ghost use Rattle.std.specs.declared.cmp.Ordering.TheVariants.{Equal};
ghost use Rattle.link_arena.specs.declared.twice.Order.{Order};
ghost use Rattle.link_arena.specs.declared.twice.Order.TheVariants.{Key, Rank};

use std::cmp::Ordering;
use std::sync::ledger::Ledger;
use step_count::Steps;

/// One of the two orders of an arena.
#[derive(Clone, Copy, PartialEq, Eq)]
pub enum Order {
    Key,
    Rank,
}

/// A value that has a key and a rank. Each call takes one step.
pub trait Twice {
    ghost cmp_by: { Order → Self → Self → Ordering };

    /// How two values are ordered by key.
    fn by_key<L: Ledger>(&self, other: &Self, steps: &mut Steps<L>) -> Ordering
        ensures order { result ≡ cmp_by Key self.now other.now }
        ensures step { steps.new ≡ steps.old + 1 };

    /// How two values are ordered by rank.
    fn by_rank<L: Ledger>(&self, other: &Self, steps: &mut Steps<L>) -> Ordering
        ensures order { result ≡ cmp_by Rank self.now other.now }
        ensures step { steps.new ≡ steps.old + 1 };

    // Both orders are total.
    ghost total: { (order : Order) → IsTotalOrder (cmp_by order) };

    // Ranks differ where keys differ.
    ghost apart: { (a b : Self) → cmp_by Rank a b ≡ Equal → cmp_by Key a b ≡ Equal };
}

// How two values are ordered.
pub(crate) fn compare<T: Twice, L: Ledger>(
    order: Order,
    a: &T,
    b: &T,
    steps: &mut Steps<L>,
) -> Ordering
    ensures order { result ≡ T.cmp_by order a.now b.now }
    ensures step { steps.new ≡ steps.old + 1 }
{
    match order {
        Order::Key => a.by_key(b, steps),
        Order::Rank => a.by_rank(b, steps),
    }
}
