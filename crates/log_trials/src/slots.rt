//! Values put in and taken out, beside sorted vectors.

ghost use Rattle.std.specs.Prelude.{◌≡◌};

use link_arena::{Arena, Order, Twice};
use std::alloc::Global;
use std::cmp::Ordering;
use std::marker::Brand;
use std::sync::ledger::{Blank, Ledger};
use std::test::*;
use step_count::Steps;

// A key and a rank, as numbers; ranks that tie go by key.
#[derive(Clone, Copy)]
struct Item {
    key: u32,
    rank: u32,
}

impl Twice for Item {
    ghost use Rattle.std.specs.Ordering.{nat_cmp, ordering_then};
    ghost use Rattle.std.specs.Prelude.{◌≡◌};
    ghost use Rattle.std.specs.declared.cmp.Ordering.{Ordering};
    ghost use Rattle.std.specs.declared.cmp.Ordering.TheVariants.{Less, Equal, Greater};
    ghost use Rattle.std.specs.Cmp.{nat_cmp_total};
    ghost use Rattle.std.proofs.lemmas.Cmp.{on_total, then_total};
    ghost use Rattle.log_trials.specs.declared.slots.Item.{Item};
    ghost use Rattle.link_arena.specs.declared.twice.Order.TheVariants.{Key, Rank};

    ghost cmp_by = { λ order a b. elim order as (λ _. Ordering) [ Key ↦ nat_cmp a.key b.key | Rank ↦ ordering_then (nat_cmp a.rank b.rank) (nat_cmp a.key b.key) ] };

    ghost total = { elim [ Key ↦ on_total (λ (i : Item). i.key) nat_cmp_total | Rank ↦ then_total (on_total (λ (i : Item). i.rank) nat_cmp_total) (on_total (λ (i : Item). i.key) nat_cmp_total) ] };

    ghost apart = { λ a b e. (elim (nat_cmp a.rank b.rank) as (λ r. ordering_then r (nat_cmp a.key b.key) ≡ Equal → nat_cmp a.key b.key ≡ Equal) [ Less ↦ λ h. absurd Prim.cc | Equal ↦ λ h. h | Greater ↦ λ h. absurd Prim.cc ]) e };

    fn by_key<L: Ledger>(&self, other: &Item, steps: &mut Steps<L>) -> Ordering {
        steps.tick();
        self.key.cmp(&other.key)
    }

    fn by_rank<L: Ledger>(&self, other: &Item, steps: &mut Steps<L>) -> Ordering {
        steps.tick();
        self.rank.cmp(&other.rank).then(self.key.cmp(&other.key))
    }
}

// Puts an item in, whose key is no other's.
fn put<L: Ledger>(arena: &mut Arena<Item>, item: Item, steps: &mut Steps<L>) -> Option<u32> {
    if arena.len() >= 1_000_000 {
        return None;
    }
    arena.reserve(1).ok()?;
    match arena.find(&item, steps) {
        Some(_) => None,
        None => Some(arena.insert(item, steps)),
    }
}

// Takes the item out that has this one's key.
fn take<L: Ledger>(arena: &mut Arena<Item>, item: Item, steps: &mut Steps<L>) -> Option<Item> {
    let slot = arena.find(&item, steps)?;
    let taken = arena.remove(slot)?;
    arena.get(slot).is_none().then_some(taken)
}

// Whether the arena lists just these numbers, by what is asked of each item.
fn lists(arena: &Arena<Item>, order: Order, wanted: &[(u32, u32)]) -> bool {
    let mut at = arena.first_by(order);
    for numbers in wanted {
        let Some(slot) = at else {
            return false;
        };
        let Some(item) = arena.get(slot) else {
            return false;
        };
        let found = match order {
            Order::Key => (item.key, item.rank),
            Order::Rank => (item.rank, item.key),
        };
        if found != *numbers {
            return false;
        }
        at = arena.next_by(slot, order);
    }
    at.is_none()
}

// Whether both lists of the arena are those of the items in sorted vectors.
fn agrees(alloc: Global, arena: &Arena<Item>, items: &[Item]) -> Option<bool> {
    let mut by_key = Vec::new(alloc);
    let mut by_rank = Vec::new(alloc);
    for item in items {
        by_key.push((item.key, item.rank)).ok()?;
        by_rank.push((item.rank, item.key)).ok()?;
    }
    by_key.sort().ok()?;
    by_rank.sort().ok()?;
    Some(
        arena.len() as usize == items.len()
            && lists(arena, Order::Key, &by_key)
            && lists(arena, Order::Rank, &by_rank),
    )
}

// One of a thousand items, of keys that differ and ranks of which some tie, other ones in each round.
fn sample(i: u32, round: u32) -> Item {
    Item {
        key: i.wrapping_mul(389) % 1009,
        rank: i.wrapping_mul(613u32.wrapping_add(round)) % 251,
    }
}

// The first items of one round.
fn samples(alloc: Global, from: u32, to: u32, round: u32) -> Option<Vec<Item>> {
    let mut items = Vec::new(alloc);
    for i in from..to {
        items.push(sample(i, round)).ok()?;
    }
    Some(items)
}

// Whether both lists of the arena are those of some samples of one round.
fn has_samples(alloc: Global, arena: &Arena<Item>, from: u32, to: u32, round: u32) -> Option<bool> {
    agrees(alloc, arena, &samples(alloc, from, to, round)?)
}

// Puts some samples of one round in.
fn put_samples<L: Ledger>(
    arena: &mut Arena<Item>,
    from: u32,
    to: u32,
    round: u32,
    steps: &mut Steps<L>,
) -> Option<()> {
    for i in from..to {
        put(arena, sample(i, round), steps)?;
    }
    Some(())
}

// Takes the first half of a thousand samples out.
fn take_half<L: Ledger>(arena: &mut Arena<Item>, steps: &mut Steps<L>) -> Option<()> {
    for i in 0..500u32 {
        take(arena, sample(i, 0), steps)?;
    }
    Some(())
}

// Puts each of that half in again, with another rank, and takes one of the other half out.
fn trade_halves<L: Ledger>(arena: &mut Arena<Item>, steps: &mut Steps<L>) -> Option<()> {
    for i in 0..500u32 {
        put(arena, sample(i, 1), steps)?;
        take(arena, sample(i.wrapping_add(500), 0), steps)?;
    }
    Some(())
}

// Whether the lists agree with sorted vectors after a thousand are put in, after half is taken out, while these come back
// with other ranks and the others go, and after all are in again.
fn comes_and_goes<L: Ledger>(
    alloc: Global,
    arena: &mut Arena<Item>,
    steps: &mut Steps<L>,
) -> Option<[bool; 4]> {
    put_samples(arena, 0, 1000, 0, steps)?;
    let full = has_samples(alloc, arena, 0, 1000, 0)?;
    take_half(arena, steps)?;
    let half = has_samples(alloc, arena, 500, 1000, 0)?;
    trade_halves(arena, steps)?;
    let other = has_samples(alloc, arena, 0, 500, 1)?;
    put_samples(arena, 500, 1000, 1, steps)?;
    let again = has_samples(alloc, arena, 0, 1000, 1)?;
    Some([full, half, other, again])
}

// The same of a new arena.
fn new_comes_and_goes<L: Ledger>(alloc: Global, blank: Blank) -> Option<[bool; 4]>
    requires name { blank.name ≡ L.name }
    requires parts { blank.parts ≡ L.parts }
    requires one { blank.parts ≡ 1 }
{
    let mut steps = Steps::<L>::new(blank);
    comes_and_goes(alloc, &mut Arena::new(alloc), &mut steps)
}

// Items put in, the keys that are taken out again, and what is left: by key, and by rank.
struct Case {
    put: &'static [(u32, u32)],
    take: &'static [u32],
    by_key: &'static [(u32, u32)],
    by_rank: &'static [(u32, u32)],
    // Keys that are found, and keys that are not.
    found: &'static [u32],
    missed: &'static [u32],
}

static CASES: [Case; 4] = [
    Case {
        put: &[],
        take: &[],
        by_key: &[],
        by_rank: &[],
        found: &[],
        missed: &[0, 4],
    },
    Case {
        put: &[(3, 30), (1, 10), (2, 20)],
        take: &[],
        by_key: &[(1, 10), (2, 20), (3, 30)],
        by_rank: &[(10, 1), (20, 2), (30, 3)],
        found: &[1, 2, 3],
        missed: &[4],
    },
    // Ranks that fall where keys rise, and two that tie.
    Case {
        put: &[(1, 9), (2, 8), (3, 7), (4, 7)],
        take: &[],
        by_key: &[(1, 9), (2, 8), (3, 7), (4, 7)],
        by_rank: &[(7, 3), (7, 4), (8, 2), (9, 1)],
        found: &[1, 2, 3, 4],
        missed: &[0, 5],
    },
    // The first, the last and the middle are taken out.
    Case {
        put: &[(5, 1), (4, 2), (3, 3), (2, 4), (1, 5)],
        take: &[1, 5, 3],
        by_key: &[(2, 4), (4, 2)],
        by_rank: &[(2, 4), (4, 2)],
        found: &[2, 4],
        missed: &[1, 3, 5],
    },
];

// Whether a key is found, at a slot of its item.
fn is_found<L: Ledger>(arena: &Arena<Item>, key: u32, steps: &mut Steps<L>) -> bool {
    match arena.find(&Item { key, rank: 0 }, steps) {
        Some(slot) => arena.get(slot).is_some_and(|item| item.key == key),
        None => false,
    }
}

// Whether just the keys of the first list are found.
fn finds<L: Ledger>(
    arena: &Arena<Item>,
    found: &[u32],
    missed: &[u32],
    steps: &mut Steps<L>,
) -> bool {
    for key in found {
        if !is_found(arena, *key, steps) {
            return false;
        }
    }
    for key in missed {
        if arena.find(&Item { key: *key, rank: 0 }, steps).is_some() {
            return false;
        }
    }
    true
}

// Puts a case's items in and takes its keys out.
fn fill<L: Ledger>(arena: &mut Arena<Item>, case: &Case, steps: &mut Steps<L>) -> Option<()> {
    if arena.len() > 100 {
        return None;
    }
    arena.reserve(5).ok()?;
    for (key, rank) in case.put {
        let (key, rank) = (*key, *rank);
        put(arena, Item { key, rank }, steps)?;
    }
    for key in case.take {
        take(arena, Item { key: *key, rank: 0 }, steps)?;
    }
    Some(())
}

// Whether an arena then lists and finds what the case says.
fn comes_out<L: Ledger>(
    arena: &mut Arena<Item>,
    case: &Case,
    steps: &mut Steps<L>,
) -> Option<bool> {
    fill(arena, case, steps)?;
    Some(
        lists(arena, Order::Key, case.by_key)
            && lists(arena, Order::Rank, case.by_rank)
            && finds(arena, case.found, case.missed, steps),
    )
}

// The same of a new arena.
fn new_comes_out<L: Ledger>(alloc: Global, case: &Case, blank: Blank) -> Option<bool>
    requires name { blank.name ≡ L.name }
    requires parts { blank.parts ≡ L.parts }
    requires one { blank.parts ≡ 1 }
{
    let mut steps = Steps::<L>::new(blank);
    comes_out(&mut Arena::new(alloc), case, &mut steps)
}

#[test]
fn lists_and_searches(rt: HostRuntime) {
    let alloc = rt.alloc();
    for case in &CASES {
        assert!(rt; new_comes_out::<Brand>(alloc, case, Blank::new(1)) == Some(true));
    }
}

#[test]
fn a_thousand_slots(rt: HostRuntime) {
    let found = new_comes_and_goes::<Brand>(rt.alloc(), Blank::new(1));
    assert!(rt; found == Some([true; 4]));
}
