//! The index: an arena of items, by place and by recency.

ghost use Rattle.std.specs.Prelude.{◌≡◌, ◌↔◌, ℕ, ◌+◌, ◌-◌, ◌^◌, ◌<◌, ◌≤◌, [], ◌∷◌, length, slice_get, false, All, Contains, IsTrue, IfOk, OnOk, OnErr, MatchOption, Some};
ghost use Rattle.std.specs.List.{IsDistinct};
ghost use Rattle.std.specs.Ordering.{eq_by_cmp};
ghost use Rattle.link_arena.specs.Arena.{AreTwoOrders, slots_in};
ghost use Rattle.recency_index.specs.Recency.{ranked_of, recency_cmp, newest, AreNewestFirst, has_at, without_at, without, IsItemAt};
ghost use Rattle.recency_index.specs.Orders.{ranked_cmp};
ghost use Rattle.recency_index.specs.Items.{items_in};

use crate::ranked::Ranked;
use link_arena::{Arena, Order};
use std::alloc::Global;
use std::marker::{Brand, Model};
use std::sync::ledger::{Blank, Ledger};
use step_count::Steps;
use willow_entry::Entry;
use willow_path::{NoMemory, Path, UserKey};

// The greatest number of items of an index.
const MAX_ITEMS: u32 = 2_147_483_647;

// Puts an item in, at whose place none is. The blank is a new ledger of one part, which L names.
fn put<L: Ledger>(items: &mut Arena<Ranked>, item: Ranked, blank: Blank)
    requires orders { AreTwoOrders ranked_cmp items.old }
    requires room { 1 ≤ items.old.spare }
    requires free { has_at item.subspace item.path (items_in items.old.by_rank) ≡ false }
    requires name { blank.name ≡ L.name }
    requires parts { blank.parts ≡ L.parts }
    requires one { blank.parts ≡ 1 }
    ensures items { items_in items.new.by_rank ≡ newest (item ∷ items_in items.old.by_rank) }
    ensures orders { AreTwoOrders ranked_cmp items.new }
    ensures spare { items.old.spare ≡ items.new.spare + 1 }
{
    let mut steps = Steps::<L>::new(blank);
    items.insert(item, &mut steps);
}

// Removes the item at the place of the probe, and answers whether it was there. The blank is a new ledger of one part,
// which L names.
fn take<L: Ledger>(items: &mut Arena<Ranked>, probe: &Ranked, blank: Blank) -> bool
    requires orders { AreTwoOrders ranked_cmp items.old }
    requires name { blank.name ≡ L.name }
    requires parts { blank.parts ≡ L.parts }
    requires one { blank.parts ≡ 1 }
    ensures was { result ≡ has_at probe.now.subspace probe.now.path (items_in items.old.by_rank) }
    ensures items { items_in items.new.by_rank ≡ without_at probe.now.subspace probe.now.path (items_in items.old.by_rank) }
    ensures orders { AreTwoOrders ranked_cmp items.new }
    ensures spare { items.old.spare ≤ items.new.spare }
{
    let mut steps = Steps::<L>::new(blank);
    match items.find(probe, &mut steps) {
        Some(slot) => items.remove(slot).is_some(),
        None => false,
    }
}

// Removes these items, each of which is there.
fn take_all(items: &mut Arena<Ranked>, gone: &[Ranked])
    requires orders { AreTwoOrders ranked_cmp items.old }
    requires held { All (λ g. Contains (items_in items.old.by_rank) g) gone.now }
    requires once { IsDistinct (eq_by_cmp recency_cmp) gone.now }
    ensures items { items_in items.new.by_rank ≡ without gone.now (items_in items.old.by_rank) }
    ensures orders { AreTwoOrders ranked_cmp items.new }
    ensures spare { items.old.spare ≤ items.new.spare }
{
    for item in gone {
        take::<Brand>(items, item, Blank::new(1));
    }
}

// The slot of the n-th item, counted from 0, the most recent first.
fn nth_slot(items: &Arena<Ranked>, n: u32) -> Option<u32>
    requires { AreTwoOrders ranked_cmp items.now }
    ensures { result ≡ slice_get (slots_in items.now.by_rank) n }
{
    let mut at = items.first_by(Order::Rank);
    for _passed in 0..n {
        at = items.next_by(at?, Order::Rank);
    }
    at
}

/// Items of entries of one namespace, of which no two stand in one subspace at one path.
/// A contract sees them, the most recent first, and for how many more there is room.
#[derive(Drop)]
pub struct Recency {
    items: Arena<Ranked>,
}

impl Model for Recency {
    ghost use Rattle.link_arena.specs.Arena.{AreTwoOrders, slots_in};
    ghost use Rattle.recency_index.specs.Recency.{IndexValue};
    ghost use Rattle.recency_index.specs.Orders.{ranked_cmp};
    ghost use Rattle.recency_index.specs.Items.{items_in};

    ghost Value = { IndexValue };

    ghost view = { λ r. record { items = items_in r.items.by_rank; slots = slots_in r.items.by_rank; spare = r.items.spare } };

    ghost invariant = { λ r. AreTwoOrders ranked_cmp r.items };
}

impl Recency {
    /// The index without items.
    pub fn new(alloc: Global) -> Recency
        ensures { result.items ≡ [] }
    {
        Recency {
            items: Arena::new(alloc),
        }
    }

    /// Whether the index has no room for another item: it has 2^31 - 1.
    pub fn is_full(&self) -> bool
        ensures { IsTrue result ↔ (2 ^ 31 - 1 ≤ length self.now.items) }
    {
        self.items.len() >= MAX_ITEMS
    }

    /// Adds the item of an entry in whose subspace and path the index has none.
    pub fn insert(&mut self, entry: &Entry) -> Result<(), NoMemory>
        requires few { length self.old.items < 2 ^ 31 - 1 }
        requires free { has_at entry.now.subspace entry.now.path self.old.items ≡ false }
        ensures items { OnOk result (self.new.items ≡ newest (ranked_of entry.now ∷ self.old.items)) }
        ensures spare { self.old.spare ≤ self.new.spare + 1 }
        ensures err { OnErr result (self.new ≡ self.old) }
    {
        let item = Ranked::of(entry)?;
        self.items.reserve(1)?;
        put::<Brand>(&mut self.items, item, Blank::new(1));
        Ok(())
    }

    /// Removes the item in this subspace at this path, and answers whether it was there. It may answer want of memory.
    pub fn remove(&mut self, subspace: &UserKey, path: &Path) -> Result<bool, NoMemory>
        ensures was { IfOk result (λ was. was ≡ has_at subspace.now path.now self.old.items) }
        ensures items { OnOk result (self.new.items ≡ without_at subspace.now path.now self.old.items) }
        ensures spare { self.old.spare ≤ self.new.spare }
        ensures err { OnErr result (self.new ≡ self.old) }
    {
        let probe = Ranked::at(subspace, path)?;
        Ok(take::<Brand>(&mut self.items, &probe, Blank::new(1)))
    }

    /// Makes room for so many more items, of which there are then at most 2^31 - 1.
    pub fn reserve(&mut self, more: u32) -> Result<(), NoMemory>
        requires { length self.old.items + more < 2 ^ 31 }
        ensures items { self.new.items ≡ self.old.items }
        ensures room { OnOk result (more ≤ self.new.spare) }
        ensures spare { self.old.spare ≤ self.new.spare }
        ensures err { OnErr result (self.new ≡ self.old) }
    {
        self.items.reserve(more)
    }

    /// Removes the items that are gone, each of which is there, and adds the new one, in whose subspace and path none
    /// is left. It takes no memory.
    pub fn replace(&mut self, gone: &[Ranked], new: Ranked)
        requires room { 1 ≤ self.old.spare }
        requires held { All (λ g. Contains self.old.items g) gone.now }
        requires once { IsDistinct (eq_by_cmp recency_cmp) gone.now }
        requires free { has_at new.subspace new.path (without gone.now self.old.items) ≡ false }
        ensures items { self.new.items ≡ newest (new ∷ without gone.now self.old.items) }
        ensures spare { self.old.spare ≤ self.new.spare + 1 }
    {
        take_all(&mut self.items, gone);
        put::<Brand>(&mut self.items, new, Blank::new(1));
    }

    /// The n-th of the items, counted from 0, the most recent first; None exactly from their number on.
    pub fn nth_newest(&self, n: u32) -> Option<&Ranked>
        ensures item { MatchOption result (length self.now.items ≤ n) (λ item. slice_get self.now.items n ≡ Some item.now) }
        ensures newest_first { AreNewestFirst self.now.items }
    {
        let slot = nth_slot(&self.items, n)?;
        self.items.get(slot)
    }

    /// The slot of the most recent item; None exactly where the index has none. Each item has a slot, and a walk from here
    /// by `next` meets each of them, the most recent first.
    pub fn first(&self) -> Option<u32>
        ensures first { result ≡ slice_get self.now.slots 0 }
        ensures as_many { length self.now.slots ≡ length self.now.items }
        ensures newest_first { AreNewestFirst self.now.items }
    {
        self.items.first_by(Order::Rank)
    }

    /// The slot of the item behind that of this slot, by recency; None exactly at the last.
    pub fn next(&self, slot: u32) -> Option<u32>
        requires { Contains self.now.slots slot }
        ensures { (n : ℕ) → slice_get self.now.slots n ≡ Some slot → result ≡ slice_get self.now.slots (n + 1) }
    {
        self.items.next_by(slot, Order::Rank)
    }

    /// The item of a slot; None exactly where the slot is vacant.
    pub fn at(&self, slot: u32) -> Option<&Ranked>
        ensures { MatchOption result (Contains self.now.slots slot → ⊥) (λ item. IsItemAt self.now slot item.now) }
    {
        self.items.get(slot)
    }
}
