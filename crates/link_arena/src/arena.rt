//! The arena.

ghost use Rattle.std.specs.Prelude.{◌≡◌, ◌≢◌, ◌+◌, ◌-◌, ◌^◌, ◌<◌, ◌≤◌, ℕ, [], length, slice_get, All, MatchOption, OnOk, OnErr, OnSome, IfNone, IfSome, Some};
ghost use Rattle.std.specs.declared.cmp.Ordering.TheVariants.{Equal};
ghost use Rattle.link_arena.specs.declared.twice.Order.TheVariants.{Key};
ghost use Rattle.link_arena.specs.Arena.{in_order, slots_in, IsOneMore, AreTwoOrders, Holds, IsVacant};

use crate::both::{Tops, add_both, remove_both};
use crate::find::{find_key, least};
use crate::slot::{Slot, ends_at, value_of};
use crate::twice::{Order, Twice};
use crate::vacant::{empty, fill};
use spelling::NoMemory;
use std::alloc::Global;
use std::marker::{Brand, Model};
use std::sync::ledger::{Blank, Ledger};
use step_count::Steps;

/// Values in slots, in two orders. A contract sees the pairs of a slot and its value by rising key and by rising rank,
/// and how many more values take no memory.
#[derive(Drop)]
pub struct Arena<T: Twice> {
    slots: Vec<Slot<T>>,
    tops: Tops,
    // The first of the vacant slots.
    vacant: Option<u32>,
    // How many slots hold a value.
    held: u32,
}

impl<T: Twice> Model for Arena<T> {
    ghost use Rattle.std.specs.Prelude.{vec_capacity};
    ghost use Rattle.link_arena.specs.Arena.{Arena as Pairs, arena_code};

    ghost Value = { Pairs T };

    ghost coded = { arena_code T.code };

    ghost use Rattle.link_arena.specs.View.{arena_of};
    ghost use Rattle.link_arena.specs.Sound.{IsSound};

    ghost view = { λ a. arena_of a.slots.items a.tops.key a.tops.rank a.held (vec_capacity a.slots) };

    ghost invariant = { λ a. IsSound T.cmp_by a.slots.items a.tops.key a.tops.rank a.vacant a.held };
}

impl<T: Twice> Arena<T> {
    /// The arena without values, which takes no memory.
    pub fn new(alloc: Global) -> Arena<T>
        ensures by_key { result.by_key ≡ [] }
        ensures by_rank { result.by_rank ≡ [] }
        ensures orders { AreTwoOrders T.cmp_by result }
    {
        Arena {
            slots: Vec::new(alloc),
            tops: Tops {
                key: None,
                rank: None,
            },
            vacant: None,
            held: 0,
        }
    }

    /// How many values it holds.
    pub fn len(&self) -> u32
        ensures by_key { result ≡ length self.now.by_key }
        ensures by_rank { result ≡ length self.now.by_rank }
        ensures orders { AreTwoOrders T.cmp_by self.now }
    {
        self.held
    }

    /// Makes room for so many more values, of which there are then at most 2^31 - 1.
    pub fn reserve(&mut self, more: u32) -> Result<(), NoMemory>
        requires { length self.old.by_key + more < 2 ^ 31 }
        ensures by_key { self.new.by_key ≡ self.old.by_key }
        ensures by_rank { self.new.by_rank ≡ self.old.by_rank }
        ensures room { OnOk result (more ≤ self.new.spare) }
        ensures spare { self.old.spare ≤ self.new.spare }
        ensures err { OnErr result (self.new ≡ self.old) }
    {
        let wanted = self.held as usize + more as usize;
        self.slots.reserve(wanted.saturating_sub(self.slots.len()))?;
        Ok(())
    }

    /// Puts in a value, whose key is no other's, and answers its slot, which was vacant. It takes no memory.
    pub fn insert<L: Ledger>(&mut self, value: T, steps: &mut Steps<L>) -> u32
        requires room { 1 ≤ self.old.spare }
        requires free { All (λ pair. T.cmp_by Key value pair.1 ≢ Equal) self.old.by_key }
        ensures by_key { IsOneMore self.old.by_key (result, value) self.new.by_key }
        ensures by_rank { IsOneMore self.old.by_rank (result, value) self.new.by_rank }
        ensures orders { AreTwoOrders T.cmp_by self.new }
        ensures spare { self.old.spare ≡ self.new.spare + 1 }
    {
        let filled = fill(&mut self.slots, self.vacant, value);
        self.tops = add_both(self.slots.as_mut_slice(), self.tops, filled.slot, steps);
        self.vacant = filled.next;
        self.held += 1;
        filled.slot
    }

    /// Takes the value out of a slot; None exactly where the slot is vacant.
    pub fn remove(&mut self, slot: u32) -> Option<T>
        ensures vacant { MatchOption result (IsVacant self.old slot) (λ value. Holds self.old slot value) }
        ensures by_key { IfSome result (λ value. IsOneMore self.new.by_key (slot, value) self.old.by_key) }
        ensures by_rank { IfSome result (λ value. IsOneMore self.new.by_rank (slot, value) self.old.by_rank) }
        ensures orders { AreTwoOrders T.cmp_by self.new }
        ensures spare { OnSome result (self.new.spare ≡ self.old.spare + 1) }
        ensures kept { IfNone result (self.new ≡ self.old) }
    {
        value_of(&self.slots, slot)?;
        self.tops = remove_both::<T, Brand>(
            self.slots.as_mut_slice(),
            self.tops,
            slot,
            Blank::new(1),
        );
        let value = empty(self.slots.as_mut_slice(), slot, self.vacant);
        self.vacant = Some(slot);
        self.held -= 1;
        Some(value)
    }

    /// The value of a slot; None exactly where the slot is vacant.
    pub fn get(&self, slot: u32) -> Option<&T>
        ensures { MatchOption result (IsVacant self.now slot) (λ value. Holds self.now slot value.now) }
    {
        value_of(&self.slots, slot)
    }

    /// The slot whose value has the key of the probe. A step is a comparison: 2 to the number of them is at most the
    /// square of the number of values and two.
    pub fn find<L: Ledger>(&self, probe: &T, steps: &mut Steps<L>) -> Option<u32>
        ensures found { MatchOption result (All (λ pair. T.cmp_by Key probe.now pair.1 ≢ Equal) self.now.by_key)
            (λ slot. (value : T) × Holds self.now slot value × (T.cmp_by Key probe.now value ≡ Equal)) }
        ensures bound { 2 ^ (steps.new - steps.old) ≤ (length self.now.by_key + 2) ^ 2 }
        ensures more { steps.old ≤ steps.new }
    {
        find_key(&self.slots, self.tops.key, probe, steps)
    }

    /// The first slot of an order; None exactly where there is no value.
    pub fn first_by(&self, order: Order) -> Option<u32>
        ensures { result ≡ slice_get (slots_in (in_order order self.now)) 0 }
    {
        least(&self.slots, order, self.tops.of(order))
    }

    /// The next slot behind one that holds a value; None exactly where that is the last.
    pub fn next_by(&self, slot: u32, order: Order) -> Option<u32>
        requires { (value : T) × Holds self.now slot value }
        ensures { (i : ℕ) → slice_get (slots_in (in_order order self.now)) i ≡ Some slot
            → result ≡ slice_get (slots_in (in_order order self.now)) (i + 1) }
    {
        ends_at(&self.slots, order, slot).after
    }
}
