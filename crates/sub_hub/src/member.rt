//! A watcher in a hub.

ghost use Rattle.std.specs.Prelude.{◌≡◌, ◌≢◌, ℕ, ◌+◌, ◌^◌, ◌<◌, ◌&&◌, length, not, true, if◌then◌else◌};
ghost use Rattle.slab.specs.Slab.{get, slab_len};
ghost use Rattle.sub_hub.specs.Heard.{slice_rows};
ghost use Rattle.sub_hub.specs.Hubs.{IsTold, IsSlotTold, count_left, member_value, slot_seen, slots_seen};

use crate::telling::tell;
use crate::watcher::{Watcher, Wish};
use slab::Slab;
use willow_area::Area;
use willow_entry::{LogRow, Row};

/// A watcher with its area, the number of the add that brought it, and whether it left.
#[derive(Drop)]
pub(crate) struct Member {
    pub(crate) number: u32,
    pub(crate) area: Area,
    pub(crate) has_left: bool,
    pub(crate) watcher: Box<dyn Watcher>,
}

impl Member {
    /// Tells it of the rows of the slice, unless it left before. Answers whether it leaves now.
    pub(crate) fn tell<R: Row>(&mut self, served: &Area, front: u32, slice: &[LogRow<R>]) -> bool
        requires { front + length slice.now < 2 ^ 32 }
        ensures told { IsTold served.now front (slice_rows R.value slice.now) (member_value (λ w. told w) self.old) (member_value (λ w. told w) self.new) }
        ensures left { result ≡ not self.old.has_left && self.new.has_left }
        ensures stays_away { self.old.has_left ≡ true → self.new.has_left ≡ true }
    {
        if self.has_left {
            return false;
        }
        let wish = tell(&mut *self.watcher, &self.area, served, front, slice);
        self.has_left = wish == Wish::Leave;
        self.has_left
    }
}

/// Tells the watcher in a slot, if there is one. Answers whether it leaves now.
pub(crate) fn tell_slot<R: Row>(
    members: &mut Slab<Member>,
    slot: usize,
    served: &Area,
    front: u32,
    slice: &[LogRow<R>],
) -> bool
    requires { front + length slice.now < 2 ^ 32 }
    ensures told { IsSlotTold served.now front (slice_rows R.value slice.now) (slot_seen (λ w. told w) members.old slot) (slot_seen (λ w. told w) members.new slot) }
    ensures others { (other : ℕ) → other ≢ slot → get members.new other ≡ get members.old other }
    ensures many { slab_len members.new ≡ slab_len members.old }
    ensures left { count_left (slots_seen (λ w. told w) members.new.slots) ≡ count_left (slots_seen (λ w. told w) members.old.slots) + (if result then 1 else 0) }
{
    match members.get_mut(slot) {
        None => false,
        Some(member) => member.tell(served, front, slice),
    }
}
