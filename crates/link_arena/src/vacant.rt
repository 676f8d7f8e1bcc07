//! The list of vacant slots.

ghost use Rattle.std.specs.Prelude.{◌≡◌, ◌≢◌, ◌<◌, ◌+◌, ◌^◌, ℕ, length, Some, None, vec_len, vec_capacity};
ghost use Rattle.std.specs.Option.{ForSome, ForNone};
ghost use Rattle.link_arena.specs.Slots.{value_at};
ghost use Rattle.link_arena.specs.Vacant.{IsVacantAt, IsFilledIn, IsEmptied};

use crate::slot::{Content, LOOSE, Slot, UNLINKED};
use std::mem;

// The slot that a value was put into, and the next vacant one.
#[derive(Clone, Copy)]
pub(crate) struct Filled {
    pub slot: u32,
    pub next: Option<u32>,
}

// Puts a value into the first vacant slot, or where there is none, into a new one behind the others.
pub(crate) fn fill<T>(slots: &mut Vec<Slot<T>>, vacant: Option<u32>, value: T) -> Filled
    requires vacant { ForSome vacant (IsVacantAt slots.old.items) }
    requires room { ForNone vacant (vec_len slots.old < vec_capacity slots.old) }
    requires few { vec_len slots.old < 2 ^ 31 }
    ensures filled { IsFilledIn slots.old.items slots.new.items vacant value result.slot result.next }
    ensures capacity { vec_capacity slots.new ≡ vec_capacity slots.old }
{
    let Some(slot) = vacant else {
        let slot = slots.len() as u32;
        slots.push_reserved(Slot {
            content: Content::Value(value),
            key: UNLINKED,
            rank: UNLINKED,
            key_ends: LOOSE,
            rank_ends: LOOSE,
        });
        return Filled { slot, next: None };
    };
    let next = fill_at(slots.as_mut_slice(), slot, value);
    Filled { slot, next }
}

// Puts a value into a vacant slot, and answers the vacant slot that it named.
fn fill_at<T>(slots: &mut [Slot<T>], slot: u32, value: T) -> Option<u32>
    requires { IsVacantAt slots.old slot }
    ensures { IsFilledIn slots.old slots.new (Some slot) value slot result }
{
    match mem::replace(&mut slots[slot as usize].content, Content::Value(value)) {
        Content::Vacant(next) => next,
        Content::Value(_) => unreachable!(),
    }
}

// Takes the value out of a slot, which is vacant now and names the one that was the first.
pub(crate) fn empty<T>(slots: &mut [Slot<T>], slot: u32, vacant: Option<u32>) -> T
    requires { value_at slots.old slot ≢ None }
    ensures value { value_at slots.old slot ≡ Some result }
    ensures emptied { IsEmptied slots.old slots.new slot vacant }
{
    match mem::replace(&mut slots[slot as usize].content, Content::Vacant(vacant)) {
        Content::Value(value) => value,
        Content::Vacant(_) => unreachable!(),
    }
}
