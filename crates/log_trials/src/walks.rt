//! A walk along an index of recency, from slot to slot, and how an entry and an item are ordered.

use crate::keys::{entry_at, path_of, place};
use crate::recent::put;
use recency_index::{Ranked, Recency, entry_by_recency};
use std::alloc::Global;
use std::cmp::Ordering;
use std::test::*;
use willow_entry::Entry;

// The entry of this time at the path of this one byte.
fn entry(alloc: Global, part: u8, time: u64) -> Option<Entry> {
    let path = path_of(alloc, &[part])?;
    Some(entry_at(place(0x55)?, path, (time, 0x11, 1)))
}

// The slot behind so many others on the walk.
fn nth_slot(index: &Recency, n: u32) -> Option<u32> {
    let mut at = index.first();
    for _passed in 0..n {
        at = index.next(at?);
    }
    at
}

// The time of the item there.
fn time_at(index: &Recency, n: u32) -> Option<u64> {
    Some(index.at(nth_slot(index, n)?)?.timestamp)
}

// Whether the walk meets items of just these times, in this order.
fn walks(index: &Recency, times: &[u64]) -> Option<bool> {
    let mut n = 0u32;
    for time in times {
        if time_at(index, n) != Some(*time) {
            return Some(false);
        }
        n = n.checked_add(1)?;
    }
    Some(nth_slot(index, n).is_none())
}

// Puts items of these times in, each at a path of its own.
fn fill(alloc: Global, index: &mut Recency, times: &[u64]) -> Option<()> {
    let mut part = 0u8;
    for time in times {
        put(index, &entry(alloc, part, *time)?).ok()?;
        part = part.checked_add(1)?;
    }
    Some(())
}

// Whether an index walks so once items of these times are put in.
fn fills(alloc: Global, index: &mut Recency, times: &[u64], wanted: &[u64]) -> Option<bool> {
    fill(alloc, index, times)?;
    walks(index, wanted)
}

// The same of a new index.
fn new_fills(alloc: Global, times: &[u64], wanted: &[u64]) -> Option<bool> {
    fills(alloc, &mut Recency::new(alloc), times, wanted)
}

// The times of items that are put in, and those on the walk.
const WALKS: &[(&[u64], &[u64])] = &[(&[], &[]), (&[7], &[7]), (&[4, 9, 7], &[9, 7, 4])];

#[test]
fn the_walk(rt: HostRuntime) {
    let alloc = rt.alloc();
    for (times, wanted) in WALKS {
        assert!(rt; new_fills(alloc, times, wanted) == Some(true));
    }
}

// Whether the slot of the one item has it, whether a slot that was never taken has one, and whether the first slot has
// one once the item is out.
fn comes_out_of(index: &mut Recency, entry: &Entry) -> Option<[bool; 3]> {
    put(index, entry).ok()?;
    let slot = index.first()?;
    let held = index.at(slot).is_some();
    let never = index.at(u32::MAX).is_some();
    index.remove(&entry.subspace, &entry.path).ok()?;
    Some([held, never, index.at(slot).is_some()])
}

// The same of a new index.
fn comes_out(alloc: Global) -> Option<[bool; 3]> {
    comes_out_of(&mut Recency::new(alloc), &entry(alloc, b'a', 7)?)
}

#[test]
fn vacant_slots(rt: HostRuntime) {
    assert!(rt; comes_out(rt.alloc()) == Some([true, false, false]));
}

// How the entry at a path of one byte, of a time, and the item of another one are ordered.
fn ordered(alloc: Global, one: (u8, u64), other: (u8, u64)) -> Option<Ordering> {
    let item = Ranked::of(&entry(alloc, other.0, other.1)?).ok()?;
    Some(entry_by_recency(&entry(alloc, one.0, one.1)?, &item))
}

// An entry, an item, and how they are ordered: the later time is the more recent, and of one time the lower path.
const ORDERED: [((u8, u64), (u8, u64), Ordering); 5] = [
    ((b'b', 5), (b'a', 4), Ordering::Less),
    ((b'a', 4), (b'b', 5), Ordering::Greater),
    ((b'a', 5), (b'b', 5), Ordering::Less),
    ((b'b', 5), (b'a', 5), Ordering::Greater),
    ((b'a', 5), (b'a', 5), Ordering::Equal),
];

#[test]
fn entries_and_items(rt: HostRuntime) {
    let alloc = rt.alloc();
    for (one, other, wanted) in &ORDERED {
        assert!(rt; ordered(alloc, *one, *other) == Some(*wanted));
    }
}
