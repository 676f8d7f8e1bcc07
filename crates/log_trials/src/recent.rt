//! Which items an index has, in which order, after some are put in, taken out and replaced.

ghost use Rattle.std.specs.Prelude.{◌≡◌, ◌∷◌, OnOk};
ghost use Rattle.recency_index.specs.Recency.{ranked_of, newest, without_at};

use crate::keys::{Rank, entry_at, number_path, path_of, place};
use recency_index::{Ranked, Recency};
use std::alloc::Global;
use std::test::*;
use willow_entry::Entry;
use willow_path::NoMemory;

// An entry by the byte of its subspace, the one-byte components of its path, its timestamp, its digest's byte and its length.
#[derive(Clone, Copy)]
struct Spot {
    subspace: u8,
    path: &'static [u8],
    rank: Rank,
}

const LATE: Spot = Spot {
    subspace: 0x55,
    path: b"ab",
    rank: (5, 0x11, 1),
};

const EARLY: Spot = Spot {
    subspace: 0x55,
    path: b"a",
    rank: (4, 0x11, 1),
};

// What is done to an index.
#[derive(Clone, Copy)]
enum Step {
    // The item of the entry is put in, in place of one at its path.
    Put(Spot),
    // The item at the path of the entry is taken out, and is there or not.
    Take(Spot, bool),
    // The item of the first entry is put in and then replaced by that of the second.
    Swap(Spot, Spot),
}

fn entry(alloc: Global, spot: Spot) -> Option<Entry> {
    let path = path_of(alloc, spot.path)?;
    Some(entry_at(place(spot.subspace)?, path, spot.rank))
}

// Puts the item of an entry in, in place of one at its path.
pub(crate) fn put(index: &mut Recency, entry: &Entry) -> Result<(), NoMemory>
    ensures { OnOk result (index.new.items ≡ newest (ranked_of entry.now ∷ without_at entry.now.subspace entry.now.path index.old.items)) }
{
    index.remove(&entry.subspace, &entry.path)?;
    if index.is_full() {
        return Err(NoMemory);
    }
    index.insert(entry)
}

// Puts the item of an entry in and then replaces it by that of another one.
fn swap(alloc: Global, index: &mut Recency, old: &Entry, new: &Entry) -> Result<(), NoMemory> {
    index.remove(&new.subspace, &new.path)?;
    put(index, old)?;
    if index.is_full() {
        return Err(NoMemory);
    }
    index.reserve(1)?;
    let mut gone = Vec::new(alloc);
    gone.push(Ranked::of(old)?)?;
    index.replace(&gone, Ranked::of(new)?);
    Ok(())
}

// Takes the item at the path of an entry out.
fn take(index: &mut Recency, old: &Entry) -> Option<bool> {
    index.remove(&old.subspace, &old.path).ok()
}

// Does a swap of entries that could be made.
fn swap_made(
    alloc: Global,
    index: &mut Recency,
    old: Option<&Entry>,
    new: Option<&Entry>,
) -> Option<()> {
    swap(alloc, index, old?, new?).ok()
}

// Does a step; None where an item that is taken out is there and should not be, or the other way round.
fn run(alloc: Global, index: &mut Recency, step: Step) -> Option<()> {
    match step {
        Step::Put(new) => put(index, &entry(alloc, new)?).ok(),
        Step::Take(old, wanted) => {
            let was = take(index, &entry(alloc, old)?);
            (was == Some(wanted)).then_some(())
        }
        Step::Swap(old, new) => swap_made(
            alloc,
            index,
            entry(alloc, old).as_ref(),
            entry(alloc, new).as_ref(),
        ),
    }
}

// Whether the item is that of the entry.
fn is_of(item: &Ranked, entry: &Entry) -> bool {
    item.timestamp == entry.timestamp
        && item.digest == entry.digest
        && item.length == entry.length
        && item.subspace == entry.subspace
        && item.path == entry.path
}

// Whether the item of this number is that of the entry.
fn stands_at(index: &Recency, n: u32, entry: Option<&Entry>) -> bool {
    match (index.nth_newest(n), entry) {
        (Some(item), Some(entry)) => is_of(item, entry),
        _ => false,
    }
}

// Whether the index has just the items of these entries, in this order.
fn has_just(alloc: Global, index: &Recency, wanted: &[Spot]) -> Option<bool> {
    let mut n = 0u32;
    for spot in wanted {
        if !stands_at(index, n, entry(alloc, *spot).as_ref()) {
            return Some(false);
        }
        n = n.checked_add(1)?;
    }
    Some(index.nth_newest(n).is_none())
}

// Whether the steps leave just the items of these entries of an index.
fn leaves_of(alloc: Global, index: &mut Recency, steps: &[Step], wanted: &[Spot]) -> Option<bool> {
    for step in steps {
        run(alloc, index, *step)?;
    }
    has_just(alloc, index, wanted)
}

// The same of a new index.
fn leaves(alloc: Global, steps: &[Step], wanted: &[Spot]) -> Option<bool> {
    leaves_of(alloc, &mut Recency::new(alloc), steps, wanted)
}

const NEWER: Spot = Spot {
    subspace: 0x55,
    path: b"a",
    rank: (7, 0x11, 1),
};

const OTHER: Spot = Spot {
    subspace: 0x56,
    path: b"a",
    rank: (4, 0x11, 1),
};

// Steps, and what they leave.
const LEFT: &[(&[Step], &[Spot])] = &[
    (&[], &[]),
    (&[Step::Put(LATE), Step::Put(EARLY)], &[LATE, EARLY]),
    (&[Step::Put(EARLY), Step::Put(LATE)], &[LATE, EARLY]),
];

#[test]
fn put_in(rt: HostRuntime) {
    let alloc = rt.alloc();
    for (steps, wanted) in LEFT {
        assert!(rt; leaves(alloc, steps, wanted) == Some(true));
    }
}

// Items in the order of recency: by timestamp, digest, length, and then by rising subspace and path. Of each the byte of
// the subspace, the path and the rank.
static SORTED: [Spot; 10] = [
    Spot {
        subspace: 0x55,
        path: b"z",
        rank: (9, 0x00, 0),
    },
    Spot {
        subspace: 0x55,
        path: b"y",
        rank: (8, 0x12, 0),
    },
    Spot {
        subspace: 0x55,
        path: b"x",
        rank: (8, 0x11, 3),
    },
    Spot {
        subspace: 0x54,
        path: b"c",
        rank: (8, 0x11, 2),
    },
    Spot {
        subspace: 0x55,
        path: b"",
        rank: (8, 0x11, 2),
    },
    Spot {
        subspace: 0x55,
        path: b"a",
        rank: (8, 0x11, 2),
    },
    Spot {
        subspace: 0x55,
        path: b"ab",
        rank: (8, 0x11, 2),
    },
    Spot {
        subspace: 0x55,
        path: b"b",
        rank: (8, 0x11, 2),
    },
    Spot {
        subspace: 0x56,
        path: b"a",
        rank: (8, 0x11, 2),
    },
    Spot {
        subspace: 0x53,
        path: b"a",
        rank: (7, 0xff, 9),
    },
];

// The oldest first, the newest first, and neither.
static ORDERS: [[usize; 10]; 3] = [
    [9, 8, 7, 6, 5, 4, 3, 2, 1, 0],
    [0, 1, 2, 3, 4, 5, 6, 7, 8, 9],
    [4, 9, 0, 7, 2, 5, 1, 8, 3, 6],
];

// Whether an index has those items in their order once they are put in, in this one.
fn sorts_of(alloc: Global, index: &mut Recency, order: &[usize]) -> Option<bool> {
    for at in order {
        run(alloc, index, Step::Put(*SORTED.get(*at)?))?;
    }
    has_just(alloc, index, &SORTED)
}

// The same of a new index.
fn sorts(alloc: Global, order: &[usize]) -> Option<bool> {
    sorts_of(alloc, &mut Recency::new(alloc), order)
}

#[test]
fn the_order(rt: HostRuntime) {
    let alloc = rt.alloc();
    for order in &ORDERS {
        assert!(rt; sorts(alloc, order) == Some(true));
    }
}

// What is done to two items that are put in by rising age, and what it leaves.
const CHANGED: &[(Step, &[Spot])] = &[
    (Step::Take(EARLY, true), &[LATE]),
    (Step::Take(NEWER, true), &[LATE]),
    (Step::Take(OTHER, false), &[LATE, EARLY]),
    (Step::Swap(EARLY, NEWER), &[NEWER, LATE]),
    (Step::Swap(EARLY, OTHER), &[LATE, OTHER]),
    (Step::Swap(LATE, EARLY), &[EARLY]),
];

#[test]
fn taken_out_and_replaced(rt: HostRuntime) {
    let alloc = rt.alloc();
    for (step, wanted) in CHANGED {
        let steps = [Step::Put(LATE), Step::Put(EARLY), *step];
        assert!(rt; leaves(alloc, &steps, wanted) == Some(true));
    }
}

// The entry at the path that spells the number, of that time.
fn numbered(alloc: Global, number: u16, timestamp: u64) -> Option<Entry> {
    let path = number_path(alloc, number)?;
    Some(entry_at(place(0x55)?, path, (timestamp, 0x11, 1)))
}

// The number and the time of one of a thousand entries: no two numbers are the same, some times are, and each round has
// other times.
fn sample(i: u32, round: u32) -> (u16, u64) {
    let number = i.wrapping_mul(389) % 1009;
    let time = i.wrapping_mul(613u32.wrapping_add(round)) % 251;
    (number as u16, u64::from(time))
}

// The entry of a sample.
fn sample_entry(alloc: Global, i: u32, round: u32) -> Option<Entry> {
    let (number, time) = sample(i, round);
    numbered(alloc, number, time)
}

// Puts the items of samples of one round in.
fn put_samples(alloc: Global, index: &mut Recency, from: u32, to: u32, round: u32) -> Option<()> {
    for i in from..to {
        put(index, &sample_entry(alloc, i, round)?).ok()?;
    }
    Some(())
}

// Takes the item of a sample of the first round out, which is there.
fn take_sample(alloc: Global, index: &mut Recency, i: u32) -> Option<()> {
    take(index, &sample_entry(alloc, i, 0)?)?.then_some(())
}

// The ages and the numbers of samples of one round, sorted: by falling time, and of one time by rising path.
fn sorted(alloc: Global, from: u32, to: u32, round: u32) -> Option<Vec<(u64, u16)>> {
    let mut sorted = Vec::new(alloc);
    for i in from..to {
        let (number, time) = sample(i, round);
        sorted.push((u64::MAX.wrapping_sub(time), number)).ok()?;
    }
    sorted.sort().ok()?;
    Some(sorted)
}

// Whether the index has just the items of these ages and numbers, in this order.
fn lists(alloc: Global, index: &Recency, wanted: &[(u64, u16)]) -> Option<bool> {
    let mut n = 0u32;
    for (age, number) in wanted {
        let entry = numbered(alloc, *number, u64::MAX.wrapping_sub(*age));
        if !stands_at(index, n, entry.as_ref()) {
            return Some(false);
        }
        n = n.checked_add(1)?;
    }
    Some(index.nth_newest(n).is_none())
}

// Whether it has just those of some samples of one round.
fn agrees(alloc: Global, index: &Recency, from: u32, to: u32, round: u32) -> Option<bool> {
    lists(alloc, index, &sorted(alloc, from, to, round)?)
}

// Takes the first half of a thousand samples out.
fn take_half(alloc: Global, index: &mut Recency) -> Option<()> {
    for i in 0..500u32 {
        take_sample(alloc, index, i)?;
    }
    Some(())
}

// Puts each of that half in again, with another time, and takes one of the other half out.
fn trade_halves(alloc: Global, index: &mut Recency) -> Option<()> {
    for i in 0..500u32 {
        put(index, &sample_entry(alloc, i, 1)?).ok()?;
        take_sample(alloc, index, i.wrapping_add(500))?;
    }
    Some(())
}

// Whether an index agrees with sorted vectors after a thousand are put in, after half is taken out, while these come
// back with other times and the others go, and after all are in again.
fn comes_and_goes(alloc: Global, index: &mut Recency) -> Option<[bool; 4]> {
    put_samples(alloc, index, 0, 1000, 0)?;
    let full = agrees(alloc, index, 0, 1000, 0)?;
    take_half(alloc, index)?;
    let half = agrees(alloc, index, 500, 1000, 0)?;
    trade_halves(alloc, index)?;
    let other = agrees(alloc, index, 0, 500, 1)?;
    put_samples(alloc, index, 500, 1000, 1)?;
    let again = agrees(alloc, index, 0, 1000, 1)?;
    Some([full, half, other, again])
}

// The same of a new index.
fn new_comes_and_goes(alloc: Global) -> Option<[bool; 4]> {
    comes_and_goes(alloc, &mut Recency::new(alloc))
}

#[test]
fn a_thousand_slots(rt: HostRuntime) {
    assert!(rt; new_comes_and_goes(rt.alloc()) == Some([true; 4]));
}
