//! Indexes with items at paths of their own, and what is read of them.

ghost use Rattle.std.specs.Prelude.{◌≡◌, [], ◌∷◌, IfSome};
ghost use Rattle.std.specs.Int.{w32, to_be_bytes};

use recency_index::Recency;
use std::alloc::Global;
use willow_entry::Entry;
use willow_path::{Digest, NamespaceKey, Path, UserKey};

// Among how many of the newest items one is read.
const NEWEST: u64 = 10;

// The items of the index whose newest are read.
const READ: u32 = 65_536;

// How the times of the items that are put in go, one after the other.
#[derive(Clone, Copy)]
enum Times {
    Rising,
    Falling,
}

impl Times {
    // The time of the item of this number.
    fn time(self, number: u32) -> u64 {
        match self {
            Times::Rising => u64::from(number),
            Times::Falling => u64::MAX - u64::from(number),
        }
    }
}

// The entry at the path of one component that spells the number.
fn numbered(alloc: Global, number: u32, timestamp: u64) -> Option<Entry>
    ensures { IfSome result (λ entry. entry.path ≡ to_be_bytes w32 number ∷ []) }
{
    let mut path = Path::empty(alloc);
    path.push(&number.to_be_bytes()).ok()?;
    Some(Entry {
        namespace: NamespaceKey::from_bytes([0; 33])?,
        subspace: UserKey::least(),
        path,
        timestamp,
        length: 1,
        digest: Digest([0x11; 32]),
    })
}

// The index of so many items; none for want of memory.
fn filled(alloc: Global, count: u32, times: Times) -> Option<Recency> {
    let mut index = Recency::new(alloc);
    for number in 0..count {
        if index.is_full() {
            return None;
        }
        let entry = numbered(alloc, number, times.time(number))?;
        match index.insert(&entry) {
            Ok(()) => {}
            Err(_) => return None,
        }
    }
    Some(index)
}

// The sum of the times of items among the newest, read so often. Which one is read depends on the sum so far, so that
// no read is left out of a build.
fn newest(index: &Recency, reads: u32) -> u64 {
    let mut sum = 0u64;
    for _ in 0..reads {
        let n = (sum % NEWEST) as u32;
        if let Some(item) = index.nth_newest(n) {
            sum = sum.wrapping_add(item.timestamp);
        }
    }
    sum
}

/// What is read of an index of so many items, or by so many reads; none where nothing has that name, or for want of
/// memory.
pub(crate) fn read(alloc: Global, name: &str, count: u32) -> Option<u64> {
    match name {
        "rising" => Some(newest(&filled(alloc, count, Times::Rising)?, 1)),
        "falling" => Some(newest(&filled(alloc, count, Times::Falling)?, 1)),
        "newest" => Some(newest(&filled(alloc, READ, Times::Rising)?, count)),
        _ => None,
    }
}
