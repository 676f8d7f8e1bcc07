//! How many signatures a checker asks about.

ghost use Rattle.std.specs.Prelude.{◌≤◌};

use crate::rows::{Due, judges, namespace};
use crate::schemes::Counting;
use crate::texts;
use auth_batch::CachedChecker;
use auth_entry::{Checker, PlainChecker, RowRefusal};
use mc_cap::ChainRefusal;
use std::alloc::Global;
use std::sync::atomic::{AtomicU64, Ordering};
use std::thread::Threads;

// How many signatures of users a checker asks about in each of two calls over so many rows, where all are judged as they are
// due.
fn asks_twice<'a, C: Checker<Counting<'a>>>(
    rt: &(impl Threads + Sync),
    alloc: Global,
    asked: &AtomicU64,
    checker: &mut C,
    table: &[(&str, Due)],
    count: usize,
) -> Option<[u64; 2]> {
    let is_due = judges(rt, alloc, checker, table, count)?;
    let first = asked.swap(0, Ordering::SeqCst);
    let is_due_again = judges(rt, alloc, checker, table, count)?;
    let second = asked.swap(0, Ordering::SeqCst);
    (is_due && is_due_again).then_some([first, second])
}

// The same of a checker that remembers so many capabilities.
fn cached_asks(
    rt: &(impl Threads + Sync),
    alloc: Global,
    capacity: u32,
    table: &[(&str, Due)],
    count: usize,
) -> Option<[u64; 2]>
    requires { 1 ≤ capacity }
{
    let asked = AtomicU64::new(0);
    let scheme = Counting { asked: &asked };
    let mut checker = CachedChecker::new(alloc, scheme, namespace(b'N')?, capacity).ok()?;
    asks_twice(rt, alloc, &asked, &mut checker, table, count)
}

// The same of a plain one.
fn plain_asks(
    rt: &(impl Threads + Sync),
    alloc: Global,
    table: &[(&str, Due)],
    count: usize,
) -> Option<[u64; 2]> {
    let asked = AtomicU64::new(0);
    let scheme = Counting { asked: &asked };
    let mut checker = PlainChecker::new(scheme, namespace(b'N')?);
    asks_twice(rt, alloc, &asked, &mut checker, table, count)
}

// The same of one that remembers so many capabilities, and then of a plain one.
fn both_ask(
    rt: &(impl Threads + Sync),
    alloc: Global,
    capacity: u32,
    table: &[(&str, Due)],
    count: usize,
) -> Option<[u64; 4]>
    requires { 1 ≤ capacity }
{
    let [first, second] = cached_asks(rt, alloc, capacity, table, count)?;
    let [third, fourth] = plain_asks(rt, alloc, table, count)?;
    Some([first, second, third, fourth])
}

static VALID: [(&str, Due); 1] = [(texts::DELEGATED, Ok(117))];

// A capability is checked once, however many rows carry it, and once a call where it is not remembered.
#[test]
fn a_valid_capability_is_checked_once(rt: HostRuntime) {
    let alloc = rt.alloc();
    for (count, wanted) in [(1, [2, 1, 2, 2]), (10, [11, 10, 11, 11])] {
        assert!(rt; both_ask(&rt, alloc, 1, &VALID, count) == Some(wanted));
    }
}

static REFUSED: [(&str, Due); 1] = [(
    texts::SPOILT,
    Err(RowRefusal::Chain(ChainRefusal::BadSignature { at: 1 })),
)];

#[test]
fn a_refused_capability_is_checked_in_each_call(rt: HostRuntime) {
    let alloc = rt.alloc();
    for count in [1, 10] {
        assert!(rt; both_ask(&rt, alloc, 1, &REFUSED, count) == Some([1; 4]));
    }
}

static FIVE: [(&str, Due); 5] = [
    (texts::TO_A, Ok(117)),
    (texts::TO_B, Ok(117)),
    (texts::TO_C, Ok(117)),
    (texts::TO_D, Ok(117)),
    (texts::TO_E, Ok(117)),
];

// Five capabilities: those are remembered that were asked for last.
#[test]
fn as_many_are_remembered_as_there_is_room_for(rt: HostRuntime) {
    let alloc = rt.alloc();
    for (capacity, again) in [(1, 9), (2, 8), (5, 5), (1_024, 5)] {
        assert!(rt; both_ask(&rt, alloc, capacity, &FIVE, 5) == Some([10, again, 10, 10]));
    }
}
