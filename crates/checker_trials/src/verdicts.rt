//! Both checkers over the same rows.

ghost use Rattle.std.specs.Prelude.{◌≤◌};

use crate::rows::{Due, judges, namespace};
use crate::texts;
use auth_batch::CachedChecker;
use auth_entry::{Checker, NewChecker, PlainChecker, RowRefusal};
use mc_cap::ChainRefusal;
use scheme_core::OpenScheme;
use std::alloc::Global;
use std::thread::Threads;

// Whether a checker answers what is due of so many rows, asked twice.
fn judges_twice<C: Checker<OpenScheme>>(
    rt: &(impl Threads + Sync),
    alloc: Global,
    checker: &mut C,
    table: &[(&str, Due)],
    count: usize,
) -> Option<[bool; 2]> {
    Some([
        judges(rt, alloc, checker, table, count)?,
        judges(rt, alloc, checker, table, count)?,
    ])
}

// Whether one that remembers so many capabilities does, of the rows in the namespace of a letter.
fn cached_judges(
    rt: &(impl Threads + Sync),
    alloc: Global,
    letter: u8,
    capacity: u32,
    table: &[(&str, Due)],
    count: usize,
) -> Option<[bool; 2]>
    requires { 1 ≤ capacity }
{
    let mut checker = CachedChecker::new(alloc, OpenScheme, namespace(letter)?, capacity).ok()?;
    judges_twice(rt, alloc, &mut checker, table, count)
}

// Whether a plain one does.
fn plain_judges(
    rt: &(impl Threads + Sync),
    alloc: Global,
    letter: u8,
    table: &[(&str, Due)],
    count: usize,
) -> Option<[bool; 2]> {
    let mut checker = PlainChecker::new(OpenScheme, namespace(letter)?);
    judges_twice(rt, alloc, &mut checker, table, count)
}

// Whether both do.
fn both_judge(
    rt: &(impl Threads + Sync),
    alloc: Global,
    letter: u8,
    capacity: u32,
    table: &[(&str, Due)],
    count: usize,
) -> bool
    requires { 1 ≤ capacity }
{
    let cached = cached_judges(rt, alloc, letter, capacity, table, count);
    let plain = plain_judges(rt, alloc, letter, table, count);
    (cached, plain) == (Some([true; 2]), Some([true; 2]))
}

static FOUR: [(&str, Due); 4] = [
    (texts::OWNED, Err(RowRefusal::Chain(ChainRefusal::NotOwned))),
    (texts::DEEPER, Ok(119)),
    (texts::EARLIER, Ok(117)),
    (texts::DELEGATED, Ok(117)),
];

#[test]
fn a_refused_row_and_three_others(rt: HostRuntime) {
    assert!(rt; both_judge(&rt, rt.alloc(), b'N', 1, &FOUR, 4));
}

static OF_ALL_KINDS: [(&str, Due); 12] = [
    (texts::UNSIGNED, Err(RowRefusal::BadEntrySignature)),
    (texts::PLAIN, Ok(117)),
    (texts::OTHER, Err(RowRefusal::WrongNamespace)),
    (texts::BY_GIVER, Err(RowRefusal::BadEntrySignature)),
    (texts::OWNED, Err(RowRefusal::Chain(ChainRefusal::NotOwned))),
    (texts::DELEGATED, Ok(117)),
    (texts::READING, Err(RowRefusal::NotWrite)),
    (texts::BY_RECEIVER, Ok(117)),
    (
        texts::SPOILT,
        Err(RowRefusal::Chain(ChainRefusal::BadSignature { at: 1 })),
    ),
    (texts::DEEPER, Ok(119)),
    (texts::OUTSIDE, Err(RowRefusal::OutsideGrant)),
    (texts::EARLIER, Ok(117)),
];

// Where there are 2,100 rows of open keys they are judged in several parts.
#[test]
fn rows_of_all_kinds(rt: HostRuntime) {
    let alloc = rt.alloc();
    for (capacity, count) in [(1, 0), (1, 12), (2, 11), (3, 2_100)] {
        assert!(rt; both_judge(&rt, alloc, b'N', capacity, &OF_ALL_KINDS, count));
    }
}

static CAPABILITIES: [(&str, Due); 10] = [
    (texts::OWNED_PLAIN, Ok(117)),
    (
        texts::SECOND_SPOILT,
        Err(RowRefusal::Chain(ChainRefusal::BadSignature { at: 2 })),
    ),
    (texts::OWNED_TWICE, Ok(117)),
    (
        texts::TOO_OFTEN,
        Err(RowRefusal::Chain(ChainRefusal::TooManyDelegations)),
    ),
    (
        texts::MISBEGUN,
        Err(RowRefusal::Chain(ChainRefusal::BadInitial)),
    ),
    (texts::OFTEN, Ok(117)),
    (
        texts::IN_OWNED,
        Err(RowRefusal::Chain(ChainRefusal::NotCommunal)),
    ),
    (
        texts::EXCHANGED,
        Err(RowRefusal::Chain(ChainRefusal::BadSignature { at: 1 })),
    ),
    (texts::OWNED_ON, Ok(117)),
    (
        texts::FIRST_SPOILT,
        Err(RowRefusal::Chain(ChainRefusal::BadSignature { at: 1 })),
    ),
];

// The capabilities of a list are judged together: each has the answers on its own signatures, however many others have.
#[test]
fn capabilities_of_all_kinds(rt: HostRuntime) {
    let alloc = rt.alloc();
    for (capacity, count) in [(1, 1), (1, 10), (4, 9), (8, 5), (2, 1_100)] {
        assert!(rt; both_judge(&rt, alloc, b'O', capacity, &CAPABILITIES, count));
    }
}

static TWO: [(&str, Due); 2] = [
    (texts::PLAIN, Err(RowRefusal::WrongNamespace)),
    (texts::OWNED_ON, Ok(117)),
];

// Whether a checker that begins so tells its namespace, and answers what is due of two rows.
fn begins<C: NewChecker<OpenScheme>>(rt: &(impl Threads + Sync), alloc: Global) -> Option<bool> {
    let namespace = namespace(b'O')?;
    let mut checker = C::begin(alloc, OpenScheme, namespace).ok()?;
    let judged = judges(rt, alloc, &mut checker, &TWO, 2);
    Some(judged == Some(true) && checker.namespace() == namespace)
}

#[test]
fn checkers_begin(rt: HostRuntime) {
    let alloc = rt.alloc();
    let plain = begins::<PlainChecker<OpenScheme>>(&rt, alloc);
    let cached = begins::<CachedChecker<OpenScheme>>(&rt, alloc);
    assert!(rt; (plain, cached) == (Some(true), Some(true)));
}
