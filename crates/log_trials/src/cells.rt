//! A cell of two passes, call by call.

ghost use Rattle.std.specs.Prelude.{◌≡◌, IfSome};
ghost use Rattle.ns_cell.specs.Passes.{IsPassOf};

use crate::keys::{entry_at, namespace, path_of, place};
use ns_cell::{NsCell, NsState, Pass, Told};
use std::alloc::Global;
use std::sync::{Arc, Wait};
use std::test::*;
use willow_entry::{BareRow, LogRow, Row};
use willow_path::NamespaceKey;

// The row of this time at the path of this one byte.
fn row(alloc: Global, namespace: NamespaceKey, part: u8, timestamp: u64) -> Option<BareRow>
    ensures { IfSome result (λ row. row.entry.namespace ≡ namespace) }
{
    let (_, subspace) = place(1)?;
    let path = path_of(alloc, &[part])?;
    let entry = entry_at((namespace, subspace), path, (timestamp, 0x11, 1));
    BareRow::new(alloc, entry, Vec::new(alloc)).ok()
}

// How many rows there are, and their numbers and times as digits of one number: 10 a pass, 1 a time.
fn digits<R: Row>(rows: &[LogRow<Arc<R>>]) -> (usize, u64) {
    let mut digits = 0u64;
    for held in rows {
        let row = u64::from(held.pass)
            .saturating_mul(10)
            .saturating_add(held.row.entry().timestamp);
        digits = digits.saturating_mul(100).saturating_add(row);
    }
    (rows.len(), digits)
}

// What becomes of the row at the path of a byte and of a time, which a pass offers.
fn offer<W: Wait>(
    rt: &W,
    alloc: Global,
    cell: &NsCell<BareRow>,
    namespace: NamespaceKey,
    pass: &mut Pass<BareRow>,
    at: (u8, u64),
) -> Option<Told>
    requires pass { IsPassOf cell.now pass.old }
    requires namespace { namespace ≡ cell.now.namespace }
    ensures pass { IsPassOf cell.now pass.new }
{
    cell.ingest(rt, pass, row(alloc, namespace, at.0, at.1)?)
        .ok()
}

// How many rows of the log a pass reads from a position on, and which.
fn read<W: Wait>(
    rt: &W,
    cell: &NsCell<BareRow>,
    pass: &mut Pass<BareRow>,
    from: u32,
) -> Option<(usize, u64)>
    requires pass { IsPassOf cell.now pass.old }
    ensures pass { IsPassOf cell.now pass.new }
{
    Some(digits(&cell.read_log(rt, pass, from, 5).ok()?))
}

// How many rows are live, as a pass sees it.
fn live<W: Wait>(rt: &W, cell: &NsCell<BareRow>, pass: &mut Pass<BareRow>) -> Option<u32>
    requires pass { IsPassOf cell.now pass.old }
    ensures pass { IsPassOf cell.now pass.new }
{
    Some(cell.snapshot(rt, pass).ok()?.len())
}

// What becomes of a row of one pass, of the same row of the other, with what this one has then seen, and of one more.
type Offered = (Option<Told>, (Option<Told>, u32), Option<Told>);

fn offers<W: Wait>(
    rt: &W,
    alloc: Global,
    cell: &NsCell<BareRow>,
    namespace: NamespaceKey,
    one: &mut Pass<BareRow>,
    other: &mut Pass<BareRow>,
) -> Offered
    requires passes { IsPassOf cell.now one.old × IsPassOf cell.now other.old }
    requires namespace { namespace ≡ cell.now.namespace }
    ensures passes { IsPassOf cell.now one.new × IsPassOf cell.now other.new }
{
    let first = offer(rt, alloc, cell, namespace, one, (b'a', 5));
    let known = offer(rt, alloc, cell, namespace, other, (b'a', 5));
    let seen = other.seen();
    let second = offer(rt, alloc, cell, namespace, other, (b'b', 6));
    (first, (known, seen), second)
}

// What two passes have seen, before they meet and then.
type Seen = ((u32, u32), (u32, u32));

fn meets(cell: &NsCell<BareRow>, one: &mut Pass<BareRow>, other: &mut Pass<BareRow>) -> Seen
    requires passes { IsPassOf cell.now one.old × IsPassOf cell.now other.old }
    ensures passes { IsPassOf cell.now one.new × IsPassOf cell.now other.new }
{
    let apart = (one.seen(), other.seen());
    cell.meet(one, other);
    (apart, (one.seen(), other.seen()))
}

// What is live, and the rows that are read from positions 0, 1 and 2 on.
type Reads = (Option<u32>, [Option<(usize, u64)>; 3]);

fn reads<W: Wait>(rt: &W, cell: &NsCell<BareRow>, pass: &mut Pass<BareRow>) -> Reads
    requires pass { IsPassOf cell.now pass.old }
    ensures pass { IsPassOf cell.now pass.new }
{
    let live = live(rt, cell, pass);
    let all = read(rt, cell, pass, 0);
    let last = read(rt, cell, pass, 1);
    (live, [all, last, read(rt, cell, pass, 2)])
}

// The log's front once both passes, the later one first, are given back.
fn closed<W: Wait>(
    rt: &W,
    alloc: Global,
    cell: NsCell<BareRow>,
    one: Pass<BareRow>,
    other: Pass<BareRow>,
) -> Option<u32>
    requires passes { IsPassOf cell one × IsPassOf cell other }
    requires count { cell.passes ≡ 2 }
{
    let mut passes = Vec::new(alloc);
    passes.push(other).ok()?;
    passes.push(one).ok()?;
    Some(cell.close(rt, passes).front())
}

// The passes' numbers, and what the calls answered, in their order.
type Answers = ((u32, u32), Offered, Seen, Reads, Option<u32>);

// One pass offers a row, which the other is then told of without having met it, and a row of its own. Then they meet.
fn all_calls<W: Wait>(
    rt: &W,
    alloc: Global,
    cell: NsCell<BareRow>,
    namespace: NamespaceKey,
    mut one: Pass<BareRow>,
    mut other: Pass<BareRow>,
) -> Answers
    requires passes { IsPassOf cell one × IsPassOf cell other }
    requires count { cell.passes ≡ 2 }
    requires namespace { namespace ≡ cell.namespace }
{
    let numbers = (one.number(), other.number());
    let offered = offers(rt, alloc, &cell, namespace, &mut one, &mut other);
    let seen = meets(&cell, &mut one, &mut other);
    let reads = reads(rt, &cell, &mut one);
    (
        numbers,
        offered,
        seen,
        reads,
        closed(rt, alloc, cell, one, other),
    )
}

// The same of a new cell of two passes.
fn new_cell<W: Wait>(rt: &W, alloc: Global) -> Option<(u32, Answers)> {
    let namespace = namespace()?;
    let (cell, mut passes) = NsCell::new(alloc, NsState::new(alloc, namespace), 2).ok()?;
    let other = passes.pop()?;
    let one = passes.pop()?;
    let count = cell.passes();
    Some((count, all_calls(rt, alloc, cell, namespace, one, other)))
}

#[test]
fn two_passes(rt: HostRuntime) {
    let offered = (
        Some(Told::Stored { at: 0 }),
        (Some(Told::Kept { at: 0 }), 1),
        Some(Told::Stored { at: 1 }),
    );
    let reads = (Some(2), [Some((2, 516)), Some((1, 16)), Some((0, 0))]);
    let wanted = ((0, 1), offered, ((1, 2), (2, 2)), reads, Some(2));
    assert!(rt; new_cell(&rt, rt.alloc()) == Some((2, wanted)));
}
