//! Feeds and follows over a link in memory.

ghost use Rattle.std.specs.Prelude.{◌≡◌, IfSome};
ghost use Rattle.ns_cell.specs.Passes.{IsPassOf};

use crate::rows::{authorised, namespace, put_row, subspace};
use auth_entry::{AuthorisedEntry, PlainChecker};
use ns_cell::{NsCell, NsState, Pass};
use scheme_core::OpenScheme;
use session_end::SessionEnd;
use std::alloc::Global;
use std::sync::Wait;
use std::thread::Threads;
use sync_follow::{Fed, FollowReport, feed, follow};
use willow_outside::MemLink;
use willow_path::NamespaceKey;

type Entry = AuthorisedEntry<OpenScheme>;

// The rows of a feed, each by the byte of its path and the letter of its signer, and the bytes behind them.
pub(crate) type Feed = (&'static [(u8, u8)], &'static [u8]);

// The bytes of a feed.
pub(crate) fn bytes_of(alloc: Global, told: &Feed) -> Option<Vec<u8>> {
    let mut bytes = Vec::new(alloc);
    for (byte, letter) in told.0 {
        put_row(alloc, *byte, *letter, &mut bytes)?;
    }
    bytes.extend_from_slice(told.1).ok()?;
    Some(bytes)
}

// A new cell, and its first and its second pass.
fn new_cell(
    alloc: Global,
    namespace: &NamespaceKey,
) -> Option<(NsCell<Entry>, Pass<Entry>, Pass<Entry>)>
    ensures { IfSome result (λ r. (r.0.namespace ≡ namespace.now) × (IsPassOf r.0 r.1 × IsPassOf r.0 r.2)) }
{
    let (cell, mut passes) = NsCell::new(alloc, NsState::new(alloc, *namespace), 2).ok()?;
    let second = passes.pop()?;
    let first = passes.pop()?;
    Some((cell, first, second))
}

// Follows a feed over a link of which these calls fail and which gives at most so many bytes at once, in the subspace of the
// user of this letter.
pub(crate) fn followed<R: Wait + Threads + Sync>(
    rt: &R,
    alloc: Global,
    bytes: Vec<u8>,
    fails: Vec<u64>,
    most: usize,
    letter: u8,
) -> Option<Result<FollowReport, SessionEnd>> {
    let namespace = namespace()?;
    let area = subspace(alloc, letter)?;
    let (cell, mut pass, _other) = new_cell(alloc, &namespace)?;
    let mut checker = PlainChecker::new(OpenScheme, namespace);
    let mut link = MemLink::new(alloc, bytes, fails, most.max(1));
    Some(follow(rt, alloc, &cell, &mut pass, &area, &mut checker, &mut link))
}

// Offers the row at the path of this byte to the cell.
fn offer<W: Wait>(
    rt: &W,
    alloc: Global,
    namespace: &NamespaceKey,
    cell: &NsCell<Entry>,
    pass: &mut Pass<Entry>,
    byte: u8,
) -> Option<()>
    requires pass { IsPassOf cell.now pass.old }
    requires namespace { namespace.now ≡ cell.now.namespace }
    ensures pass { IsPassOf cell.now pass.new }
{
    let entry = authorised(alloc, namespace, byte)?;
    let _told = cell.ingest(rt, pass, entry).ok()?;
    Some(())
}

// What came of a feed, and what was written.
pub(crate) type Wrote = (Result<Fed, SessionEnd>, Vec<u8>);

// Feeds from a position on, but for the rows of a number and in the subspace of the user of this letter, of a log to which
// the second pass offered the row of path a, the first that of path b, and the second that of path c. The link's calls of
// these numbers fail.
pub(crate) fn fed<W: Wait>(
    rt: &W,
    alloc: Global,
    own: u32,
    from: u32,
    letter: u8,
    fails: Vec<u64>,
) -> Option<Wrote> {
    let namespace = namespace()?;
    let area = subspace(alloc, letter)?;
    let (cell, mut first, mut second) = new_cell(alloc, &namespace)?;
    offer(rt, alloc, &namespace, &cell, &mut second, b'a')?;
    offer(rt, alloc, &namespace, &cell, &mut first, b'b')?;
    offer(rt, alloc, &namespace, &cell, &mut second, b'c')?;
    if second.seen() < from {
        return None;
    }
    let mut link = MemLink::new(alloc, Vec::new(alloc), fails, 1_000_000);
    let answer = feed(rt, alloc, &cell, &mut second, own, &area, from, &mut link);
    Some((answer, Vec::from_slice(alloc, link.held()).ok()?))
}
