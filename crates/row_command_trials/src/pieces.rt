//! Rows that are joined from pieces of their frames: where the pieces end makes no difference.

ghost use Rattle.std.specs.Prelude.{◌≤◌};

use crate::bytes::{
    BELOW, BELOW_2, HEAD_2, NEW, NEW_2, OLD, OLD_2, ONE_ROW, SPOILT, TWO_ROWS, joined,
};
use crate::endings::{Ended, ending_of};
use crate::halves::Halves;
use auth_entry::PlainChecker;
use lms_core::PeerScheme;
use mc_cap::{RefusedRow, RowRefusal};
use peer_rows::join;
use peer_stage::JoinCounts;
use std::alloc::Global;
use std::thread::Threads;
use willow_outside::{MemSink, MemSource, Source};
use willow_path::NamespaceKey;

// The namespace of the rows.
fn namespace() -> Option<NamespaceKey> {
    let mut bytes = [0x4e; 33];
    bytes[0] = 0;
    NamespaceKey::from_bytes(bytes)
}

// How the join of the input ends, where it writes this image.
fn ends_with<I: Source>(
    rt: &(impl Threads + Sync),
    alloc: Global,
    namespace: &NamespaceKey,
    input: &mut I,
    image: &[u8],
) -> Option<Ended> {
    let mut output = MemSink::new(alloc, Vec::new(alloc), Vec::new(alloc), 100);
    let end = join::<PlainChecker<PeerScheme>, _, _, _>(rt, alloc, namespace, input, &mut output);
    let end = ending_of(end);
    (output.held() == image).then_some(end)
}

// The same of the namespace of the rows.
fn joins<I: Source>(
    rt: &(impl Threads + Sync),
    alloc: Global,
    input: &mut I,
    image: &[u8],
) -> Option<Ended> {
    ends_with(rt, alloc, &namespace()?, input, image)
}

// The frames, of which a read gives so many bytes at most.
fn in_pieces(alloc: Global, frames: &[u8], most: usize) -> Option<MemSource>
    requires { 1 ≤ most }
{
    let given = Vec::from_slice(alloc, frames).ok()?;
    Some(MemSource::new(alloc, given, Vec::new(alloc), most))
}

// What is joined, the image that is written, and how the join ends.
type Joined<'a> = (&'a [u8], &'a [u8], Ended);

// Whether the join ends so where a read gives so many bytes at most.
fn joins_pieces(
    rt: &(impl Threads + Sync),
    alloc: Global,
    (frames, image, due): Joined,
    most: usize,
) -> Option<bool> {
    let mut pieces = in_pieces(alloc, frames, most.max(1))?;
    Some(joins(rt, alloc, &mut pieces, image) == Some(due))
}

// Whether it does where the frames come in two pieces, of which the first has so many bytes.
fn joins_halves(
    rt: &(impl Threads + Sync),
    alloc: Global,
    (frames, image, due): Joined,
    front: usize,
) -> Option<bool> {
    let mut halves = Halves::new(alloc, frames, front)?;
    Some(joins(rt, alloc, &mut halves, image) == Some(due))
}

// Whether it does wherever the frames are cut, into pieces of so many bytes from one to all and into two pieces.
fn ends_so(rt: &(impl Threads + Sync), alloc: Global, run: Joined) -> bool {
    for before in 0..run.0.len() {
        if joins_pieces(rt, alloc, run, before.saturating_add(1)) != Some(true)
            || joins_halves(rt, alloc, run, before) != Some(true)
        {
            return false;
        }
    }
    true
}

// The numbers of a join of two rows.
fn of_two(stored: u64, kept: u64, first: Option<RefusedRow>) -> Ended {
    Ended::Joined(JoinCounts {
        rows: 2,
        stored,
        kept,
        refused: u64::from(first.is_some()),
        first,
    })
}

// The frames of two rows, the image of version 2, how many rows are stored and kept, and whether the second row is refused.
type Pair = ([&'static str; 2], [&'static str; 4], u64, u64, bool);

static PAIRS: [Pair; 3] = [
    (
        [OLD, BELOW],
        [HEAD_2, OLD_2, BELOW_2, TWO_ROWS],
        2,
        0,
        false,
    ),
    ([NEW, BELOW], [HEAD_2, NEW_2, "", ONE_ROW], 1, 1, false),
    ([OLD, SPOILT], [HEAD_2, OLD_2, "", ONE_ROW], 1, 0, true),
];

// How the join of a pair ends.
fn due(pair: &Pair) -> Ended {
    let (_, _, stored, kept, is_refused) = pair;
    let refused = RefusedRow {
        row: 2,
        refusal: RowRefusal::BadEntrySignature,
    };
    of_two(*stored, *kept, is_refused.then_some(refused))
}

// Whether the frames of a pair, of so many bytes together, are joined so wherever they are cut.
fn pair_ends_so(
    rt: &(impl Threads + Sync),
    alloc: Global,
    pair: &Pair,
    len: usize,
) -> Option<bool> {
    let frames = joined(alloc, &pair.0)?;
    let image = joined(alloc, &pair.1)?;
    Some(frames.len() == len && ends_so(rt, alloc, (&frames, &image, due(pair))))
}

#[test]
fn rows_joined_from_pieces(rt: HostRuntime) {
    let alloc = rt.alloc();
    for pair in &PAIRS {
        assert!(rt; pair_ends_so(&rt, alloc, pair, 448) == Some(true));
    }
}
