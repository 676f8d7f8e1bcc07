//! Cuts in parts: where boxes are cut, which cuts a side refuses, and which bytes are none.

ghost use Rattle.std.specs.Prelude.{◌≡◌, ◌<◌, length, OnOk};
ghost use Rattle.std.specs.List.{AllByRecursion};
ghost use Rattle.sync_msg.specs.CutPoints.{dimension};

use crate::areas::{Place, area};
use crate::checks::{can_meet, is_spoken};
use crate::keys::key;
use crate::rows::{offer, path_of, place, row};
use crate::sides::{Side, hear, say_turn, side};
use crate::stores::byte_of;
use block_store::{BlockStore, Snapshot};
use range_split::choose_parts;
use spelling::End;
use std::alloc::Global;
use std::test::*;
use sync_core::{CoreRefusal, Item, Role};
use sync_msg::{BadItem, ItemReader, MAX_POINTS, Points, Prints, Step};
use willow_area::{Area, Box3, CutAt, box_of};
use willow_entry::{BareRow, BareRows};
use willow_path::{NamespaceKey, NoMemory, Path};

// ---- where boxes are cut

// So many rows of a subspace at the paths of the bytes from 0 on, the time of the first, and by how much that of each other
// is later than the one before.
type Rows = (u8, u8, u64, u64);

// A point that names its subspace or path by a byte.
enum Point {
    Subspace(u8),
    Path(u8),
    Time(u64),
}

// All subspaces and times.
const ALL: Place = (None, 0, None);

// Sixteen rows of U, and a later one of V.
const LATER: [Rows; 2] = [(b'U', 16, 100, 1), (b'V', 1, 116, 0)];

// Some rows, an area, and the points at which its box is cut; none where they are told one by one.
type Cut = (&'static [Rows], Place, &'static [Point]);

static CUTS: [Cut; 12] = [
    // few rows
    (&[(b'U', 16, 100, 1)], ALL, &[]),
    (&LATER, (Some(b'U'), 0, None), &[]),
    // rows of one subspace are cut at the quarters of their paths, also where all times are the same
    (
        &[(b'U', 17, 100, 1)],
        ALL,
        &[Point::Path(4), Point::Path(8), Point::Path(12)],
    ),
    (
        &[(b'U', 17, 100, 0)],
        ALL,
        &[Point::Path(4), Point::Path(8), Point::Path(12)],
    ),
    (
        &[(b'U', 40, 100, 1)],
        ALL,
        &[Point::Path(10), Point::Path(20), Point::Path(30)],
    ),
    // almost all rows are of one subspace: at the quarters of the times
    (
        &LATER,
        ALL,
        &[Point::Time(104), Point::Time(108), Point::Time(112)],
    ),
    (
        &[(b'U', 1, 200, 0), (b'V', 16, 100, 1)],
        ALL,
        &[Point::Time(104), Point::Time(108), Point::Time(112)],
    ),
    // times are not far more even
    (
        &[(b'U', 10, 100, 1), (b'V', 10, 110, 1)],
        ALL,
        &[Point::Subspace(b'V')],
    ),
    (
        &[
            (b'T', 5, 100, 0),
            (b'U', 5, 100, 0),
            (b'V', 5, 100, 0),
            (b'W', 5, 100, 0),
        ],
        ALL,
        &[
            Point::Subspace(b'U'),
            Point::Subspace(b'V'),
            Point::Subspace(b'W'),
        ],
    ),
    // no quarter is above the least: at the next subspace
    (
        &[(b'U', 16, 100, 0), (b'V', 1, 100, 0)],
        ALL,
        &[Point::Subspace(b'V')],
    ),
    (
        &[(b'U', 16, 100, 0), (b'V', 1, 100, 0), (b'W', 1, 100, 0)],
        ALL,
        &[Point::Subspace(b'V')],
    ),
    // and times have one more value, which is as uneven
    (
        &[(b'U', 16, 100, 0), (b'V', 1, 101, 0)],
        ALL,
        &[Point::Subspace(b'V')],
    ),
];

// Offers such rows to the store.
fn offer_rows(alloc: Global, store: &mut BlockStore<BareRow>, rows: &Rows) -> Option<()> {
    let (subspace, count, first, later) = *rows;
    for byte in 0..count {
        let time = first.wrapping_add(later.wrapping_mul(u64::from(byte)));
        let (place, path) = (place(b'N', subspace)?, path_of(alloc, &[byte])?);
        offer(store, row(alloc, place, path, time, Vec::new(alloc))?)?;
    }
    Some(())
}

// The snapshot of a store that they are offered to.
fn with_rows(
    alloc: Global,
    store: &mut BlockStore<BareRow>,
    all: &[Rows],
) -> Option<Snapshot<BareRow>> {
    for rows in all {
        offer_rows(alloc, store, rows)?;
    }
    store.snapshot().ok()
}

// Whether it is the point.
fn is_at(point: &CutAt, wanted: &Point) -> bool {
    match (point, wanted) {
        (CutAt::Subspace(subspace), Point::Subspace(byte)) => subspace.to_bytes() == key(*byte),
        (CutAt::Path(path), Point::Path(byte)) => byte_of(path) == *byte,
        (CutAt::Time(time), Point::Time(wanted)) => time == wanted,
        _ => false,
    }
}

// Whether they are the points.
fn are_at(points: &Points, wanted: &[Point]) -> bool {
    for i in 0..wanted.len() {
        match points.get(i) {
            Some(point) if is_at(point, &wanted[i]) => {}
            _ => return false,
        }
    }
    points.len() == wanted.len()
}

// The points that are chosen for the rows in the box.
fn chosen(alloc: Global, rows: &Snapshot<BareRow>, b: &Box3) -> Option<Option<Points>> {
    let namespace = NamespaceKey::from_bytes(key(b'N'))?;
    if can_meet(rows, &namespace) {
        choose_parts(alloc, rows, b).ok()
    } else {
        None
    }
}

// Whether the rows in the box are cut so.
fn is_cut_at(
    alloc: Global,
    rows: Option<&Snapshot<BareRow>>,
    area: Option<&Area>,
    wanted: &[Point],
) -> Option<bool> {
    let b = box_of(alloc, area?).ok()?;
    Some(match chosen(alloc, rows?, &b)? {
        None => wanted.len() == 0,
        Some(points) => points.len() > 0 && are_at(&points, wanted),
    })
}

// Whether the rows of the case are.
fn is_cut_so(alloc: Global, case: &Cut) -> Option<bool> {
    let (all, place, wanted) = case;
    let rows = with_rows(alloc, &mut BlockStore::new(alloc), all);
    is_cut_at(alloc, rows.as_ref(), area(alloc, place).as_ref(), wanted)
}

#[test]
fn cuts(rt: HostRuntime) {
    let alloc = rt.alloc();
    for case in &CUTS {
        assert!(rt; is_cut_so(alloc, case) == Some(true));
    }
}

// ---- which cuts a side refuses

// A version, the bytes of the paths at which a caller with forty rows hears that its box is cut in parts, 255 for the empty
// path, and why it refuses that.
type Heard = (u8, &'static [u8], Option<CoreRefusal>);

static HEARD: [Heard; 8] = [
    (2, &[0x0a, 0x14, 0x1e], None),
    (2, &[0x14], None),
    // points that do not rise
    (2, &[0x14, 0x0a], Some(CoreRefusal::BadCut)),
    (2, &[0x0a, 0x14, 0x14], Some(CoreRefusal::BadCut)),
    (2, &[0x0a, 0x1e, 0x14], Some(CoreRefusal::BadCut)),
    // the empty path, of all paths, first and behind another
    (2, &[255], Some(CoreRefusal::BadCut)),
    (2, &[0x0a, 255], Some(CoreRefusal::BadCut)),
    // a cut in parts in version 1
    (1, &[0x14], Some(CoreRefusal::ItemMismatch)),
];

// Adds a path to points that are paths.
fn push_path(points: &mut Points, path: Path) -> Result<(), NoMemory>
    requires few { length points.old < MAX_POINTS }
    requires paths { AllByRecursion (λ at. dimension at ≡ 1) points.old }
    ensures { OnOk result (AllByRecursion (λ at. dimension at ≡ 1) points.new) }
{
    points.push(CutAt::Path(path))
}

// The path of the byte, or the empty one.
fn path_of_byte(alloc: Global, byte: u8) -> Option<Path> {
    if byte == 255 {
        return Some(Path::empty(alloc));
    }
    path_of(alloc, &[byte])
}

// The points of these bytes, of which there are at most three.
fn points_of(alloc: Global, bytes: &[u8]) -> Option<Points> {
    let mut points = Points::new(alloc);
    for byte in bytes {
        if points.len() >= 3 {
            return None;
        }
        push_path(&mut points, path_of_byte(alloc, *byte)?).ok()?;
    }
    Some(points)
}

// A fingerprint of nothing for each part.
fn prints_of(alloc: Global, points: &Points) -> Option<Prints> {
    let mut prints = Prints::new(alloc);
    for _ in 0..=points.len() {
        prints.push([0; 32]).ok()?;
    }
    Some(prints)
}

// The cut in parts at these points.
fn item_of(alloc: Global, bytes: &[u8]) -> Option<Item<BareRow>> {
    let points = points_of(alloc, bytes)?;
    let prints = prints_of(alloc, &points)?;
    Some(Item::Parts { points, prints })
}

// Why the side refuses the item behind its turn, if it does.
fn refusal_behind(side: &mut Side, item: Item<BareRow>) -> Option<Option<CoreRefusal>> {
    say_turn(side)?;
    hear(side, item)
}

// Why the caller of the line refuses what it hears, if it does.
fn refusal(alloc: Global, line: &Heard) -> Option<Option<CoreRefusal>> {
    let (version, bytes, _) = line;
    let item = item_of(alloc, bytes)?;
    refusal_behind(
        &mut side(alloc, *version, Role::Caller, &(0, 40, None), true)?,
        item,
    )
}

#[test]
fn cuts_that_are_heard(rt: HostRuntime) {
    let alloc = rt.alloc();
    for line in &HEARD {
        let (_, _, wanted) = line;
        assert!(rt; refusal(alloc, line) == Some(*wanted));
    }
}

// A cut in two is no item of version 2.
#[test]
fn a_cut_in_two_in_version_2(rt: HostRuntime) {
    let alloc = rt.alloc();
    for (version, wanted) in [(1, None), (2, Some(CoreRefusal::ItemMismatch))] {
        assert!(rt; refusal_of_two(alloc, version) == Some(wanted));
    }
}

// Why a caller refuses a cut in two, if it does.
fn refusal_of_two(alloc: Global, version: u8) -> Option<Option<CoreRefusal>> {
    let item = Item::Split {
        at: CutAt::Path(path_of(alloc, &[0x14])?),
        lower: [0; 32],
        upper: [0; 32],
    };
    refusal_behind(
        &mut side(alloc, version, Role::Caller, &(0, 40, None), true)?,
        item,
    )
}

// ---- which bytes are none

// What a reader answers to bytes that spell no item.
#[derive(Clone, Copy, PartialEq)]
enum Read {
    More,
    Bad,
}

// A version, bytes, and what a reader of the version answers to them.
static BYTES: [(u8, &[u8], Read); 10] = [
    (2, &[8], Read::More),
    (2, &[8, 2], Read::More),
    (2, &[8, 1, 1], Read::More),
    (2, &[8, 1, 3], Read::More),
    // no point, and four
    (2, &[8, 1, 0], Read::Bad),
    (2, &[8, 1, 4], Read::Bad),
    // a fourth dimension
    (2, &[8, 3], Read::Bad),
    // a cut in two in version 2, and one in parts in version 1
    (2, &[3], Read::Bad),
    (1, &[8], Read::Bad),
    (1, &[3], Read::More),
];

// What a new reader answers to the bytes, if that is no item.
fn answer(alloc: Global, version: u8, bytes: &[u8]) -> Option<Read> {
    if !is_spoken(version) {
        return None;
    }
    let mut reader = ItemReader::<BareRows>::new(alloc, version);
    match reader.next(bytes) {
        Ok(Step::More) => Some(Read::More),
        Err(End::Refused(BadItem { at: 0 })) => Some(Read::Bad),
        _ => None,
    }
}

#[test]
fn bytes_that_are_read(rt: HostRuntime) {
    let alloc = rt.alloc();
    for (version, bytes, wanted) in &BYTES {
        assert!(rt; answer(alloc, *version, bytes) == Some(*wanted));
    }
}
