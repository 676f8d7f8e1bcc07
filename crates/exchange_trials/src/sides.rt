//! Sides over rows of one subspace, and what they say and hear, told in numbers.

use crate::areas::area;
use crate::checks::{can_meet, has_prints, is_spoken};
use crate::keys::key;
use crate::rows::{Bytes, path_of, place, row, rows_of};
use spelling::End;
use std::alloc::Global;
use sync_core::{CoreRefusal, Item, OutItem, Role, Stage, SyncCore};
use sync_msg::Points;
use willow_area::{Area, CutAt};
use willow_entry::{BareRow, Row};
use willow_path::{NamespaceKey, Path};

// A side of BareRows.
pub(crate) type Side = SyncCore<BareRow>;

// An item told in two numbers: its kind, and the byte of the path of a cut, the number of rows, or the byte of the path of
// the row. The kinds are as they are spelled, but that of a row is 8, that of a cut in parts 9; its points behind the first
// are told as items of kind 10.
pub(crate) type Told = (u8, u32);

// The row at a path of this byte, of time 100.
fn row_at(alloc: Global, byte: u8) -> Option<BareRow> {
    let (place, path) = (place(b'N', b'U')?, path_of(alloc, &[byte])?);
    row(alloc, place, path, 100, Vec::new(alloc))
}

// A side with these rows over the area, or without one.
fn side_over(
    alloc: Global,
    version: u8,
    role: Role,
    rows: &Bytes,
    area: Option<Area>,
) -> Option<Side> {
    let rows = rows_of(alloc, rows, 0)?;
    let namespace = NamespaceKey::from_bytes(key(b'N'))?;
    if is_spoken(version) && can_meet(&rows, &namespace) {
        SyncCore::begin(alloc, version, role, rows, area).ok()
    } else {
        None
    }
}

// A side of the version with these rows over the area of the subspace, or without an area.
pub(crate) fn side(
    alloc: Global,
    version: u8,
    role: Role,
    rows: &Bytes,
    has_area: bool,
) -> Option<Side> {
    if has_area {
        let area = area(alloc, &(Some(b'U'), 0, None))?;
        side_over(alloc, version, role, rows, Some(area))
    } else {
        side_over(alloc, version, role, rows, None)
    }
}

// The first byte of a path, or 255.
fn byte_of(path: &Path) -> u32 {
    if path.count() == 0 {
        return 255;
    }
    path.part(0).first().map_or(255, |byte| u32::from(*byte))
}

// The byte of a point that is a path, or 256.
fn point_byte(point: Option<&CutAt>) -> u32 {
    match point {
        Some(CutAt::Path(path)) => byte_of(path),
        _ => 256,
    }
}

// The item in two numbers, but for points behind the first.
fn told(item: &Item<BareRow>) -> Told {
    match item {
        Item::First { .. } => (1, 0),
        Item::Agree => (2, 0),
        Item::Split { at, .. } => (3, point_byte(Some(at))),
        Item::Parts { points, .. } => (9, point_byte(points.get(0))),
        Item::Entries { count } => (4, u32::from(*count)),
        Item::Rest { count } => (5, *count),
        Item::Row(row) => (8, byte_of(&row.entry().path)),
        Item::EndTurn => (6, 0),
        Item::Bye => (7, 0),
    }
}

// Tells points behind the first.
fn tell_further(points: &Points, all: &mut Vec<Told>) -> Option<()> {
    for i in 1..points.len() {
        all.push((10, point_byte(points.get(i)))).ok()?;
    }
    Some(())
}

// Tells the item in numbers.
fn tell(item: &Item<BareRow>, all: &mut Vec<Told>) -> Option<()> {
    all.push(told(item)).ok()?;
    match item {
        Item::Parts { points, .. } => tell_further(points, all),
        _ => Some(()),
    }
}

// The item as the peer reads it.
fn sent(side: &Side, item: OutItem) -> Option<Item<BareRow>> {
    Some(match item {
        OutItem::First { print } => Item::First { print },
        OutItem::Agree => Item::Agree,
        OutItem::Split { at, lower, upper } => Item::Split { at, lower, upper },
        OutItem::Parts { points, prints } => Item::Parts { points, prints },
        OutItem::Entries { count } => Item::Entries { count },
        OutItem::Rest { count } => Item::Rest { count },
        OutItem::Row(at) => Item::Row(side.row_of(at)?.copy().ok()?),
        OutItem::EndTurn => Item::EndTurn,
        OutItem::Bye => Item::Bye,
    })
}

// What the side says next, if it is to say something.
fn say(side: &mut Side) -> Option<Item<BareRow>> {
    match side.stage() {
        Stage::Writing => {
            let item = side.take_item().ok()?;
            sent(side, item)
        }
        _ => None,
    }
}

// Why the item is refused that the side hears, if it is; None where it hears nothing.
pub(crate) fn hear(side: &mut Side, item: Item<BareRow>) -> Option<Option<CoreRefusal>> {
    if !has_prints(&item) {
        return None;
    }
    match side.stage() {
        Stage::Reading => match side.give_item(item) {
            Ok(_row) => Some(None),
            Err(End::Refused(cause)) => Some(Some(cause)),
            Err(End::NoMemory) => None,
        },
        _ => None,
    }
}

// Moves an item from a side to the other, and tells it.
fn pass(from: &mut Side, to: &mut Side, all: &mut Vec<Told>) -> Option<()> {
    let item = say(from)?;
    tell(&item, all)?;
    match hear(to, item)? {
        None => Some(()),
        Some(_) => None,
    }
}

// How many counted items the left side sent and read, where the right one read and sent as many.
fn counted(left: &Side, right: &Side) -> Option<(u32, u32)> {
    let (sent, read) = left.items();
    (right.items() == (read, sent)).then_some((sent, read))
}

// Lets two sides say all to each other, told in order, and counts.
fn talk(left: &mut Side, right: &mut Side, all: &mut Vec<Told>) -> Option<(u32, u32)> {
    for _ in 0..400 {
        match (left.stage(), right.stage()) {
            (Stage::Writing, _) => pass(left, right, all)?,
            (_, Stage::Writing) => pass(right, left, all)?,
            (Stage::Done, Stage::Done) => return counted(left, right),
            _ => return None,
        }
    }
    None
}

// Whether two sides say just this to each other, in order, and the left one sends and reads so many counted items, the
// right one the other way round.
pub(crate) fn say_just(
    alloc: Global,
    left: &mut Side,
    right: &mut Side,
    wanted: &[Told],
    items: (u32, u32),
) -> bool {
    let mut all = Vec::new(alloc);
    talk(left, right, &mut all) == Some(items) && all.as_slice() == wanted
}

// The point of this path, or of the empty one.
fn point(alloc: Global, byte: u32) -> Option<CutAt> {
    if byte == 255 {
        return Some(CutAt::Path(Path::empty(alloc)));
    }
    Some(CutAt::Path(path_of(alloc, &[u8::try_from(byte).ok()?])?))
}

// The item of these two numbers, with fingerprints of nothing.
fn item(alloc: Global, told: Told) -> Option<Item<BareRow>> {
    let print = [0; 32];
    match told.0 {
        1 => Some(Item::First { print }),
        2 => Some(Item::Agree),
        3 => Some(Item::Split {
            at: point(alloc, told.1)?,
            lower: print,
            upper: print,
        }),
        4 => Some(Item::Entries {
            count: u8::try_from(told.1).ok()?,
        }),
        5 => Some(Item::Rest { count: told.1 }),
        6 => Some(Item::EndTurn),
        7 => Some(Item::Bye),
        _ => Some(Item::Row(row_at(alloc, u8::try_from(told.1).ok()?)?)),
    }
}

// Lets the side say its turn, if it is to say one.
pub(crate) fn say_turn(side: &mut Side) -> Option<()> {
    for _ in 0..400 {
        if side.stage() != Stage::Writing {
            return Some(());
        }
        say(side)?;
    }
    None
}

// The refusal that a side keeps which hears these items, each as soon as it reads, with the number of those that were not
// refused.
pub(crate) fn refusal(
    alloc: Global,
    side: &mut Side,
    items: &[Told],
) -> Option<(u32, CoreRefusal)> {
    let mut heard = 0u32;
    for told in items {
        say_turn(side)?;
        match hear(side, item(alloc, *told)?)? {
            None => heard = heard.wrapping_add(1),
            Some(cause) => return kept(side, heard, cause),
        }
    }
    None
}

// The refusal, where the side keeps it.
fn kept(side: &Side, heard: u32, cause: CoreRefusal) -> Option<(u32, CoreRefusal)> {
    if side.stage() == Stage::Refused && side.refusal() == Some(cause) {
        Some((heard, cause))
    } else {
        None
    }
}
