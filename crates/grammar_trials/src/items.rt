//! Items of both versions that are spelled, read, and not read.

use crate::keys::{key, user};
use spelling::{End, NoMemory};
use std::alloc::Global;
use sync_msg::{
    BadItem, CoreRefusal, Item, ItemReader, Points, Prints, Role, Step, encode_item, laws,
};
use willow_area::CutAt;
use willow_entry::{BareRow, BareRows, Entry, Row};
use willow_path::{Digest, NamespaceKey, Path};

// The first byte of the spelling of a head, or 09 for a row, and how many bytes were taken; or 00 where more is asked for,
// ff where the bytes are bad, with the place told.
fn told(answer: Result<Step<BareRow>, End<BadItem>>) -> (u8, u64) {
    match answer {
        Ok(Step::Got { item, taken }) => (kind_of(&item), taken as u64),
        Ok(Step::More) => (0, 0),
        Err(End::Refused(bad)) => (255, bad.at),
        Err(End::NoMemory) => (254, 0),
    }
}

fn kind_of(item: &Item<BareRow>) -> u8 {
    match item {
        Item::First { .. } => 1,
        Item::Agree => 2,
        Item::Split { .. } => 3,
        Item::Entries { .. } => 4,
        Item::Rest { .. } => 5,
        Item::EndTurn => 6,
        Item::Bye => 7,
        Item::Parts { .. } => 8,
        Item::Row(_) => 9,
    }
}

// What a new reader of version 1 answers.
fn answer(alloc: Global, bytes: &[u8]) -> (u8, u64) {
    let mut reader = ItemReader::<BareRows>::new(alloc, 1);
    told(reader.next(bytes))
}

// What one of version 2 answers.
fn answer_of_2(alloc: Global, bytes: &[u8]) -> (u8, u64) {
    let mut reader = ItemReader::<BareRows>::new(alloc, 2);
    told(reader.next(bytes))
}

#[test]
fn answers(rt: HostRuntime) {
    for (bytes, due, due_of_2) in [
        ([2].as_slice(), (2, 1), (2, 1)),
        ([3].as_slice(), (0, 0), (255, 0)),
        ([8].as_slice(), (255, 0), (0, 0)),
        ([8, 2, 4].as_slice(), (255, 0), (255, 0)),
        ([4, 17].as_slice(), (255, 0), (255, 0)),
        ([5, 0, 1, 0, 0].as_slice(), (5, 5), (5, 5)),
        ([5, 0, 1, 0, 1].as_slice(), (255, 0), (255, 0)),
    ] {
        assert_eq!(rt; answer(rt.alloc(), bytes), due);
        assert_eq!(rt; answer_of_2(rt.alloc(), bytes), due_of_2);
    }
}

// What a reader answers behind an `Entries` of one row, which was read.
fn answer_behind(alloc: Global, bytes: &[u8]) -> (u8, u64) {
    let mut reader = ItemReader::<BareRows>::new(alloc, 1);
    match reader.next(&[4, 1]) {
        Ok(
            Step::Got {
                item: Item::Entries { count: 1 },
                taken: 2,
            },
        ) => told(reader.next(bytes)),
        other => told(other),
    }
}

#[test]
fn rows_that_are_due(rt: HostRuntime) {
    for (bytes, due) in [
        ([0, 2, 0].as_slice(), (0, 0)),
        ([0, 2, 0, 1].as_slice(), (255, 2)),
        ([0, 0, 0, 0].as_slice(), (255, 2)),
        ([2].as_slice(), (255, 2)),
    ] {
        assert_eq!(rt; answer_behind(rt.alloc(), bytes), due);
    }
}

// An entry at the empty path.
fn entry(alloc: Global) -> Option<Entry> {
    Some(Entry {
        namespace: NamespaceKey::from_bytes(key(0x4e))?,
        subspace: user()?,
        path: Path::empty(alloc),
        timestamp: 5,
        length: 1,
        digest: Digest([0x11; 32]),
    })
}

// The frame of a short row.
#[tactic(auto, unfolding(willow_entry::specs::RowBody::row_body))]
fn frame_of(alloc: Global, row: BareRow) -> Option<Vec<u8>> {
    if row.entry_bytes().len() >= 1000 || row.token_bytes().len() >= 1000 {
        return None;
    }
    let mut frame = Vec::new(alloc);
    encode_item(&Item::Row(row), &mut frame).ok()?;
    Some(frame)
}

// Whether the frame of a row has 119 bytes, begins so, and is read again, but not without its last byte.
fn is_framed(alloc: Global) -> Option<bool> {
    let row = BareRow::new(alloc, entry(alloc)?, Vec::new(alloc)).ok()?;
    let mut frame = frame_of(alloc, row)?;
    let begins = frame.len() == 119 && frame.starts_with(&[0, 0, 0, 115, 0, 0x4e]);
    let whole = answer_behind(alloc, &frame) == (9, 119);
    frame.truncate(118);
    Some(begins && whole && answer_behind(alloc, &frame) == (0, 0))
}

#[test]
fn rows(rt: HostRuntime) {
    assert_eq!(rt; is_framed(rt.alloc()), Some(true));
}

// The spellings of a split and of the longest counts, one after the other.
fn three_items(alloc: Global) -> Result<Vec<u8>, NoMemory> {
    let mut out = Vec::new(alloc);
    let split: Item<BareRow> = Item::Split {
        at: CutAt::Path(Path::empty(alloc)),
        lower: [0x22; 32],
        upper: [0x33; 32],
    };
    encode_item(&split, &mut out)?;
    encode_item::<BareRow>(&Item::Entries { count: 16 }, &mut out)?;
    encode_item::<BareRow>(&Item::Rest { count: 65_536 }, &mut out)?;
    Ok(out)
}

// Whether the three items have 74 bytes, begin and end so, and the first is read again.
fn are_spelled(alloc: Global) -> Option<bool> {
    let text = three_items(alloc).ok()?;
    let begins = text.len() == 74 && text.starts_with(&[3, 1, 0, 0x22]);
    let ends = text.ends_with(&[0x33, 4, 16, 5, 0, 1, 0, 0]);
    Some(begins && ends && answer(alloc, &text) == (3, 67))
}

// The spelling of a cut at these points, with these fingerprints, where they are such.
fn cut_of(alloc: Global, points: Points, prints: Prints) -> Option<Vec<u8>> {
    if points.len() == 0 || prints.len() != points.len() + 1 {
        return None;
    }
    let mut out = Vec::new(alloc);
    let parts: Item<BareRow> = Item::Parts { points, prints };
    encode_item(&parts, &mut out).ok()?;
    Some(out)
}

// The spelling of a cut in two parts at a time.
fn cut_at_time(alloc: Global) -> Option<Vec<u8>> {
    let (mut points, mut prints) = (Points::new(alloc), Prints::new(alloc));
    points.push(CutAt::Time(5)).ok()?;
    prints.push([0x22; 32]).ok()?;
    prints.push([0x33; 32]).ok()?;
    cut_of(alloc, points, prints)
}

// Whether that has 75 bytes, begins and ends so, and is read again in version 2 alone.
fn is_cut(alloc: Global) -> Option<bool> {
    let text = cut_at_time(alloc)?;
    let begins = text.len() == 75 && text.starts_with(&[8, 2, 1, 0, 0, 0, 0, 0, 0, 0, 5, 0x22]);
    let is_read = answer(alloc, &text) == (255, 0) && answer_of_2(alloc, &text) == (8, 75);
    Some(begins && text.ends_with(&[0x33; 32]) && is_read)
}

#[test]
fn spellings(rt: HostRuntime) {
    assert_eq!(rt; are_spelled(rt.alloc()), Some(true));
    assert_eq!(rt; is_cut(rt.alloc()), Some(true));
}

#[test]
fn values(rt: HostRuntime) {
    let rest: Item<BareRow> = Item::Rest { count: 2 };
    let bye: Item<BareRow> = Item::Bye;
    assert!(rt; rest.is_counted() && !bye.is_counted());
    assert!(rt; Role::Caller != Role::Answerer);
    assert!(rt; CoreRefusal::TooManyItems { items: 3 } != CoreRefusal::BadCut);
}

#[test]
fn the_laws_can_be_called() {
    laws::limits();
    laws::readers();
    laws::one_spelling();
    laws::one_answer::<BareRows>();
}
