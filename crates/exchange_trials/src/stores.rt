//! Stores of generated rows that meet, and what comes of it, told in numbers.

use crate::areas::{Place, area};
use crate::checks::{can_meet, is_spoken};
use crate::keys::key;
use crate::rows::{Bytes, offer, path_of, place, row, rows_of};
use block_store::{BlockStore, Snapshot};
use std::alloc::Global;
use sync_pair::{PairRun, meet_rows};
use willow_area::Area;
use willow_entry::{BareRow, Row};
use willow_path::{NamespaceKey, Path};

// So many rows that look random, made from a number on: two in so many are offered to one store alone.
pub(crate) type Made = (u32, u64, u64);

// What one side got: the byte of the first path, how many rows, and the sum of their times.
pub(crate) type Got = (u8, usize, u64);

// The row of a subspace at a path, of a time, with a token of 102 times a byte.
fn row_at(alloc: Global, subspace: u8, parts: &[u8], time: u64, token: u8) -> Option<BareRow> {
    let token = Vec::from_slice(alloc, &[token; 102]).ok()?;
    row(
        alloc,
        place(b'N', subspace)?,
        path_of(alloc, parts)?,
        time,
        token,
    )
}

// The row made of a number.
fn row_of(alloc: Global, high: u64) -> Option<BareRow> {
    let subspace = if high % 2 == 0 { b'U' } else { b'V' };
    let both = [(high / 2 % 64) as u8, (high / 128 % 16) as u8];
    let count = if high / 2048 % 32 == 0 { 1 } else { 2 };
    let (time, token) = (100 + high / 65_536 % 64, (high / 4_194_304 % 2) as u8);
    row_at(alloc, subspace, &both[..count], time, token)
}

// Offers that row to both stores, or but to one of them.
fn offer_made(
    alloc: Global,
    high: u64,
    spread: u64,
    left: &mut BlockStore<BareRow>,
    right: &mut BlockStore<BareRow>,
) -> Option<()> {
    let side = (high / 8_388_608).checked_rem(spread);
    if side != Some(0) {
        offer(left, row_of(alloc, high)?)?;
    }
    if side != Some(1) {
        offer(right, row_of(alloc, high)?)?;
    }
    Some(())
}

// Offers such rows to two stores.
fn offer_all(
    alloc: Global,
    rows: &Made,
    left: &mut BlockStore<BareRow>,
    right: &mut BlockStore<BareRow>,
) -> Option<()> {
    let (count, seed, spread) = *rows;
    let mut at = seed;
    for _ in 0..count {
        at = at
            .wrapping_mul(6_364_136_223_846_793_005)
            .wrapping_add(1_442_695_040_888_963_407);
        offer_made(alloc, at >> 32, spread, left, right)?;
    }
    Some(())
}

// What comes of it where two stores meet in a session of the version.
pub(crate) fn met(
    alloc: Global,
    version: u8,
    left: Option<&Snapshot<BareRow>>,
    right: Option<&Snapshot<BareRow>>,
    area: Option<&Area>,
) -> Option<PairRun<BareRow>> {
    let (left, right) = (left?, right?);
    let namespace = NamespaceKey::from_bytes(key(b'N'))?;
    if is_spoken(version) && can_meet(left, &namespace) && can_meet(right, &namespace) {
        meet_rows(alloc, version, left, right, area).ok()
    } else {
        None
    }
}

// What comes of it where two stores meet that these rows are offered to.
fn met_stores(
    alloc: Global,
    version: u8,
    rows: &Made,
    area: &Area,
    left: &mut BlockStore<BareRow>,
    right: &mut BlockStore<BareRow>,
) -> Option<PairRun<BareRow>> {
    offer_all(alloc, rows, left, right)?;
    met(
        alloc,
        version,
        left.snapshot().ok().as_ref(),
        right.snapshot().ok().as_ref(),
        Some(area),
    )
}

// What comes of it where generated rows meet in an area.
pub(crate) fn met_made(
    alloc: Global,
    version: u8,
    rows: &Made,
    place: &Place,
) -> Option<PairRun<BareRow>> {
    let area = area(alloc, place)?;
    met_stores(
        alloc,
        version,
        rows,
        &area,
        &mut BlockStore::new(alloc),
        &mut BlockStore::new(alloc),
    )
}

// What comes of it where these rows, with tokens of 102 bytes, meet over an area or without one.
fn met_over(
    alloc: Global,
    version: u8,
    left: &Bytes,
    right: &Bytes,
    area: Option<&Area>,
) -> Option<PairRun<BareRow>> {
    met(
        alloc,
        version,
        rows_of(alloc, left, 102).as_ref(),
        rows_of(alloc, right, 102).as_ref(),
        area,
    )
}

// What comes of it where these rows meet, over the area of U or without one.
pub(crate) fn met_bytes(
    alloc: Global,
    version: u8,
    left: &Bytes,
    right: &Bytes,
    has_area: bool,
) -> Option<PairRun<BareRow>> {
    if has_area {
        let area = area(alloc, &(Some(b'U'), 0, None))?;
        met_over(alloc, version, left, right, Some(&area))
    } else {
        met_over(alloc, version, left, right, None)
    }
}

// The first byte of a path, or 255.
pub(crate) fn byte_of(path: &Path) -> u8 {
    if path.count() == 0 {
        return 255;
    }
    path.part(0).first().copied().unwrap_or(255)
}

// What the rows are that a side got.
pub(crate) fn got(rows: &[BareRow]) -> Got {
    let mut times = 0u64;
    for row in rows {
        times = times.wrapping_add(row.entry().timestamp);
    }
    let first = rows.first().map_or(255, |row| byte_of(&row.entry().path));
    (first, rows.len(), times)
}

// How many bytes tell all turns: of each those that it has, and five before them for its side and its length.
pub(crate) fn transcript_length(turns: &[Vec<u8>]) -> usize {
    let mut length = 0usize;
    for turn in turns {
        length = length.wrapping_add(5).wrapping_add(turn.len());
    }
    length
}

// Whether the turns have these lengths.
pub(crate) fn have_lengths(turns: &[Vec<u8>], lengths: &[usize]) -> bool {
    turns.len() == lengths.len()
        && turns
            .iter()
            .zip(lengths)
            .all(|(turn, length)| turn.len() == *length)
}
