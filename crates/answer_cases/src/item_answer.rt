//! The answers of a reader, in the words of the table.

ghost use Rattle.std.specs.Prelude.{◌≡◌, ◌+◌, ◌<◌, ◌^◌, length, IfSome};

use spelling::End;
use std::alloc::{AllocError, Global};
use sync_msg::{BadItem, Item, ItemReader, Points, Prints, Step};
use willow_area::CutAt;
use willow_entry::{BareRow, BareRows, Row};

/// The reader behind the bytes, which are whole items; none where they are not.
fn take_all(mut reader: ItemReader<BareRows>, bytes: &[u8]) -> Option<ItemReader<BareRows>>
    requires { reader.taken + length bytes.now < 2 ^ 64 }
    ensures { IfSome result (λ r. r.taken ≡ reader.taken + length bytes.now) }
{
    if bytes.len() == 0 {
        return Some(reader);
    }
    match reader.next(bytes) {
        Ok(Step::Got { item: _, taken }) if taken > 0 => take_all(reader, &bytes[taken..]),
        _ => None,
    }
}

/// A new reader of the version that took the bytes; none where there is no such version.
fn reader_behind(alloc: Global, version: u8, before: &[u8]) -> Option<ItemReader<BareRows>>
    ensures { IfSome result (λ r. r.taken ≡ length before.now) }
{
    match version {
        1 => take_all(ItemReader::new(alloc, 1), before),
        2 => take_all(ItemReader::new(alloc, 2), before),
        _ => None,
    }
}

/// The word for the dimension of a point.
fn dimension_word(at: &CutAt) -> &'static str {
    match at {
        CutAt::Subspace(_) => "key",
        CutAt::Path(_) => "path",
        CutAt::Time(_) => "time",
    }
}

/// What is told of a point: the second byte of a key, how many bytes a path has, or a time.
fn point_number(at: &CutAt) -> u64 {
    match at {
        CutAt::Subspace(key) => {
            let bytes = key.to_bytes();
            u64::from(bytes[1])
        }
        CutAt::Path(path) => path.total() as u64,
        CutAt::Time(time) => *time,
    }
}

/// What is told of a cut in parts.
fn parts_word(alloc: Global, points: &Points, prints: &Prints) -> Result<String, AllocError> {
    let dimension = points.get(0).map_or("nowhere", |at| dimension_word(at));
    let mut word = format!(in alloc; "parts-{dimension}")?;
    for i in 0..points.len() {
        let number = points.get(i).map_or(0, |at| point_number(at));
        word = format!(in alloc; "{word}.{number}")?;
    }
    for i in 0..prints.len() {
        let first = prints.get(i).map_or(0, |print| print[0]);
        word = format!(in alloc; "{word}.{first}")?;
    }
    Ok(word)
}

/// What is told of an item.
fn item_word(alloc: Global, item: &Item<BareRow>) -> Result<String, AllocError> {
    match item {
        Item::First { print } => format!(in alloc; "first.{}", print[0]),
        Item::Agree => String::from_str(alloc, "agree"),
        Item::Split { at, lower, upper } => {
            let dimension = dimension_word(at);
            format!(in alloc; "split-{dimension}.{}.{}", lower[0], upper[0])
        }
        Item::Parts { points, prints } => parts_word(alloc, points, prints),
        Item::Entries { count } => format!(in alloc; "entries.{count}"),
        Item::Rest { count } => format!(in alloc; "rest.{count}"),
        Item::Row(row) => format!(in alloc; "row.{}", row.token_bytes().len()),
        Item::EndTurn => String::from_str(alloc, "turn"),
        Item::Bye => String::from_str(alloc, "bye"),
    }
}

/// The word for an answer behind so many bytes.
fn word(
    alloc: Global,
    answer: Result<Step<BareRow>, End<BadItem>>,
    before: usize,
) -> Result<String, AllocError> {
    match answer {
        Ok(Step::Got { item, taken }) => {
            let item = item_word(alloc, &item)?;
            format!(in alloc; "{item}:{taken}")
        }
        Ok(Step::More) => String::from_str(alloc, "more"),
        Err(End::Refused(bad)) if bad.at == before as u64 => String::from_str(alloc, "bad"),
        Err(End::Refused(bad)) => format!(in alloc; "bad at {}", bad.at),
        Err(End::NoMemory) => String::from_str(alloc, "no memory"),
    }
}

/// The answer to the bytes of a reader of the version that took those before.
pub(crate) fn answer_to(
    alloc: Global,
    version: u8,
    before: &[u8],
    bytes: &[u8],
) -> Result<String, AllocError>
    requires { length before.now + length bytes.now < 2 ^ 64 }
{
    match reader_behind(alloc, version, before) {
        Some(mut reader) => {
            let answer = reader.next(bytes);
            word(alloc, answer, before.len())
        }
        None => String::from_str(alloc, "no items before"),
    }
}

/// The answer to the bytes of a reader of the version that took those before and asked for more behind the front; none
/// where it did not ask.
pub(crate) fn answer_behind_more(
    alloc: Global,
    version: u8,
    before: &[u8],
    front: &[u8],
    bytes: &[u8],
) -> Result<Option<String>, AllocError>
    requires front { length before.now + length front.now < 2 ^ 64 }
    requires bytes { length before.now + length bytes.now < 2 ^ 64 }
{
    let Some(mut reader) = reader_behind(alloc, version, before) else {
        return Ok(None);
    };
    match reader.next(front) {
        Ok(Step::More) => {
            let answer = reader.next(bytes);
            Ok(Some(word(alloc, answer, before.len())?))
        }
        _ => Ok(None),
    }
}
