//! One run with what is expected of it.

use crate::fields::{bytes_of, words_of};
use crate::made::{all_made, bytes_made};
use crate::objects::{LARGE_PIECE, Objects, PIECE, held};
use crate::run::run;
use hex::FromHexError;
use sha2::{Digest, Sha256};
use std::alloc::Global;
use std::sync::Wait;
use std::thread::Threads;
use willow_outside::{MemDisk, MemLink, MemShelf};

/// What stands before the digest and the length of an output that is told by them.
const DIGEST_MARK: &str = "sha256:";

// What stands for no disk in place of what each holds.
const NO_DISK: &str = "none";

/// What a case expects.
#[derive(Drop)]
struct Expected<'a> {
    output: &'a str,
    report: &'a str,
    status: &'a str,
    names: &'a str,
    /// What each link that came back holds behind the run; None where the door leads to none.
    held: Option<&'a str>,
    /// What each disk holds that came back; None where there is no log file.
    disks: Option<&'a str>,
}

/// Whether the bytes are those of the field, or have the digest and the length that it tells.
fn agrees(alloc: Global, bytes: &[u8], field: &str) -> Result<bool, FromHexError> {
    let Some(told) = field.strip_prefix(DIGEST_MARK) else {
        return Ok(bytes == bytes_of(alloc, field)?.as_slice());
    };
    let length = bytes.len();
    let digest = hex::encode(alloc, Sha256::digest(bytes).as_slice())?;
    Ok(format!(in alloc; "{digest}:{length}")?.as_str() == told)
}

/// Whether the shelf holds under each name of the field the bytes that stand there, or those of the digest and the length.
fn holds_all(alloc: Global, shelf: &mut MemShelf, names: &str) -> Result<bool, FromHexError> {
    let mut all = true;
    for item in names.split(',') {
        if let Some((name, bytes)) = item.split_once(':') {
            all = holds(alloc, shelf, name, bytes)? && all;
        }
    }
    Ok(all)
}

/// Whether the shelf holds under the name what the field tells.
fn holds(
    alloc: Global,
    shelf: &mut MemShelf,
    name: &str,
    field: &str,
) -> Result<bool, FromHexError> {
    match held(shelf, name) {
        Some(found) => agrees(alloc, &found, field),
        None => Ok(false),
    }
}

/// Whether a name stands in the field.
fn stands_in(name: &str, names: &str) -> bool {
    names.split(',').any(|item| item.split_once(':').is_some_and(|(found, _)| found == name))
}

/// Whether the shelf holds nothing under a name of the words that does not stand in the field.
fn holds_no_other(shelf: &mut MemShelf, words: &[String], names: &str) -> bool {
    let mut none = true;
    for word in words {
        let name = word.as_str().strip_prefix("lms:").unwrap_or(word.as_str());
        none = none && (stands_in(name, names) || held(shelf, name).is_none());
    }
    none
}

/// The first part of the run that is not as expected.
fn told<R: Wait + Threads + Sync>(
    rt: &R,
    alloc: Global,
    words: &[String],
    objects: &mut Objects,
    expected: &Expected<'_>,
) -> Result<Option<&'static str>, FromHexError> {
    let status = run(rt, alloc, words, objects);
    if expected.status.parse::<u8>() != Ok(status) {
        return Ok(Some("status"));
    }
    if !agrees(alloc, objects.output.held(), expected.output)? {
        return Ok(Some("output"));
    }
    if objects.report.held() != bytes_of(alloc, expected.report)?.as_slice() {
        return Ok(Some("report"));
    }
    if !holds_all(alloc, &mut objects.shelf, expected.names)?
        || !holds_no_other(&mut objects.shelf, words, expected.names)
    {
        return Ok(Some("shelf"));
    }
    if !holds_traffic(alloc, objects.door.back(), expected.held)? {
        return Ok(Some("link"));
    }
    if !holds_disks(alloc, objects.bay.back(), expected.disks)? {
        return Ok(Some("log file"));
    }
    Ok(None)
}

/// Whether the door has back just as many links as the field has items, and each holds the bytes of its item, in order. One
/// item of no bytes stands also for no link: the door led to none, or none was handed out.
fn holds_traffic(
    alloc: Global,
    back: &[MemLink],
    held: Option<&str>,
) -> Result<bool, FromHexError> {
    let Some(held) = held else {
        return Ok(back.is_empty());
    };
    if held == "-" && back.is_empty() {
        return Ok(true);
    }
    let mut items = held.split(',');
    for link in back {
        match items.next() {
            Some(bytes) if link.held() == bytes_of(alloc, bytes)?.as_slice() => {}
            _ => return Ok(false),
        }
    }
    Ok(items.next().is_none())
}

/// Whether the bay has back just as many disks as the field has items, and each holds the bytes of its item, in order.
fn holds_disks(alloc: Global, back: &[MemDisk], disks: Option<&str>) -> Result<bool, FromHexError> {
    let disks = disks.unwrap_or(NO_DISK);
    if disks == NO_DISK {
        return Ok(back.is_empty());
    }
    let mut items = disks.split(',');
    for disk in back {
        match items.next() {
            Some(bytes) if disk.contents() == bytes_of(alloc, bytes)?.as_slice() => {}
            _ => return Ok(false),
        }
    }
    Ok(items.next().is_none())
}

/// The first part of a line's run that is not as expected, also where the line is no case.
fn differs_in<R: Wait + Threads + Sync>(
    rt: &R,
    alloc: Global,
    line: &str,
) -> Result<Option<&'static str>, FromHexError> {
    let mut fields = line.split(' ');
    let _name = fields.next();
    let words = words_of(alloc, fields.next().unwrap_or(""))?;
    let names = fields.next().unwrap_or("");
    let draws = fields.next().unwrap_or("");
    let input = bytes_made(rt, alloc, fields.next().unwrap_or(""))?;
    let faults = fields.next().unwrap_or("");
    let expected = Expected {
        output: fields.next().unwrap_or(""),
        report: fields.next().unwrap_or(""),
        status: fields.next().unwrap_or(""),
        names: fields.next().unwrap_or(""),
        held: None,
        disks: None,
    };
    let links = all_made(rt, alloc, fields.next())?;
    let expected = Expected {
        held: fields.next(),
        ..expected
    };
    let files = fields.next().unwrap_or("");
    let expected = Expected {
        disks: fields.next(),
        ..expected
    };
    let piece = if expected.output.starts_with(DIGEST_MARK)
        || expected.names.contains(DIGEST_MARK)
    {
        LARGE_PIECE
    } else {
        PIECE
    };
    let mut objects = Objects::new(alloc, names, draws, input, faults, links, files, piece)?;
    told(rt, alloc, &words, &mut objects, &expected)
}

/// The first part of a line's run that is not as expected.
pub(crate) fn differs<R: Wait + Threads + Sync>(
    rt: &R,
    alloc: Global,
    line: &str,
) -> Option<&'static str> {
    differs_in(rt, alloc, line).unwrap_or(Some("line"))
}
