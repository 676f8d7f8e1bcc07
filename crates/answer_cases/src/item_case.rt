//! A case of the table of items.

use crate::bytes::bytes_of;
use crate::item_answer::{answer_behind_more, answer_to};
use std::alloc::{AllocError, Global};

/// More bytes than any case has.
const MANY: usize = 100_000;

/// The version of a reader, the bytes that it took, those that it is given, what it is to answer to all of them, and how
/// many lines about one of the bytes were read.
#[derive(Drop)]
pub(crate) struct ItemCase {
    version: u8,
    before: Vec<u8>,
    bytes: Vec<u8>,
    answer: String,
    places: usize,
}

/// The bytes with another at the place.
fn changed(alloc: Global, bytes: &[u8], place: usize, byte: u8) -> Result<Vec<u8>, AllocError> {
    let mut changed = Vec::from_slice(alloc, bytes)?;
    if let Some(there) = changed.get_mut(place) {
        *there = byte;
    }
    Ok(changed)
}

impl ItemCase {
    /// No case.
    pub(crate) fn none(alloc: Global) -> ItemCase {
        ItemCase {
            version: 0,
            before: Vec::new(alloc),
            bytes: Vec::new(alloc),
            answer: String::new(alloc),
            places: 0,
        }
    }

    /// Reads the next line, of a new case or of a byte of the last one: whether all its answers are the reader's; none
    /// where it is no line of the table. Where the reader asks for more behind a front of the case's bytes, it is given
    /// all of them next, and is to answer as if it had not been asked before.
    pub(crate) fn agrees(&mut self, alloc: Global, kind: &str, fields: &str) -> Option<bool> {
        if kind == "item" {
            *self = ItemCase::of(alloc, fields)?;
            return self
                .is_answered(alloc, &self.bytes, self.answer.as_str())
                .ok();
        }
        let place = self.places;
        self.places = place.saturating_add(1);
        self.agrees_at(alloc, place, fields).ok()
    }

    // The case of the fields.
    fn of(alloc: Global, fields: &str) -> Option<ItemCase> {
        let (_name, fields) = fields.split_once(' ')?;
        let (version, fields) = fields.split_once(' ')?;
        let (before, fields) = fields.split_once(' ')?;
        let (bytes, answer) = fields.split_once(' ')?;
        Some(ItemCase {
            version: version.parse::<u8>().ok()?,
            before: bytes_of(alloc, before)?,
            bytes: bytes_of(alloc, bytes)?,
            answer: String::from_str(alloc, answer).ok()?,
            places: 0,
        })
    }

    // Whether the reader answers so to the bytes.
    fn is_answered(&self, alloc: Global, bytes: &[u8], due: &str) -> Result<bool, AllocError> {
        if self.before.len() > MANY || bytes.len() > MANY {
            return Ok(false);
        }
        Ok(answer_to(alloc, self.version, &self.before, bytes)?.as_str() == due)
    }

    // Whether the reader, if it asks for more behind the front, then answers as to all the bytes.
    fn goes_on(&self, alloc: Global, front: &[u8]) -> Result<bool, AllocError> {
        if self.before.len() > MANY || front.len() > MANY || self.bytes.len() > MANY {
            return Ok(false);
        }
        match answer_behind_more(alloc, self.version, &self.before, front, &self.bytes)? {
            Some(answer) => Ok(answer.as_str() == self.answer.as_str()),
            None => Ok(true),
        }
    }

    // Whether the reader answers so to the bytes with another at the place.
    fn is_answered_with(
        &self,
        alloc: Global,
        place: usize,
        byte: u8,
        due: &str,
    ) -> Result<bool, AllocError> {
        self.is_answered(alloc, &changed(alloc, &self.bytes, place, byte)?, due)
    }

    // Whether the reader answers so to the bytes in front of the place, and to the bytes with another at the place.
    fn agrees_at(&self, alloc: Global, place: usize, answers: &str) -> Result<bool, AllocError> {
        let Some(byte) = self.bytes.get(place) else {
            return Ok(false);
        };
        let mut answers = answers.split(' ');
        let front = &self.bytes[..place];
        let mut agrees = self.is_answered(alloc, front, answers.next().unwrap_or(""))?
            && self.goes_on(alloc, front)?;
        for value in [0, 255, byte.wrapping_add(1), byte ^ 0x80] {
            let due = answers.next().unwrap_or("");
            agrees = self.is_answered_with(alloc, place, value, due)? && agrees;
        }
        Ok(agrees)
    }
}
