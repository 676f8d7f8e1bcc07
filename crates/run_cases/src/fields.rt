//! What the fields of a case say.

use hex::{FromHex, FromHexError};
use std::alloc::{AllocError, Global};
use std::collections::BTreeMap;

/// The name of a case.
pub(crate) fn name_of(line: &str) -> &str {
    line.split(' ').next().unwrap_or("")
}

/// The bytes of a field; `-` is none.
pub(crate) fn bytes_of(alloc: Global, field: &str) -> Result<Vec<u8>, FromHexError> {
    if field == "-" {
        return Ok(Vec::new(alloc));
    }
    hex::decode(alloc, field)
}

/// The words of a field, joined by commas; `-` is no word.
pub(crate) fn words_of(alloc: Global, field: &str) -> Result<Vec<String>, AllocError> {
    let mut words = Vec::new(alloc);
    if field == "-" {
        return Ok(words);
    }
    for word in field.split(',') {
        let word = String::from_str(alloc, word)?;
        words.push(word).map_err(|unsaid| AllocError::from(unsaid))?;
    }
    Ok(words)
}

/// The bytes under each name, `NAME:BYTES` joined by commas; `-` is no name.
pub(crate) fn names_of(
    alloc: Global,
    field: &str,
) -> Result<BTreeMap<String, Vec<u8>>, FromHexError> {
    let mut names = BTreeMap::new(alloc);
    for item in field.split(',') {
        if let Some((name, bytes)) = item.split_once(':') {
            let name = String::from_str(alloc, name)?;
            let bytes = hex::decode(alloc, bytes)?;
            names
                .insert(name, bytes)
                .map_err(|unsaid| AllocError::from(unsaid))?;
        }
    }
    Ok(names)
}

/// The draws of a field, joined by commas; `-` is no draw.
pub(crate) fn draws_of(alloc: Global, field: &str) -> Result<Vec<[u8; 32]>, FromHexError> {
    let mut draws = Vec::new(alloc);
    if field == "-" {
        return Ok(draws);
    }
    for draw in field.split(',') {
        let draw = <[u8; 32] as FromHex>::from_hex(draw)?;
        draws.push(draw).map_err(|unsaid| AllocError::from(unsaid))?;
    }
    Ok(draws)
}

/// The numbers of the calls of one object that fail, by its letter.
pub(crate) fn fails_of(alloc: Global, field: &str, object: char) -> Result<Vec<u64>, AllocError> {
    let mut fails = Vec::new(alloc);
    for item in field.split(',') {
        if let Some(number) = item.strip_prefix(object) {
            let number = number.parse::<u64>().unwrap_or(0);
            fails
                .push(number)
                .map_err(|unsaid| AllocError::from(unsaid))?;
        }
    }
    Ok(fails)
}

/// The numbers of the calls of a link that fail, by its number, from 1: `l` and the number of the call, before which the
/// number of a further link and a colon stand.
pub(crate) fn link_fails_of(alloc: Global, field: &str, link: u64) -> Result<Vec<u64>, AllocError> {
    let mut fails = Vec::new(alloc);
    for item in field.split(',') {
        if let Some(call) = item.strip_prefix('l') {
            let (found, number) = call.split_once(':').unwrap_or(("1", call));
            if found.parse::<u64>() == Ok(link) {
                let number = number.parse::<u64>().unwrap_or(0);
                fails
                    .push(number)
                    .map_err(|unsaid| AllocError::from(unsaid))?;
            }
        }
    }
    Ok(fails)
}
