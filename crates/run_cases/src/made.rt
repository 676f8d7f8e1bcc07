//! Bytes of fields, of which runs make some.

use crate::fields::{bytes_of, words_of};
use crate::objects::{LARGE_PIECE, Objects};
use crate::run::run;
use hex::FromHexError;
use std::alloc::{AllocError, Global};
use std::sync::Wait;
use std::thread::Threads;

/// The words behind those of a written row's path.
const OF_A_BYTE: &str =
    "--time,5,--length,1,--digest,1111111111111111111111111111111111111111111111111111111111111111";

/// Appends what the run of the words over the input puts out.
fn put_output<R: Wait + Threads + Sync>(
    rt: &R,
    alloc: Global,
    words: &[String],
    input: Vec<u8>,
    bytes: &mut Vec<u8>,
) -> Result<(), FromHexError> {
    let none = Vec::new(alloc);
    let mut objects = Objects::new(alloc, "-", "-", input, "-", none, "-", LARGE_PIECE)?;
    let _status = run(rt, alloc, words, &mut objects);
    bytes.extend_from_slice(objects.output.held())?;
    Ok(())
}

/// Appends what the program's `gen` puts out for so many rows.
fn put_generated<R: Wait + Threads + Sync>(
    rt: &R,
    alloc: Global,
    rows: &str,
    bytes: &mut Vec<u8>,
) -> Result<(), FromHexError> {
    let words = words_of(alloc, format!(in alloc; "gen,--rows,{rows}")?.as_str())?;
    put_output(rt, alloc, &words, Vec::new(alloc), bytes)
}

/// Appends the row that the program's `write` makes by an open key, under a capability, at the path of a number.
fn put_written<R: Wait + Threads + Sync>(
    rt: &R,
    alloc: Global,
    key: &str,
    capability: &[u8],
    number: u32,
    bytes: &mut Vec<u8>,
) -> Result<(), FromHexError> {
    let path = hex::encode(alloc, number.to_be_bytes().as_slice())?;
    let words = format!(in alloc; "write,--key,open:{key},--path,/{path},{OF_A_BYTE}")?;
    let words = words_of(alloc, words.as_str())?;
    put_output(
        rt,
        alloc,
        &words,
        Vec::from_slice(alloc, capability)?,
        bytes,
    )
}

/// Appends so many of them, from number 0 on: the field tells how many, the key's digits and the capability.
fn put_all_written<R: Wait + Threads + Sync>(
    rt: &R,
    alloc: Global,
    told: &str,
    bytes: &mut Vec<u8>,
) -> Result<(), FromHexError> {
    let mut fields = told.split(':');
    let rows = fields.next().unwrap_or("").parse::<u32>().unwrap_or(0);
    let key = fields.next().unwrap_or("");
    let capability = bytes_of(alloc, fields.next().unwrap_or(""))?;
    for number in 0..rows {
        put_written(rt, alloc, key, &capability, number, bytes)?;
    }
    Ok(())
}

/// Appends the bytes of a piece of a field.
fn put_piece<R: Wait + Threads + Sync>(
    rt: &R,
    alloc: Global,
    piece: &str,
    bytes: &mut Vec<u8>,
) -> Result<(), FromHexError> {
    if let Some(rows) = piece.strip_prefix("gen:") {
        return put_generated(rt, alloc, rows, bytes);
    }
    if let Some(told) = piece.strip_prefix("write:") {
        return put_all_written(rt, alloc, told, bytes);
    }
    bytes.extend_from_slice(&bytes_of(alloc, piece)?)?;
    Ok(())
}

/// The bytes of a field: its pieces are bytes, or rows that runs make.
pub(crate) fn bytes_made<R: Wait + Threads + Sync>(
    rt: &R,
    alloc: Global,
    field: &str,
) -> Result<Vec<u8>, FromHexError> {
    let mut bytes = Vec::new(alloc);
    for piece in field.split('+') {
        put_piece(rt, alloc, piece, &mut bytes)?;
    }
    Ok(bytes)
}

/// The bytes of each of a field's items; none where there is no field.
pub(crate) fn all_made<R: Wait + Threads + Sync>(
    rt: &R,
    alloc: Global,
    field: Option<&str>,
) -> Result<Vec<Vec<u8>>, FromHexError> {
    let mut all = Vec::new(alloc);
    let Some(field) = field else {
        return Ok(all);
    };
    for item in field.split(',') {
        let bytes = bytes_made(rt, alloc, item)?;
        all.push(bytes).map_err(|unsaid| AllocError::from(unsaid))?;
    }
    Ok(all)
}
