//! Reading the frames of a piece.

ghost use Rattle.std.specs.Prelude.{◌≡◌, ◌+◌, ◌^◌, ◌<◌, ◌≤◌, ℕ, List, [], ◌++◌, length, take, OnErr, IsErrOf};
ghost use Rattle.spelling.specs.declared.ending.End.TheVariants as ends;
ghost use Rattle.willow_entry.specs.EntryForm.{EntryAsks};
ghost use Rattle.row_stream.specs.Memory.{PieceAsks};
ghost use Rattle.row_stream.specs.Places.{IsUnfinished};
ghost use Rattle.row_stream.specs.Steps.{AddsRow, IsCompleted, ReadsFrames, ReadsOn, ReadsRow};

use crate::begun::{begin_with, complete};
use crate::frame::{FIELD, split_frame};
use crate::refusal::StreamRefusal;
use spelling::{End, Unread};
use std::alloc::Global;
use willow_entry::{LEAST_ENTRY, RowForm};

// Reads a piece behind the bytes that have begun, of which the first has this offset. Answers the rows that became
// whole and the offset behind their frames, and leaves what then has begun. Where that does not end well, what had
// begun still stands in front. Where nothing had begun, memory is asked for only where the piece asks.
pub(crate) fn read_piece<F: RowForm>(
    alloc: Global,
    at: u64,
    begun: &mut Vec<u8>,
    piece: &[u8],
) -> Result<(Vec<F::R>, u64), End<StreamRefusal>>
    requires unfinished { IsUnfinished begun.old.items }
    requires few { at + length begun.old.items + length piece.now < 2 ^ 64 }
    ensures reads { ReadsOn F.IsRow F.R.value at (begun.old.items ++ piece.now) [] begun.new.items result }
    ensures kept { OnErr result (take (length begun.old.items) begun.new.items ≡ begun.old.items) }
    ensures asked { IsErrOf result ends.NoMemory → begun.old.items ≡ [] → PieceAsks piece.now }
{
    let mut rows = Vec::new(alloc);
    let here = read_into::<F>(alloc, at, begun, piece, &mut rows)?;
    Ok((rows, here))
}

// The same over rows of the caller, which are none yet; answers the offset behind the frames.
fn read_into<F: RowForm>(
    alloc: Global,
    at: u64,
    begun: &mut Vec<u8>,
    piece: &[u8],
    rows: &mut Vec<F::R>,
) -> Result<u64, End<StreamRefusal>>
    requires unfinished { IsUnfinished begun.old.items }
    requires few { at + length begun.old.items + length piece.now < 2 ^ 64 }
    requires none { rows.old.items ≡ [] }
    ensures reads { ReadsFrames F.IsRow F.R.value (λ here. here) (λ here. begun.new.items) at (begun.old.items ++ piece.now) [] rows.new.items result }
    ensures kept { OnErr result (take (length begun.old.items) begun.new.items ≡ begun.old.items) }
    ensures asked { IsErrOf result ends.NoMemory → begun.old.items ≡ [] → PieceAsks piece.now }
{
    if begun.is_empty() {
        return read_on::<F>(alloc, at, begun, piece, rows);
    }
    let rest = complete(begun, piece)?;
    read_rest::<F>(alloc, at, begun, rest, rows)
}

// The same where the frame that had begun is completed as far as the piece goes, and the rest of the piece is given.
fn read_rest<F: RowForm>(
    alloc: Global,
    at: u64,
    begun: &mut Vec<u8>,
    rest: &[u8],
    rows: &mut Vec<F::R>,
) -> Result<u64, End<StreamRefusal>>
    requires few { at + length begun.old.items + length rest.now < 2 ^ 64 }
    requires none { rows.old.items ≡ [] }
    ensures reads { (had piece : List ℕ) → IsCompleted had piece begun.old.items rest.now
        → ReadsFrames F.IsRow F.R.value (λ here. here) (λ here. begun.new.items) at (had ++ piece) [] rows.new.items result }
    ensures kept { OnErr result (begun.new.items ≡ begun.old.items) }
{
    match split_frame(begun) {
        Ok((body, _)) => {
            add_row::<F>(alloc, at, body, rows)?;
            let here = at + begun.len() as u64;
            read_on::<F>(alloc, here, begun, rest, rows)
        }
        Err(Unread::Part) => Ok(at),
        Err(Unread::Wrong) => Err(End::Refused(StreamRefusal::FrameTooLong { at })),
        Err(Unread::NoMemory) => Err(End::NoMemory),
    }
}

// Reads the frames in front of the bytes, of which the first has this offset, adds their rows, and puts what is left
// in place of what has begun. Memory is asked for only where the bytes ask as a piece.
fn read_on<F: RowForm>(
    alloc: Global,
    at: u64,
    begun: &mut Vec<u8>,
    bytes: &[u8],
    rows: &mut Vec<F::R>,
) -> Result<u64, End<StreamRefusal>>
    requires { at + length bytes.now < 2 ^ 64 }
    ensures reads { ReadsFrames F.IsRow F.R.value (λ here. here) (λ here. begun.new.items) at bytes.now rows.old.items rows.new.items result }
    ensures kept { OnErr result (begun.new.items ≡ begun.old.items) }
    ensures asked { IsErrOf result ends.NoMemory → PieceAsks bytes.now }
{
    rows.reserve(count_rows(bytes))?;
    let (here, left) = read_frames::<F>(alloc, at, bytes, rows)?;
    begin_with(begun, left)?;
    Ok(here)
}

// Reads the frames in front of the bytes, of which the first has this offset, where they stand. Adds their rows, and
// answers the offset behind them and the bytes that are left. Memory is asked for only where the bytes ask as a piece.
fn read_frames<'a, F: RowForm>(
    alloc: Global,
    at: u64,
    bytes: &'a [u8],
    rows: &mut Vec<F::R>,
) -> Result<(u64, &'a [u8]), End<StreamRefusal>>
    requires { at + length bytes.now < 2 ^ 64 }
    ensures reads { ReadsFrames F.IsRow F.R.value (λ x. x.0) (λ x. x.1.now) at bytes.now rows.old.items rows.new.items result }
    ensures asked { IsErrOf result ends.NoMemory → PieceAsks bytes.now }
{
    let mut here = at;
    let mut left = bytes;
    'frames: loop {
        match split_frame(left) {
            Ok((body, behind)) => {
                add_row::<F>(alloc, here, body, rows)?;
                here += (FIELD + body.len()) as u64;
                left = behind;
            }
            Err(Unread::Part) => return Ok((here, left)),
            Err(Unread::Wrong) => {
                return Err(End::Refused(StreamRefusal::FrameTooLong { at: here }));
            }
            Err(Unread::NoMemory) => return Err(End::NoMemory),
        }
    }
}

// How many whole frames stand in front of the bytes, up to the first that is too short for a row: none where the bytes,
// as a piece, ask for no memory.
fn count_rows(bytes: &[u8]) -> usize
    ensures few { result ≤ length bytes.now }
    ensures asked { 0 < result → PieceAsks bytes.now }
{
    let mut count = 0;
    let mut left = bytes;
    'frames: while let Ok((body, behind)) = split_frame(left) {
        if body.len() < LEAST_ENTRY {
            break;
        }
        count += 1;
        left = behind;
    }
    count
}

// Adds the row of the body of the frame at this offset. Memory is asked for where the body asks.
fn add_row<F: RowForm>(
    alloc: Global,
    at: u64,
    body: &[u8],
    rows: &mut Vec<F::R>,
) -> Result<(), End<StreamRefusal>>
    ensures reads { AddsRow F.IsRow F.R.value at body.now rows.old.items rows.new.items result }
    ensures asked { IsErrOf result ends.NoMemory → EntryAsks body.now }
{
    rows.push(read_row::<F>(alloc, at, body)?)?;
    Ok(())
}

// The row of the body of the frame at this offset. Memory is asked for where the body asks.
fn read_row<F: RowForm>(alloc: Global, at: u64, body: &[u8]) -> Result<F::R, End<StreamRefusal>>
    ensures reads { ReadsRow F.IsRow F.R.value at body.now result }
    ensures asked { IsErrOf result ends.NoMemory → EntryAsks body.now }
{
    match F::read(alloc, body)? {
        Some(row) => Ok(row),
        None => Err(End::Refused(StreamRefusal::BadFrame { at })),
    }
}
