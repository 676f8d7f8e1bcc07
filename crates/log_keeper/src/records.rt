//! Reading the records of a log.

ghost use Rattle.std.specs.Prelude.{◌≡◌, ◌+◌, ◌<◌, ◌^◌, [], ◌++◌, length, map, IfOk, IfSome, IfNone, IsErrOf};
ghost use Rattle.spelling.specs.declared.ending.End.TheVariants as ends;
ghost use Rattle.log_keeper.specs.Readings.{SplitsOff, TellsGate, ReadsRowFrames, AppendsRowFrames, AreRecords, RecordsGoWrong, ReadsRecords};

use crate::header::OPEN;
use row_stream::RowStream;
use row_stream::laws::one_reading;
use spelling::{End, Input, NoMemory};
use std::alloc::Global;
use willow_entry::RowForm;

// How many bytes a record has besides its frames: its gate and its length.
const AROUND: usize = 5;

/// Where a gate is due the file ends, or an open one stands before what is too short for its length.
pub(crate) struct CutShort;

// The first so many bytes, and those behind them; None where there are not so many.
fn split_sized(bytes: &[u8], size: u32) -> Option<(&[u8], &[u8])>
    ensures parts { IfSome result (λ x. bytes.now ≡ x.0.now ++ x.1.now) }
    ensures size { IfSome result (λ x. length x.0.now ≡ size) }
    ensures within { size < 2 ^ 32 }
    ensures none { IfNone result (length bytes.now < size) }
{
    if bytes.len() < size as usize {
        return None;
    }
    Some(bytes.split_at(size as usize))
}

// The bytes whose length stands in front, and those behind them.
fn split_record(bytes: &[u8]) -> Option<(&[u8], &[u8])>
    ensures { SplitsOff (λ x. x.0.now) (λ x. x.1.now) bytes.now result }
{
    let mut input = Input::new(bytes);
    match input.number_u32() {
        Ok(size) => split_sized(input.front(), size),
        Err(_) => None,
    }
}

/// What stands where a gate is due: the bytes of a record behind an open gate, and those behind it; or a closed gate.
pub(crate) fn record_at(left: &[u8]) -> Result<Option<(&[u8], &[u8])>, CutShort>
    ensures { TellsGate (λ x. x.0.now) (λ x. x.1.now) left.now result }
{
    let (gate, after) = match left {
        [] => return Err(CutShort),
        [gate, after @ ..] => (*gate, after),
    };
    if gate != OPEN {
        return Ok(None);
    }
    match split_record(after) {
        Some(record) => Ok(Some(record)),
        None => Err(CutShort),
    }
}

// The rows whose frames the bytes are.
fn read_frames<F: RowForm>(alloc: Global, bytes: &[u8]) -> Result<Option<Vec<F::R>>, NoMemory>
    requires { length bytes.now < 2 ^ 63 }
    ensures { IfOk result (ReadsRowFrames F.IsRow F.R.value bytes.now) }
{
    one_reading::<F>();
    let mut stream = RowStream::<F>::new(alloc);
    match stream.feed(bytes) {
        Ok(rows) => match stream.finish() {
            Ok(()) => Ok(Some(rows)),
            Err(_) => Ok(None),
        },
        Err(End::Refused(_)) => Ok(None),
        Err(End::NoMemory) => Err(NoMemory),
    }
}

// Appends the rows whose frames the bytes are, and tells whether they are some rows'.
fn append_frames<F: RowForm>(
    alloc: Global,
    bytes: &[u8],
    rows: &mut Vec<F::R>,
) -> Result<bool, NoMemory>
    requires { length bytes.now < 2 ^ 63 }
    ensures { IfOk result (AppendsRowFrames F.IsRow F.R.value bytes.now rows.old.items rows.new.items) }
{
    match read_frames::<F>(alloc, bytes)? {
        Some(mut more) => {
            rows.append(&mut more)?;
            Ok(true)
        }
        None => Ok(false),
    }
}

// Puts the rows of the open records in front of the bytes, of which the first has this place, where none are yet, and answers
// the place of the closed gate.
fn append_records<F: RowForm>(
    alloc: Global,
    from: u64,
    bytes: &[u8],
    rows: &mut Vec<F::R>,
) -> Result<u64, End<u64>>
    requires room { from + length bytes.now < 2 ^ 63 }
    requires no_rows { rows.old.items ≡ [] }
    ensures read { IfOk result (AreRecords F.IsRow from bytes.now (map F.R.value rows.new.items)) }
    ensures wrong { (at : _) → IsErrOf result (ends.Refused at) → RecordsGoWrong F.IsRow from bytes.now at }
{
    let mut at = from;
    let mut left = bytes;
    'records: loop {
        let (frames, behind) = match record_at(left) {
            Ok(Some(record)) => record,
            Ok(None) => return Ok(at),
            Err(CutShort) => return Err(End::Refused(at)),
        };
        if !append_frames::<F>(alloc, frames, rows)? {
            return Err(End::Refused(at));
        }
        at += (AROUND + frames.len()) as u64;
        left = behind;
    }
}

/// The rows of the open records in front of the bytes, of which the first has this place, and the place of the closed gate.
pub(crate) fn read_records<F: RowForm>(
    alloc: Global,
    from: u64,
    bytes: &[u8],
) -> Result<(Vec<F::R>, u64), End<u64>>
    requires { from + length bytes.now < 2 ^ 63 }
    ensures { ReadsRecords F.IsRow F.R.value from bytes.now result }
{
    let mut rows = Vec::new(alloc);
    let end = append_records::<F>(alloc, from, bytes, &mut rows)?;
    Ok((rows, end))
}
