//! The bytes of a record.

ghost use Rattle.std.specs.Int.{w32, to_be_bytes};
ghost use Rattle.std.specs.Prelude.{◌≡◌, ◌<◌, ◌≤◌, ◌^◌, [], ◌∷◌, ◌++◌, length, IfOk, OnOk};
ghost use Rattle.spelling.specs.Spelling.{text_spelling};
ghost use Rattle.row_stream.specs.Streams.{frames_of};
ghost use Rattle.log_keeper.specs.LogFile.{last_record};
ghost use Rattle.log_keeper.specs.Slices.{logged_rows, AreFramed};

use crate::header::OPEN;
use spelling::{NoMemory, put_byte, put_bytes, put_u32};
use std::alloc::Global;
use willow_entry::{LogRow, Row, encode_row_frame};

// How many bytes there are besides the frames: two gates and the length.
const AROUND: usize = 6;

// The frames of the rows, one after the other.
fn frames<R: Row>(alloc: Global, slice: &[LogRow<R>]) -> Result<Vec<u8>, NoMemory>
    requires { AreFramed (logged_rows R.value slice.now) }
    ensures { IfOk result (λ v. v.items ≡ frames_of (logged_rows R.value slice.now)) }
{
    let mut out = Vec::new(alloc);
    let mut left = slice;
    while let [logged, others @ ..] = left {
        encode_row_frame(&logged.row, &mut out)?;
        left = others;
    }
    Ok(out)
}

// Appends the record of these frames: an open gate, their length, the frames, and a closed gate behind them. Without memory
// a front of it was appended.
fn put_record(frames: &[u8], out: &mut Vec<u8>) -> Result<(), NoMemory>
    requires { length frames.now < 2 ^ 32 }
    ensures { OnOk result (out.new.items ≡ out.old.items ++ ((1 ∷ text_spelling (to_be_bytes w32) frames.now) ++ 0 ∷ [])) }
{
    put_byte(out, OPEN)?;
    put_u32(out, frames.len() as u32)?;
    put_bytes(out, frames)?;
    put_byte(out, 0)
}

/// The bytes of a record of these rows: an open gate, the length and the frames, and a closed gate behind them.
pub(crate) fn record_of<R: Row>(alloc: Global, slice: &[LogRow<R>]) -> Result<Vec<u8>, NoMemory>
    requires framed { AreFramed (logged_rows R.value slice.now) }
    requires few { length slice.now ≤ 256 }
    ensures spelled { IfOk result (λ v. v.items ≡ last_record (logged_rows R.value slice.now)) }
{
    let frames = frames(alloc, slice)?;
    let mut out = Vec::with_capacity(alloc, frames.len().saturating_add(AROUND))?;
    put_record(&frames, &mut out)?;
    Ok(out)
}
