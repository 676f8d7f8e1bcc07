//! Rows in frames, one after the other.

ghost use Rattle.std.specs.Prelude.{◌≡◌, ◌≤◌, length, drop, IfOk, IsErrOf, OnErr};
ghost use Rattle.std.specs.Int.{w32};
ghost use Rattle.spelling.specs.Form.{Decodes};
ghost use Rattle.spelling.specs.Reading.{Gives, NeedsNoMemory, number_up_to, text_at};
ghost use Rattle.spelling.specs.declared.ending.End.TheVariants as ends;
ghost use Rattle.willow_entry.specs.Frame.{FrameAsks};
ghost use Rattle.cap_codec.specs.Rows.{frame, FitsFrame};
ghost use Rattle.cap_codec.specs.Streams.{AreAllFrames, ReadsFrames};

use crate::row::RawRow;
use spelling::{End, Input, NoMemory, NotHere, Unread};
use std::alloc::Global;
use willow_entry::MAX_FRAME;

/// Where bytes are no stream of frames.
#[derive(Clone, Copy, Debug, PartialEq, Eq)]
pub struct BadFrames {
    /// How many bytes stand in front of the length field of the first frame that is none.
    pub at: usize,
}

/// The row in the frame at the front of the bytes, with the number of bytes taken: four bytes for the
/// length of the body, from 1 to `MAX_FRAME`, and the body, which is one row and nothing else. It is not
/// here exactly where no front of the bytes is the frame of a row. Memory is asked for where the body is whole, behind
/// the path of its entry.
pub fn decode_frame(alloc: Global, bytes: &[u8]) -> Result<(RawRow, usize), End<NotHere>>
    ensures decodes { Decodes frame FitsFrame bytes.now result }
    ensures asked { IsErrOf result ends.NoMemory → FrameAsks bytes.now }
{
    let mut input = Input::new(bytes);
    let body = read_body(&mut input)?;
    let row = RawRow::decode(alloc, body)?;
    Ok((row, input.taken_of(bytes)))
}

// The length of a frame's body, and the body.
#[tactic(auto, unfolding(spelling::specs::Reading::text_at))]
pub(crate) fn read_body<'a>(input: &mut Input<'a>) -> Result<&'a [u8], Unread>
    ensures gives { Gives (λ body. body.now) result input.new (text_at (number_up_to w32 MAX_FRAME) input.old) }
    ensures sure { NeedsNoMemory result }
{
    let len = input.number_u32_up_to(MAX_FRAME as u32)? as usize;
    input.slice(len)
}

/// The rows whose frames the bytes are, one after the other and nothing else. Otherwise the first frame that is
/// none is told: its length is 0 or above `MAX_FRAME`, its body is no row, or the bytes end inside it. Memory is asked for
/// where the first frame asks.
pub fn read_frames(alloc: Global, bytes: &[u8]) -> Result<Vec<RawRow>, End<BadFrames>>
    ensures reads { ReadsFrames (λ rows. rows.items) bytes.now result }
    ensures asked { IsErrOf result ends.NoMemory → FrameAsks bytes.now }
{
    let (rows, left) = frames_in_front(alloc, bytes)?;
    if left.len() > 0 {
        let at = bytes.len() - left.len();
        return Err(End::Refused(BadFrames { at }));
    }
    Ok(rows)
}

/// The rows of all frames in front of the bytes, and the bytes behind these frames.
pub fn frames_in_front(alloc: Global, bytes: &[u8]) -> Result<(Vec<RawRow>, &[u8]), NoMemory>
    ensures reads { IfOk result (λ read. AreAllFrames bytes.now read.0.items read.1.now) }
    ensures asked { OnErr result (FrameAsks bytes.now) }
{
    let mut rows = Vec::new(alloc);
    let mut left = bytes;
    'frames: while left.len() > 0 {
        let (row, taken) = match decode_frame(alloc, left) {
            Ok(read) => read,
            Err(End::Refused(NotHere)) => return Ok((rows, left)),
            Err(End::NoMemory) => return Err(NoMemory),
        };
        rows.push(row)?;
        left = behind(left, taken);
    }
    Ok((rows, left))
}

/// The bytes behind the first ones, of which there are at least so many.
pub fn behind(bytes: &[u8], taken: usize) -> &[u8]
    requires { taken ≤ length bytes.now }
    ensures { result.now ≡ drop taken bytes.now }
{
    &bytes[taken..]
}
