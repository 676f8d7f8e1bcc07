//! The frame in front of bytes.

ghost use Rattle.row_stream.specs.Steps.{Splits, TellsSize};

use spelling::{Input, Unread};
use willow_entry::MAX_FRAME;

/// How many bytes a length field has.
pub(crate) const FIELD: usize = 4;

// The body of the frame in front of the bytes, and the bytes behind the frame. A part is nothing or a frame that is
// not whole; wrong is a length that is there and above `MAX_FRAME`. What the body is, is not judged.
pub(crate) fn split_frame(bytes: &[u8]) -> Result<(&[u8], &[u8]), Unread>
    ensures { Splits (λ x. x.0.now) (λ x. x.1.now) bytes.now result }
{
    let mut input = Input::new(bytes);
    let size = input.number_u32()? as usize;
    if size > MAX_FRAME {
        return Err(Unread::Wrong);
    }
    let body = input.slice(size)?;
    Ok((body, input.front()))
}

// How many bytes the frame in front has, its length field included; None where the field is not there or is above
// `MAX_FRAME`.
#[tactic(auto, unfolding(crate::specs::Places::length_told))]
pub(crate) fn frame_size(bytes: &[u8]) -> Option<usize>
    ensures { TellsSize bytes.now result }
{
    let mut input = Input::new(bytes);
    let size = input.number_u32().ok()? as usize;
    if size > MAX_FRAME {
        return None;
    }
    Some(FIELD + size)
}
