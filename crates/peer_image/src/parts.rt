//! Images as they are read a part at a time.

ghost use Rattle.std.specs.Prelude.{IfOk, MatchOption, OnErr};
ghost use Rattle.spelling.specs.Reading.{Gives, NeedsNoMemory};
ghost use Rattle.willow_entry.specs.Frame.{FrameAsks};
ghost use Rattle.peer_image.specs.ImageOneReading.{header_at, HasNoHeader};
ghost use Rattle.peer_image.specs.Parts.{IsHead, IsPart};

use cap_codec::{RawRow, behind, decode_frame};
use spelling::{End, Input, NoMemory, NotHere, Unread};
use std::alloc::Global;
use willow_path::{NamespaceKey, read_namespace_key};

/// The namespace key behind the text WIM1, and the bytes behind the key; None where these two do not stand in front.
pub fn image_head(bytes: &[u8]) -> Option<(NamespaceKey, &[u8])>
    ensures { MatchOption result (HasNoHeader bytes.now) (λ head. IsHead bytes.now head.0 head.1.now) }
{
    let mut input = Input::new(bytes);
    match read_header(&mut input) {
        Ok(namespace) => Some((namespace, input.front())),
        Err(_) => None,
    }
}

// The text WIM1, and the key behind it.
#[tactic(auto, unfolding(crate::specs::ImageOneReading::header_at))]
fn read_header(input: &mut Input) -> Result<NamespaceKey, Unread>
    ensures gives { Gives (λ key. key) result input.new (header_at input.old) }
    ensures sure { NeedsNoMemory result }
{
    input.exactly(b"WIM1")?;
    read_namespace_key(input)
}

/// The rows of the first frames in front of the bytes, at most so many, and the bytes behind these frames. Memory is
/// asked for where the first frame asks.
pub fn rows_in_front(
    alloc: Global,
    bytes: &[u8],
    most: usize,
) -> Result<(Vec<RawRow>, &[u8]), NoMemory>
    ensures reads { IfOk result (λ read. IsPart bytes.now most read.0.items read.1.now) }
    ensures asked { OnErr result (FrameAsks bytes.now) }
{
    let mut rows = Vec::new(alloc);
    let mut left = bytes;
    'frames: while rows.len() < most {
        let (row, taken) = match decode_frame(alloc, left) {
            Ok(read) => read,
            Err(End::Refused(NotHere)) => return Ok((rows, left)),
            Err(End::NoMemory) => return Err(NoMemory),
        };
        rows.push(row)?;
        left = behind(left, taken);
    }
    Ok((rows, left))
}
