//! The frame that the end of a piece has cut.

ghost use Rattle.std.specs.Prelude.{◌≡◌, length, take, IfOk, OnErr, OnOk};
ghost use Rattle.row_stream.specs.Places.{IsUnfinished};
ghost use Rattle.row_stream.specs.Steps.{IsCompleted, IsFilled};

use crate::frame::{FIELD, frame_size};
use spelling::NoMemory;

// Completes the frame that has begun by the front of the piece, as far as that goes, and answers the rest of the piece.
// Without memory what has begun still begins as it was.
pub(crate) fn complete<'a>(begun: &mut Vec<u8>, piece: &'a [u8]) -> Result<&'a [u8], NoMemory>
    requires { IsUnfinished begun.old.items }
    ensures completes { IfOk result (λ rest. IsCompleted begun.old.items piece.now begun.new.items rest.now) }
    ensures kept { take (length begun.old.items) begun.new.items ≡ begun.old.items }
{
    let rest = fill(begun, FIELD, piece)?;
    match frame_size(begun) {
        Some(size) => fill(begun, size, rest),
        None => Ok(rest),
    }
}

// Puts bytes from the front of the piece behind those that have begun, until there are so many, and answers the rest
// of the piece.
fn fill<'a>(begun: &mut Vec<u8>, upto: usize, piece: &'a [u8]) -> Result<&'a [u8], NoMemory>
    ensures fills { IfOk result (λ rest. IsFilled begun.old.items upto piece.now begun.new.items rest.now) }
    ensures kept { take (length begun.old.items) begun.new.items ≡ begun.old.items }
{
    let due = upto.saturating_sub(begun.len());
    begun.reserve(due)?;
    let (front, rest) = piece.split_at(due.min(piece.len()));
    begun.extend_from_slice(front)?;
    Ok(rest)
}

// Puts the bytes in place of what has begun, in the same memory where they find room. Without memory what has begun stays
// as it was.
pub(crate) fn begin_with(begun: &mut Vec<u8>, bytes: &[u8]) -> Result<(), NoMemory>
    ensures begins { OnOk result (begun.new.items ≡ bytes.now) }
    ensures err { OnErr result (begun.new.items ≡ begun.old.items) }
{
    begun.reserve(bytes.len().saturating_sub(begun.len()))?;
    begun.clear();
    begun.extend_from_slice(bytes)?;
    Ok(())
}
