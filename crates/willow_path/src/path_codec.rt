//! How paths are spelled as bytes, and read back.

ghost use Rattle.std.specs.Prelude.{◌≡◌, ℕ, ◌≤◌, ◌++◌, List, length, min, OnOk, OnErr, IfOk, IsErrOf};
ghost use Rattle.spelling.specs.Form.{Decodes};
ghost use Rattle.spelling.specs.Memory.{IsWhole};
ghost use Rattle.spelling.specs.Reading.{Gives, NeedsNoMemory};
ghost use Rattle.spelling.specs.declared.ending.End.TheVariants as ends;
ghost use Rattle.spelling.specs.declared.input.Unread.TheVariants as unread;
ghost use Rattle.willow_path.specs.Path.{IsPath};
ghost use Rattle.willow_path.specs.PathSpelling.{part_at, part_spelling, parts_at, path_at, path_spelling};

use crate::limits::{MAX_PART, MAX_PARTS, MAX_TOTAL};
use crate::path::Path;
use spelling::{End, Input, NoMemory, NotHere, Unread};
use std::alloc::Global;

impl Path {
    /// Appends the path's spelling to `out`: a byte for the number of components, and for each a byte for
    /// its length and its bytes. An error leaves `out` as it was.
    pub fn encode(&self, out: &mut Vec<u8>) -> Result<(), NoMemory>
        ensures spelled { OnOk result (out.new.items ≡ out.old.items ++ path_spelling self.now) }
        ensures err { OnErr result (out.new.items ≡ out.old.items) }
    {
        let bytes = self.bytes();
        out.reserve(1 + bytes.len())?;
        out.push_reserved(self.count() as u8);
        out.extend_from_slice(bytes)?;
        Ok(())
    }

    /// The path that is spelled at the front of the bytes, with the number of bytes taken. It is not here
    /// exactly where no front of the bytes is the spelling of a path within the limits. Memory is asked for where one is.
    pub fn decode(alloc: Global, bytes: &[u8]) -> Result<(Path, usize), End<NotHere>>
        ensures decodes { Decodes path_spelling IsPath bytes.now result }
        ensures asked { IsErrOf result ends.NoMemory → IsWhole (path_at bytes.now) }
    {
        let mut input = Input::new(bytes);
        let path = read_path(alloc, &mut input)?;
        Ok((path, bytes.len().saturating_sub(input.len())))
    }
}

/// Reads a path from the front of the input. It is wrong as soon as the bytes read exceed a limit. Memory is asked for
/// where a path stands there.
#[tactic(auto, unfolding(crate::specs::PathSpelling::path_at))]
pub fn read_path(alloc: Global, input: &mut Input) -> Result<Path, Unread>
    ensures gives { Gives (λ path. path) result input.new (path_at input.old) }
    ensures asked { IsErrOf result unread.NoMemory → IsWhole (path_at input.old) }
{
    let count = usize::from(input.byte_up_to(MAX_PARTS as u8)?);
    read_parts(alloc, input, count)
}

// Reads so many components. They stand in the path as they are spelled.
fn read_parts(alloc: Global, input: &mut Input, count: usize) -> Result<Path, Unread>
    requires { count ≤ MAX_PARTS }
    ensures gives { Gives (λ path. path) result input.new (parts_at MAX_TOTAL count input.old) }
    ensures asked { IsErrOf result unread.NoMemory → IsWhole (parts_at MAX_TOTAL count input.old) }
{
    let whole = input.front();
    let mut room = MAX_TOTAL;
    for i in 0..count {
        room -= read_part(input, room)?.len();
    }
    let taken = input.taken_of(whole);
    Ok(Path::from_bytes(alloc, &whole[..taken])?)
}

// Reads a component of a path that has room for so many bytes.
#[tactic(auto, unfolding(crate::specs::PathSpelling::part_at, spelling::specs::Reading::text_at))]
fn read_part<'a>(input: &mut Input<'a>, room: usize) -> Result<&'a [u8], Unread>
    ensures read { Gives (λ part. part.now) result input.new (part_at room input.old) }
    ensures short { IfOk result (λ part. length part.now ≤ min MAX_PART room) }
    ensures sure { NeedsNoMemory result }
{
    let limit = MAX_PART.min(room) as u8;
    let len = usize::from(input.byte_up_to(limit)?);
    input.slice(len)
}
