//! How areas are spelled as bytes, and read back.

ghost use Rattle.std.specs.Prelude.{◌≡◌, ℕ, ◌++◌, List, OnOk, OnErr, IfOk, IsErrOf};
ghost use Rattle.std.specs.Int.{w64, to_be_bytes};
ghost use Rattle.spelling.specs.Form.{Decodes};
ghost use Rattle.spelling.specs.Reading.{Gives, NeedsNoMemory, option_at};
ghost use Rattle.spelling.specs.Spelling.{option_spelling};
ghost use Rattle.spelling.specs.declared.ending.End.TheVariants as ends;
ghost use Rattle.spelling.specs.declared.input.Unread.TheVariants as unread;
ghost use Rattle.willow_path.specs.Key.{key_at};
ghost use Rattle.willow_area.specs.Area.{IsArea};
ghost use Rattle.willow_area.specs.AreaSpelling.{AreaAsks, area_at, area_spelling};

use crate::area::Area;
use crate::times_codec::read_times;
use spelling::{End, Input, NoMemory, NotHere, Unread, put_byte, put_bytes, put_u64};
use std::alloc::Global;
use willow_path::{UserKey, read_path, read_user_key};

impl Area {
    /// Appends the area's spelling to `out`: a byte 00 for any subspace or a byte 01 and its key, the path,
    /// the start of eight bytes, and a byte 00 for no end or a byte 01 and the end of eight bytes. Numbers
    /// have their highest byte first. An error leaves `out` as it was.
    pub fn encode(&self, out: &mut Vec<u8>) -> Result<(), NoMemory>
        ensures spelled { OnOk result (out.new.items ≡ out.old.items ++ area_spelling self.now) }
        ensures err { OnErr result (out.new.items ≡ out.old.items) }
    {
        let text = spelled(*out.allocator(), self)?;
        put_bytes(out, &text)
    }

    /// The area that is spelled at the front of the bytes, with the number of bytes taken. It is not here
    /// exactly where no front of the bytes is the spelling of an area. Memory is asked for behind the path.
    pub fn decode(alloc: Global, bytes: &[u8]) -> Result<(Area, usize), End<NotHere>>
        ensures decodes { Decodes area_spelling IsArea bytes.now result }
        ensures asked { IsErrOf result ends.NoMemory → AreaAsks bytes.now }
    {
        let mut input = Input::new(bytes);
        let area = read_area(alloc, &mut input)?;
        Ok((area, input.taken_of(bytes)))
    }
}

/// Reads an area from the front of the input. It is wrong as soon as no area's spelling begins with the
/// bytes read. Memory is asked for behind the path.
#[tactic(auto, unfolding(crate::specs::AreaSpelling::area_at))]
pub fn read_area(alloc: Global, input: &mut Input) -> Result<Area, Unread>
    ensures gives { Gives (λ area. area) result input.new (area_at input.old) }
    ensures asked { IsErrOf result unread.NoMemory → AreaAsks input.old }
{
    let subspace = read_subspace(input)?;
    let path = read_path(alloc, input)?;
    let times = read_times(input)?;
    Ok(Area {
        subspace,
        path,
        times,
    })
}

// Reads any subspace, or one.
#[tactic(auto, unfolding(spelling::specs::Reading::option_at, spelling::specs::Reading::behind_flag))]
fn read_subspace(input: &mut Input) -> Result<Option<UserKey>, Unread>
    ensures read { Gives (λ subspace. subspace) result input.new (option_at key_at input.old) }
    ensures sure { NeedsNoMemory result }
{
    match input.byte()? {
        0 => Ok(None),
        1 => Ok(Some(read_user_key(input)?)),
        _ => Err(Unread::Wrong),
    }
}

// The area's spelling.
fn spelled(alloc: Global, area: &Area) -> Result<Vec<u8>, NoMemory>
    ensures { IfOk result (λ text. text.items ≡ area_spelling area.now) }
{
    let mut text = Vec::new(alloc);
    put_subspace(&mut text, &area.subspace)?;
    area.path.encode(&mut text)?;
    put_u64(&mut text, area.times.start())?;
    put_end(&mut text, area.times.end())?;
    Ok(text)
}

// Appends a byte 00 for any subspace, or a byte 01 and the key.
fn put_subspace(out: &mut Vec<u8>, subspace: &Option<UserKey>) -> Result<(), NoMemory>
    ensures { OnOk result (out.new.items ≡ out.old.items ++ option_spelling (λ (key : List ℕ). key) subspace.now) }
{
    match subspace {
        None => put_byte(out, 0),
        Some(key) => {
            put_byte(out, 1)?;
            put_bytes(out, &key.to_bytes())
        }
    }
}

// Appends a byte 00 for no end, or a byte 01 and the end.
fn put_end(out: &mut Vec<u8>, end: Option<u64>) -> Result<(), NoMemory>
    ensures { OnOk result (out.new.items ≡ out.old.items ++ option_spelling (to_be_bytes w64) end) }
{
    match end {
        None => put_byte(out, 0),
        Some(end) => {
            put_byte(out, 1)?;
            put_u64(out, end)
        }
    }
}
