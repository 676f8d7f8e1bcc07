//! Rows that tell their capability by a number, and capabilities that are told once, both in frames.

ghost use Rattle.std.specs.Prelude.{◌≡◌, IfOk, IsErrOf};
ghost use Rattle.spelling.specs.Form.{Decodes};
ghost use Rattle.spelling.specs.Reading.{Gives};
ghost use Rattle.spelling.specs.declared.ending.End.TheVariants as ends;
ghost use Rattle.spelling.specs.declared.input.Unread.TheVariants as unread;
ghost use Rattle.willow_entry.specs.EntryForm.{EntryAsks};
ghost use Rattle.willow_entry.specs.Frame.{FrameAsks};
ghost use Rattle.mc_cap.specs.Forms.{capability_spelling, IsCapability};
ghost use Rattle.cap_codec.specs.Framed.{ReadsAll};
ghost use Rattle.cap_codec.specs.Memory.{CapabilityAsks};
ghost use Rattle.cap_codec.specs.Numbered.{CapabilityFrameAsks, FitsCapability, FitsNumbered, IsNumberedRow, capability_frame, numbered_at, numbered_frame, numbered_spelling, row_with};

use crate::capability::{read_capability, read_signature};
use crate::frame::read_body;
use crate::row::RawRow;
use crate::token::WriteToken;
use mc_cap::{Capability, Signature};
use spelling::{End, Input, NoMemory, NotHere, Unread};
use std::alloc::Global;
use willow_entry::{Entry, read_entry};

/// A row that tells its capability by a number. Contracts see the fields.
#[derive(Drop)]
pub struct NumberedRow {
    /// The entry.
    pub entry: Entry,
    /// The number of the capability, counted from 0.
    pub number: u32,
    /// The signature of the entry.
    pub signature: Signature,
}

impl NumberedRow {
    /// The row with this capability, whose spelling is given, in the place of the number.
    #[tactic(auto, using(crate::proofs::NumberedReads::row_is))]
    pub fn with_capability(
        self,
        alloc: Global,
        capability: &Capability,
        spelled: &[u8],
    ) -> Result<RawRow, NoMemory>
        requires { spelled.now ≡ capability_spelling capability.now }
        ensures { IfOk result (λ row. row ≡ row_with capability.now self) }
    {
        let token = WriteToken {
            capability: capability.copy()?,
            signature: self.signature,
        };
        RawRow::with_spelled(alloc, self.entry, token, spelled)
    }
}

// A row from the front of the input. Memory is asked for behind the path of the entry.
#[tactic(auto, unfolding(crate::specs::Numbered::numbered_at), using(willow_entry::proofs::EntryReads::whole_asks))]
fn read_numbered(alloc: Global, input: &mut Input) -> Result<NumberedRow, Unread>
    ensures gives { Gives (λ row. row) result input.new (numbered_at input.old) }
    ensures asked { IsErrOf result unread.NoMemory → EntryAsks input.old }
{
    Ok(NumberedRow {
        entry: read_entry(alloc, input)?,
        number: input.number_u32()?,
        signature: read_signature(alloc, input)?,
    })
}

// The row that the whole body spells.
fn decode_numbered(alloc: Global, body: &[u8]) -> Result<NumberedRow, End<NotHere>>
    ensures reads { ReadsAll numbered_spelling IsNumberedRow body.now result }
    ensures asked { IsErrOf result ends.NoMemory → EntryAsks body.now }
{
    let mut input = Input::new(body);
    let row = read_numbered(alloc, &mut input)?;
    if input.len() > 0 {
        return Err(End::Refused(NotHere));
    }
    Ok(row)
}

/// The row in the frame at the front of the bytes, with the number of bytes taken: four bytes for the length of the body,
/// at most `MAX_FRAME`, and the body, which is an entry, the number of a capability in four bytes, a signature field and
/// nothing else. It is not here exactly where no front of the bytes is such a frame. Memory is asked for where the body is
/// whole, behind the path of its entry.
pub fn decode_numbered_frame(
    alloc: Global,
    bytes: &[u8],
) -> Result<(NumberedRow, usize), End<NotHere>>
    ensures decodes { Decodes numbered_frame FitsNumbered bytes.now result }
    ensures asked { IsErrOf result ends.NoMemory → FrameAsks bytes.now }
{
    let mut input = Input::new(bytes);
    let body = read_body(&mut input)?;
    let row = decode_numbered(alloc, body)?;
    Ok((row, input.taken_of(bytes)))
}

// The capability that all of the bytes spell.
fn decode_all(alloc: Global, spelled: &[u8]) -> Result<Capability, End<NotHere>>
    ensures reads { ReadsAll capability_spelling IsCapability spelled.now result }
    ensures asked { IsErrOf result ends.NoMemory → CapabilityAsks spelled.now }
{
    let mut input = Input::new(spelled);
    let capability = read_capability(alloc, &mut input)?;
    if input.len() > 0 {
        return Err(End::Refused(NotHere));
    }
    Ok(capability)
}

/// The capability in the frame at the front of the bytes, with the number of bytes taken: four bytes for the length of its
/// spelling, at most `MAX_FRAME`, and the spelling. It is not here exactly where no front of the bytes is such a frame.
/// Memory is asked for where the spelling is whole and a capability asks.
pub fn decode_capability_frame(
    alloc: Global,
    bytes: &[u8],
) -> Result<(Capability, usize), End<NotHere>>
    ensures decodes { Decodes capability_frame FitsCapability bytes.now result }
    ensures asked { IsErrOf result ends.NoMemory → CapabilityFrameAsks bytes.now }
{
    let mut input = Input::new(bytes);
    let spelled = read_body(&mut input)?;
    let capability = decode_all(alloc, spelled)?;
    Ok((capability, input.taken_of(bytes)))
}
