//! Write tokens: by whose leave an entry was written, and the signature of the entry.

ghost use Rattle.std.specs.Prelude.{◌≡◌, ◌++◌, length, take, vec_len, IfOk, IsErrOf, OnErr, OnOk};
ghost use Rattle.mc_cap.specs.Forms.{capability_spelling};
ghost use Rattle.mc_cap.specs.Signature.{signature_spelling};
ghost use Rattle.spelling.specs.Reading.{Gives};
ghost use Rattle.spelling.specs.declared.input.Unread.TheVariants as unread;
ghost use Rattle.cap_codec.specs.Memory.{TokenAsks};
ghost use Rattle.cap_codec.specs.Reading.{token_at};
ghost use Rattle.cap_codec.specs.Rows.{token_spelling, IsToken};

use crate::capability::{read_capability, read_signature};
use mc_cap::{Capability, Signature};
use spelling::{Input, NoMemory, Unread, put_bytes, put_u16};
use std::alloc::Global;

/// The authorisation of an entry (Meadowcap): a capability, and the signature of its receiver.
#[derive(Drop)]
pub struct WriteToken {
    /// By whose leave the entry was written.
    pub capability: Capability,
    /// The signature of the entry.
    pub signature: Signature,
}

impl WriteToken {
    /// Appends the token's spelling to `out`: the capability, and the signature with its length in two
    /// bytes before it. Without memory `out` stays as it was.
    pub fn encode(&self, out: &mut Vec<u8>) -> Result<(), NoMemory>
        ensures spelled { OnOk result (out.new.items ≡ out.old.items ++ token_spelling self.now) }
        ensures err { OnErr result (out.new.items ≡ out.old.items) }
        ensures fits { IsToken self.now }
    {
        self.known();
        let begun = out.len();
        match self.spell(out) {
            Ok(()) => Ok(()),
            Err(NoMemory) => {
                out.truncate(begun);
                Err(NoMemory)
            }
        }
    }

    // Appends the spelling, or without memory a part of it.
    fn spell(&self, out: &mut Vec<u8>) -> Result<(), NoMemory>
        ensures spelled { OnOk result (out.new.items ≡ out.old.items ++ token_spelling self.now) }
        ensures kept { take (vec_len out.old) out.new.items ≡ out.old.items }
    {
        self.capability.encode(out)?;
        put_signature(&self.signature, out)
    }

    /// Does nothing: it is called for its clause, that each field is within its limits.
    pub fn known(&self)
        ensures { IsToken self.now }
    {
        self.capability.known();
        let _signature = self.signature.as_slice();
    }

    /// An equal token.
    pub fn copy(&self) -> Result<WriteToken, NoMemory>
        ensures { IfOk result (λ token. token ≡ self.now) }
    {
        Ok(WriteToken {
            capability: self.capability.copy()?,
            signature: self.signature.copy()?,
        })
    }
}

// Appends a signature's length in two bytes and its bytes, or without memory a part of them.
pub(crate) fn put_signature(signature: &Signature, out: &mut Vec<u8>) -> Result<(), NoMemory>
    ensures spelled { OnOk result (out.new.items ≡ out.old.items ++ signature_spelling signature.now) }
    ensures kept { take (vec_len out.old) out.new.items ≡ out.old.items }
{
    let bytes = signature.as_slice();
    put_u16(out, bytes.len() as u16)?;
    put_bytes(out, bytes)
}

/// Reads a write token from the front of the input. It is wrong as soon as no token begins so. Memory is asked for where
/// its capability asks, or else with its signature.
pub fn read_token(alloc: Global, input: &mut Input) -> Result<WriteToken, Unread>
    ensures gives { Gives (λ token. token) result input.new (token_at input.old) }
    ensures asked { IsErrOf result unread.NoMemory → TokenAsks input.old }
{
    let bytes = input.front();
    let (token, _capability_len) = read_measured(alloc, bytes, input)?;
    Ok(token)
}

// Reads a token from the bytes that are left, and tells how many of them are its capability's.
#[tactic(auto, unfolding(crate::specs::Reading::token_at))]
pub(crate) fn read_measured(
    alloc: Global,
    bytes: &[u8],
    input: &mut Input,
) -> Result<(WriteToken, usize), Unread>
    requires { bytes.now ≡ input.old }
    ensures gives { Gives (λ read. read.0) result input.new (token_at input.old) }
    ensures asked { IsErrOf result unread.NoMemory → TokenAsks input.old }
    ensures measured { IfOk result (λ read. read.1 ≡ length (capability_spelling read.0.capability)) }
{
    let capability = read_capability(alloc, input)?;
    let capability_len = input.taken_of(bytes);
    let signature = read_signature(alloc, input)?;
    let token = WriteToken {
        capability,
        signature,
    };
    Ok((token, capability_len))
}
