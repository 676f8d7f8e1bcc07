//! The frames of the generator's rows, without the rows.

ghost use Rattle.std.specs.Prelude.{◌≡◌, ◌≤◌, ◌++◌, length, drop, map, OnOk};
ghost use Rattle.std.specs.Int.{w32, to_be_bytes};
ghost use Rattle.spelling.specs.Spelling.{text_spelling};
ghost use Rattle.mc_cap.specs.Signature.{signature_spelling};
ghost use Rattle.peer_listing.specs.Ranges.{entries_between, frames_between};
ghost use Rattle.peer_listing.specs.Signing.{own_signature, signed_bytes};

use crate::generator::GENERATED_ROWS;
use crate::signing::{digests, entries_between, messages, signed_bytes};
use crate::writers::Generator;
use sha_lanes::Message;
use spelling::{NoMemory, put_bytes, put_u16, put_u32};
use std::alloc::Global;
use willow_entry::MAX_FRAME;

// So many bytes stand in front of an entry where it is signed: a key, and the letter of an entry's message.
const BEFORE_ENTRY: usize = 34;

impl Generator {
    /// Appends the frames of the generator's rows from one to before another to `out`, in order: of each the length of its
    /// body in four bytes, the highest first, and the body, as `generated_row` has it. The last is at most
    /// `GENERATED_ROWS`. The rows are signed together, four at a time, so several dozen by one call serve best. Without
    /// memory some of it may stand there.
    pub fn put_frames(
        &self,
        alloc: Global,
        from: u32,
        to: u32,
        out: &mut Vec<u8>,
    ) -> Result<(), NoMemory>
        requires order { from ≤ to }
        requires within { to ≤ GENERATED_ROWS }
        ensures { OnOk result (out.new.items ≡ out.old.items ++ frames_between from to) }
    {
        let entries = entries_between(alloc, from, to)?;
        let bytes = signed_bytes(alloc, &entries)?;
        let messages = messages(alloc, &entries, &bytes)?;
        let signatures = digests(alloc, &messages)?;
        self.put_each(from, to, &messages, &signatures, out)
    }

    // Appends the frames of the rows from one to before another, of which this was signed, and these are the signatures.
    fn put_each(
        &self,
        from: u32,
        to: u32,
        messages: &[Message<'_>],
        signatures: &[[u8; 32]],
        out: &mut Vec<u8>,
    ) -> Result<(), NoMemory>
        requires order { from ≤ to }
        requires messages { map (λ m. m.rest.now) messages.now ≡ map signed_bytes (entries_between from to) }
        requires signatures { signatures.now ≡ map own_signature (entries_between from to) }
        ensures { OnOk result (out.new.items ≡ out.old.items ++ frames_between from to) }
    {
        'rows: for i in from..to {
            let at = (i - from) as usize;
            let capability = self.capability_bytes((i % 8) as u8);
            put_frame(
                out,
                entry_in(messages[at].rest),
                capability,
                &signatures[at],
            )?;
        }
        Ok(())
    }
}

// The spelling of an entry, which stands behind a key and a letter in what is signed of it.
fn entry_in(signed: &[u8]) -> &[u8]
    requires { 34 ≤ length signed.now }
    ensures { result.now ≡ drop 34 signed.now }
{
    &signed[BEFORE_ENTRY..]
}

// Appends the frame of a body of these parts, or without memory a part of it.
fn put_frame(
    out: &mut Vec<u8>,
    entry: &[u8],
    capability: &[u8],
    signature: &[u8; 32],
) -> Result<(), NoMemory>
    requires { length (entry.now ++ (capability.now ++ signature_spelling signature.now)) ≤ MAX_FRAME }
    ensures { OnOk result (out.new.items ≡ out.old.items
        ++ text_spelling (to_be_bytes w32) (entry.now ++ (capability.now ++ signature_spelling signature.now))) }
{
    let body = entry.len() + capability.len() + 2 + signature.len();
    put_u32(out, body as u32)?;
    put_bytes(out, entry)?;
    put_bytes(out, capability)?;
    put_u16(out, signature.len() as u16)?;
    put_bytes(out, signature)
}
