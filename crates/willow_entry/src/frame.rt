//! Rows in frames.

ghost use Rattle.std.specs.Prelude.{◌≡◌, ◌++◌, take, OnErr, OnOk, vec_len};
ghost use Rattle.willow_entry.specs.Frame.{row_frame, HasFrame};

use crate::row::Row;
use spelling::{NoMemory, put_bytes, put_u32};

/// The greatest number of bytes of a frame's body.
pub const MAX_FRAME: usize = 131_072;

/// Appends the row's frame to `out`: four bytes for the length of the body, and the body, which is the
/// entry and the token as the row keeps them. Without memory `out` stays as it was.
pub fn encode_row_frame<R: Row>(row: &R, out: &mut Vec<u8>) -> Result<(), NoMemory>
    requires { HasFrame (R.value row.now) }
    ensures spelled { OnOk result (out.new.items ≡ out.old.items ++ row_frame (R.value row.now)) }
    ensures err { OnErr result (out.new.items ≡ out.old.items) }
{
    let begun = out.len();
    match spell_frame(row, out) {
        Ok(()) => Ok(()),
        Err(NoMemory) => {
            out.truncate(begun);
            Err(NoMemory)
        }
    }
}

// Appends the frame, or without memory a part of it.
#[tactic(auto, unfolding(crate::specs::RowBody::row_body))]
fn spell_frame<R: Row>(row: &R, out: &mut Vec<u8>) -> Result<(), NoMemory>
    requires { HasFrame (R.value row.now) }
    ensures spelled { OnOk result (out.new.items ≡ out.old.items ++ row_frame (R.value row.now)) }
    ensures kept { take (vec_len out.old) out.new.items ≡ out.old.items }
{
    let (entry, token) = (row.entry_bytes(), row.token_bytes());
    put_u32(out, (entry.len() + token.len()) as u32)?;
    put_bytes(out, entry)?;
    put_bytes(out, token)
}
