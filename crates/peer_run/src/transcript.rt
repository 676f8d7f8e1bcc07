//! What two sides said, as one text.

ghost use Rattle.std.specs.Prelude.{◌≡◌, ◌++◌, map, IfOk, OnOk};
ghost use Rattle.peer_run.specs.Transcript.{transcript, turn_told};

use spelling::{NoMemory, put_byte, put_bytes, put_u32};
use std::alloc::Global;

/// The turns one behind the other: of each a byte for the side (0 the one that begins, 1 the other), its length in four
/// bytes, and its bytes. For a turn whose length does not fit, memory is told as wanting.
pub(crate) fn transcript_of(alloc: Global, turns: &[Vec<u8>]) -> Result<Vec<u8>, NoMemory>
    ensures { IfOk result (λ text. text.items ≡ transcript (map (λ t. t.items) turns.now)) }
{
    let mut text = Vec::new(alloc);
    for (i, turn) in turns.iter().enumerate() {
        put_turn(&mut text, (i % 2) as u8, turn)?;
    }
    Ok(text)
}

// Appends a turn of a side.
fn put_turn(text: &mut Vec<u8>, side: u8, turn: &[u8]) -> Result<(), NoMemory>
    ensures { OnOk result (text.new.items ≡ text.old.items ++ turn_told side turn.now) }
{
    let Ok(length) = u32::try_from(turn.len()) else {
        return Err(NoMemory);
    };
    put_byte(text, side)?;
    put_u32(text, length)?;
    put_bytes(text, turn)
}
