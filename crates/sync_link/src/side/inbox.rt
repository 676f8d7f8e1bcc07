//! What a side of a session has of the message that is due.

ghost use Rattle.std.specs.Prelude.{◌≡◌, ◌+◌, ◌<◌, ◌≤◌, ◌^◌, [], ◌++◌, drop, length, IfOk, OnOk};
ghost use Rattle.sync_link.specs.Asking.{AsksWhere, SignsOnce};
ghost use Rattle.sync_link.specs.Progress.{CountsOn};
ghost use Rattle.sync_link.specs.Held.{IsHeld, heard_progress, heard_side};
ghost use Rattle.sync_link.specs.Signing.{OwesIn, SignsTo};
ghost use Rattle.sync_link.specs.Standing.{ReadsPiece};
ghost use Rattle.sync_link.specs.Talking.{Keeps, SignsBy};
ghost use Rattle.sync_link.specs.Taking.{listed};
ghost use Rattle.sync_link.specs.declared.side.awaited.Cause.TheVariants as causes;
ghost use Rattle.sync_link.specs.declared.side.awaited.Awaited.TheVariants as awaited;

use crate::side::awaited::{Awaited, Cause};
use crate::side::lists::Lists;
use crate::side::participant::Participant;
use crate::side::standing::Stop;
use crate::side::take_all::take_all;
use scheme_core::{Signer, Verify};
use spelling::{NoMemory, put_bytes};
use std::alloc::Global;
use willow_entry::Row;

// What is due, and what is there of it.
#[derive(Drop)]
pub(crate) struct Inbox<R: Row> {
    pub(crate) due: Awaited<R>,
    // The offset at which it begins.
    pub(crate) at: u64,
    // The bytes of it that are there, which are not all.
    pub(crate) held: Vec<u8>,
}

// Reads a piece behind the bytes that are held, and keeps those of the message that is then due.
#[tactic(auto, using(crate::proofs::HearingOn::piece_read_on))]
pub(crate) fn hear_on<R: Row, S: Verify, K: Signer>(
    participant: &mut Participant<R, S>,
    inbox: &mut Inbox<R>,
    signer: &mut K,
    piece: &[u8],
    out: &mut Vec<u8>,
    lists: &mut Lists,
) -> Result<(), Stop>
    requires { IsHeld S.rules R.value participant.old inbox.old.due inbox.old.at inbox.old.held.items }
    ensures keeps { Keeps participant.old participant.new }
    ensures reads_piece { OnOk result (ReadsPiece (heard_side S.rules R.value participant.old inbox.old) (heard_side S.rules R.value participant.new inbox.new) piece.now out.old.items out.new.items (listed lists.old) (listed lists.new)) }
    ensures counts { OnOk result (CountsOn (heard_progress S.rules R.value participant.old inbox.old) (heard_progress S.rules R.value participant.new inbox.new) piece.now) }
    ensures held { OnOk result (IsHeld S.rules R.value participant.new inbox.new.due inbox.new.at inbox.new.held.items) }
    ensures greets { OnOk result (SignsTo (K.gives signer.old) (heard_side S.rules R.value participant.old inbox.old) (heard_side S.rules R.value participant.new inbox.new) piece.now) }
    ensures signs { OnOk result (SignsBy (K.gives signer.old) participant.old.role participant.old.hello participant.old.signature participant.new.signature) }
    ensures signing { SignsOnce K.gives K.asks K.left K.faults participant.old.signature participant.new.signature signer.old signer.new result }
    ensures due { AsksWhere participant.old.signature participant.new.signature signer.old signer.new (OwesIn (heard_side S.rules R.value participant.old inbox.old) piece.now) }
{
    hold(inbox.at, &mut inbox.held, piece)?;
    let taken = take_all(participant, &mut inbox.due, signer, &inbox.held, out, lists)?;
    inbox.at += taken as u64;
    drop_front(participant.alloc, &mut inbox.held, taken)?;
    Ok(())
}

// Puts a piece behind the bytes that are held from an offset on. Where so many bytes could not be counted there is no
// memory for them.
fn hold(at: u64, held: &mut Vec<u8>, piece: &[u8]) -> Result<(), NoMemory>
    ensures held { OnOk result (held.new.items ≡ held.old.items ++ piece.now) }
    ensures counted { OnOk result (at + length held.new.items < 2 ^ 64) }
{
    put_bytes(held, piece)?;
    if held.len() as u64 > u64::MAX - at {
        return Err(NoMemory);
    }
    Ok(())
}

// Leaves the bytes behind so many. Where none are taken nothing is copied, so that a message which comes in many pieces costs
// no more for each than the piece.
fn drop_front(alloc: Global, held: &mut Vec<u8>, taken: usize) -> Result<(), NoMemory>
    requires { taken ≤ length held.old.items }
    ensures { OnOk result (held.new.items ≡ drop taken held.old.items) }
{
    if taken > 0 {
        *held = Vec::from_slice(alloc, &held[taken..])?;
    }
    Ok(())
}

// Nothing is due any more, as behind what is no message.
pub(crate) fn shut<R: Row>(inbox: &mut Inbox<R>)
    ensures due { inbox.new.due ≡ awaited.Nothing causes.Bad }
    ensures at { inbox.new.at < 2 ^ 64 }
    ensures held { inbox.new.held.items ≡ [] }
{
    let _at = inbox.at;
    inbox.due = Awaited::Nothing(Cause::Bad);
    inbox.held.clear();
}
