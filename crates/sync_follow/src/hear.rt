//! What one who follows has of the message that is due.

ghost use Rattle.std.specs.Prelude.{◌≡◌, ◌+◌, ◌<◌, ◌≤◌, ◌^◌, ◌++◌, drop, length, IfOk, OnOk};
ghost use Rattle.sync_follow.specs.Hearing.{HearsPiece, IsHeld};

use crate::place::Place;
use crate::take::take_all;
use cap_codec::RawRow;
use spelling::{NoMemory, put_bytes};
use std::alloc::Global;
use willow_area::Area;

// How one stands, and what is there of the message that is due.
#[derive(Drop)]
pub(crate) struct Ear {
    pub(crate) place: Place,
    // The offset at which the message begins.
    pub(crate) at: u64,
    // The bytes of it that are there, which are not all.
    pub(crate) held: Vec<u8>,
}

// Reads a piece behind the bytes that are held, and keeps those of the message that is then due.
pub(crate) fn hear_on(
    alloc: Global,
    area: &Area,
    ear: &mut Ear,
    piece: &[u8],
    came: &mut Vec<RawRow>,
) -> Result<(), NoMemory>
    requires { IsHeld area.now ear.old }
    ensures hears { OnOk result (HearsPiece area.now ear.old ear.new piece.now came.old.items came.new.items) }
    ensures held { OnOk result (IsHeld area.now ear.new) }
{
    hold(ear.at, &mut ear.held, piece)?;
    let taken = take_all(alloc, area, &mut ear.place, &ear.held, came)?;
    ear.at += taken as u64;
    ear.held = rest_of(alloc, &ear.held, taken)?;
    Ok(())
}

// Puts a piece behind the bytes that are held from an offset on. Where so many bytes could not be counted there is no
// memory for them.
fn hold(at: u64, held: &mut Vec<u8>, piece: &[u8]) -> Result<(), NoMemory>
    ensures held { OnOk result (held.new.items ≡ held.old.items ++ piece.now) }
    ensures counted { OnOk result (at + length held.new.items < 2 ^ 64) }
{
    put_bytes(held, piece)?;
    if held.len() as u64 > u64::MAX - at {
        return Err(NoMemory);
    }
    Ok(())
}

// The bytes behind so many.
fn rest_of(alloc: Global, bytes: &[u8], taken: usize) -> Result<Vec<u8>, NoMemory>
    requires { taken ≤ length bytes.now }
    ensures { IfOk result (λ rest. rest.items ≡ drop taken bytes.now) }
{
    let rest = Vec::from_slice(alloc, &bytes[taken..])?;
    Ok(rest)
}
