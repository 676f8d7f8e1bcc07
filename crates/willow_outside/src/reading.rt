//! Reading a source up to its end.

ghost use Rattle.std.specs.Prelude.{◌≡◌, ◌<◌, ◌≤◌, [], length, Ok, Err, IfOk, IfErr, OnOk, OnErr};
ghost use Rattle.std.specs.Io.KnownBytes.{Consumes, IsAtEnd};
ghost use Rattle.spelling.specs.declared.ending.End.TheVariants as stops;
ghost use Rattle.willow_outside.specs.declared.reading.ReadEnd.TheVariants as read_ends;
ghost use Rattle.willow_outside.specs.Counts.{Rose, CountsReads};
ghost use Rattle.willow_outside.specs.Whole.{TookBefore};

use crate::{Fault, Source};
use spelling::End;
use std::alloc::{AllocError, Global};

/// Why not all bytes of a source were read.
#[derive(Clone, Copy, Debug, PartialEq, Eq)]
pub enum ReadEnd {
    /// A read failed.
    Failed,
    /// More bytes came than the limit allows.
    TooLong,
}

/// How many bytes are asked for in one read.
const PIECE: usize = 65_536;

/// Room for one read.
fn room(alloc: Global, size: usize) -> Result<Vec<u8>, AllocError>
    ensures { IfOk result (λ v. length v.items ≡ size) }
{
    vec![in alloc; 0u8; size]
}

/// All bytes of `source` up to its end. `Failed` comes only where a read failed, and `TooLong` exactly
/// where more than `limit` bytes came, and then no read failed. What was read is taken off at every answer.
pub fn read_all<S: Source>(
    alloc: Global,
    source: &mut S,
    limit: u64,
) -> Result<Vec<u8>, End<ReadEnd>>
    ensures bytes { IfOk result (λ v. Consumes (S.facts source.old).left (S.facts source.new).left v.items) }
    ensures all { OnOk result (IsAtEnd (S.facts source.new).left) }
    ensures within { IfOk result (λ v. length v.items ≤ limit) }
    ensures taken { IfErr result (λ e. TookBefore (S.facts source.old).left (S.facts source.new).left limit e) }
    ensures ended { OnOk result (Rose (S.facts source.old).ends (S.facts source.new).ends) }
    ensures not_ended { OnErr result ((S.facts source.new).ends ≡ (S.facts source.old).ends) }
    ensures ends { (S.facts source.old).ends ≤ (S.facts source.new).ends }
    ensures failed { result ≡ Err (stops.Refused read_ends.Failed) → Rose (S.facts source.old).faults (S.facts source.new).faults }
    ensures faults { (S.facts source.old).faults ≤ (S.facts source.new).faults }
    ensures cause { CountsReads (S.facts source.old).faults (S.facts source.new).faults result }
{
    let mut bytes = Vec::new(alloc);
    let mut piece = room(alloc, PIECE)?;
    read_on(source, limit, &mut piece, &mut bytes)?;
    Ok(bytes)
}

/// Puts all bytes of `source` into `bytes`, a piece at a time. It owns nothing that its many ends would have to let go.
fn read_on<S: Source>(
    source: &mut S,
    limit: u64,
    piece: &mut [u8],
    bytes: &mut Vec<u8>,
) -> Result<(), End<ReadEnd>>
    requires none { bytes.old.items ≡ [] }
    requires room { 0 < length piece.old }
    ensures bytes { OnOk result (Consumes (S.facts source.old).left (S.facts source.new).left bytes.new.items) }
    ensures all { OnOk result (IsAtEnd (S.facts source.new).left) }
    ensures within { OnOk result (length bytes.new.items ≤ limit) }
    ensures taken { IfErr result (λ e. TookBefore (S.facts source.old).left (S.facts source.new).left limit e) }
    ensures ended { OnOk result (Rose (S.facts source.old).ends (S.facts source.new).ends) }
    ensures not_ended { OnErr result ((S.facts source.new).ends ≡ (S.facts source.old).ends) }
    ensures ends { (S.facts source.old).ends ≤ (S.facts source.new).ends }
    ensures failed { result ≡ Err (stops.Refused read_ends.Failed) → Rose (S.facts source.old).faults (S.facts source.new).faults }
    ensures faults { (S.facts source.old).faults ≤ (S.facts source.new).faults }
    ensures cause { CountsReads (S.facts source.old).faults (S.facts source.new).faults result }
{
    loop {
        match source.read(piece) {
            Ok(0) => return Ok(()),
            Ok(n) => {
                if limit.saturating_sub(bytes.len() as u64) < n as u64 {
                    return Err(End::Refused(ReadEnd::TooLong));
                }
                if bytes.extend_from_slice(&piece[..n]).is_err() {
                    return Err(End::NoMemory);
                }
            }
            Err(Fault::Failed) => return Err(End::Refused(ReadEnd::Failed)),
            Err(Fault::NoMemory) => return Err(End::NoMemory),
        }
    }
}
