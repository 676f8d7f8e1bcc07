//! `write`: a row of an entry that is signed under a capability.

ghost use Rattle.peer_stage.specs.World.{World};
ghost use Rattle.peer_words.specs.Signers.{IsSigner};
ghost use Rattle.peer_make.specs.Writing.{TellsRow, WritesEntry};

use crate::reading::read_one;
use crate::signing::sign_with;
use auth_entry::authorise;
use cap_codec::{RawRow, WriteToken, encode_frame};
use lms_core::PeerScheme;
use peer_stage::{Done, Stop, write_output};
use peer_words::SignerWord;
use spelling::End;
use std::alloc::Global;
use std::thread::Threads;
use willow_entry::{Entry, entry_message};
use willow_outside::{Shelf, Sink, Source};
use willow_path::{Digest, Path, UserKey};

/// Reads one capability, signs an entry of its namespace, and writes the frame of the row of both, where it
/// is authorised.
///
/// Without a subspace the entry is in that of the capability's receiver. An index of a key file is used up
/// also where the row is refused.
pub fn write<R: Threads + Sync, H: Shelf, I: Source, O: Sink>(
    rt: &R,
    alloc: Global,
    key: SignerWord,
    path: Path,
    time: u64,
    length: u64,
    digest: Digest,
    subspace: Option<UserKey>,
    shelf: &mut H,
    input: &mut I,
    output: &mut O,
) -> Result<Done, Stop>
    requires { IsSigner key }
    ensures { (others : World) → WritesEntry key (record { path = path; time = time; payload_length = length; digest = digest; subspace = subspace })
        (record others { shelf = H.facts shelf.old; input = I.facts input.old; output = O.facts output.old })
        (record others { shelf = H.facts shelf.new; input = I.facts input.new; output = O.facts output.new }) result }
{
    let capability = read_one(alloc, input)?;
    let entry = Entry {
        namespace: capability.namespace,
        subspace: subspace.unwrap_or(capability.receiver()),
        path,
        timestamp: time,
        length,
        digest,
    };
    let message = entry_message(alloc, &entry)?;
    let signature = sign_with(rt, alloc, shelf, key, &message)?;
    let token = WriteToken {
        capability,
        signature,
    };
    let row = RawRow::new(alloc, entry, token)?;
    tell_row(alloc, row, output)
}

// Writes the row's frame, where it is authorised in the namespace of its capability.
fn tell_row<O: Sink>(alloc: Global, row: RawRow, output: &mut O) -> Result<Done, Stop>
    ensures { (others : World) → TellsRow row (record others { output = O.facts output.old }) (record others { output = O.facts output.new }) result }
{
    let namespace = row.token().capability.namespace;
    let authorised = match authorise(alloc, &PeerScheme, &namespace, row) {
        Ok(authorised) => authorised,
        Err(End::Refused(refusal)) => return Err(Stop::Refused(refusal)),
        Err(End::NoMemory) => return Err(Stop::NoMemory),
    };
    let mut text = Vec::new(alloc);
    encode_frame(authorised.row(), &mut text)?;
    write_output(output, &text)?;
    Ok(Done::Made)
}
