//! How messages are signed: by an open key, or with the next index of a key file.

ghost use Rattle.std.specs.Prelude.{◌≡◌, ◌<◌, ◌≤◌, length, slice_index};
ghost use Rattle.peer_words.specs.Signers.{IsSigner};
ghost use Rattle.peer_stage.specs.Faults.{CountsStep};
ghost use Rattle.peer_make.specs.Signing.{Signs, SignsOpen, SignsNext, SignsOnce, HandsNext, HandsUses, stop_of};

use lms_core::{KeyRefusal, OneUse, reserve_keys_on};
use mc_cap::Signature;
use peer_stage::{Origin, Stop};
use peer_words::SignerWord;
use scheme_core::{MAX_SIGNATURE, OpenSigner, Signer};
use spelling::End;
use std::alloc::Global;
use std::thread::Threads;
use willow_outside::Shelf;
use willow_path::UserKey;

/// Signs a message. An open key calls nothing of the shelf; a key file gives its next index for it, which
/// is used up also where no memory is found for the signature.
pub(crate) fn sign_with<R: Threads + Sync, H: Shelf>(
    rt: &R,
    alloc: Global,
    shelf: &mut H,
    key: SignerWord,
    message: &[u8],
) -> Result<Signature, Stop>
    requires { IsSigner key }
    ensures signs { Signs key message.now (H.facts shelf.old) (H.facts shelf.new) result }
    ensures read_faults { CountsStep (H.facts shelf.old).read_faults (H.facts shelf.new).read_faults result }
    ensures write_faults { CountsStep (H.facts shelf.old).write_faults (H.facts shelf.new).write_faults result }
{
    match key {
        SignerWord::OpenKey(key) => sign_open(alloc, key, message),
        SignerWord::LmsFile(name) => sign_next(rt, alloc, shelf, name, message),
    }
}

// The signature of an open key.
fn sign_open(alloc: Global, key: UserKey, message: &[u8]) -> Result<Signature, Stop>
    requires { slice_index key 0 ≡ 0 }
    ensures { SignsOpen key message.now result }
{
    match OpenSigner::new(key).sign(alloc, message) {
        Ok(bytes) => Ok(Signature::short(bytes)),
        Err(End::Refused(_)) => unreachable!(),
        Err(End::NoMemory) => Err(Stop::NoMemory),
    }
}

// The signature of the next index of a key file.
fn sign_next<R: Threads + Sync, H: Shelf>(
    rt: &R,
    alloc: Global,
    shelf: &mut H,
    name: String,
    message: &[u8],
) -> Result<Signature, Stop>
    ensures signs { SignsNext name (H.facts shelf.old) (H.facts shelf.new) message.now result }
    ensures read_faults { CountsStep (H.facts shelf.old).read_faults (H.facts shelf.new).read_faults result }
    ensures write_faults { CountsStep (H.facts shelf.old).write_faults (H.facts shelf.new).write_faults result }
{
    let signer = take_next(rt, alloc, shelf, name)?;
    sign_once(alloc, signer, message)
}

/// The signer of the next index of a key file, which is used up.
pub(crate) fn take_next<R: Threads + Sync, H: Shelf>(
    rt: &R,
    alloc: Global,
    shelf: &mut H,
    name: String,
) -> Result<OneUse, Stop>
    ensures hands { HandsNext name (H.facts shelf.old) (H.facts shelf.new) result }
    ensures read_faults { CountsStep (H.facts shelf.old).read_faults (H.facts shelf.new).read_faults result }
    ensures write_faults { CountsStep (H.facts shelf.old).write_faults (H.facts shelf.new).write_faults result }
{
    let mut signers = take_uses(rt, alloc, shelf, name, 1)?;
    match signers.pop() {
        Some(signer) => Ok(signer),
        None => unreachable!(),
    }
}

/// The signers of so many of the next indices of a key file, in order, which are used up.
pub(crate) fn take_uses<R: Threads + Sync, H: Shelf>(
    rt: &R,
    alloc: Global,
    shelf: &mut H,
    name: String,
    count: u32,
) -> Result<Vec<OneUse>, Stop>
    requires { 0 < count }
    ensures hands { HandsUses name count (H.facts shelf.old) (H.facts shelf.new) result }
    ensures read_faults { CountsStep (H.facts shelf.old).read_faults (H.facts shelf.new).read_faults result }
    ensures write_faults { CountsStep (H.facts shelf.old).write_faults (H.facts shelf.new).write_faults result }
{
    match reserve_keys_on(rt, alloc, shelf, name.as_str(), count) {
        Ok(signers) => Ok(signers),
        Err(End::Refused(refusal)) => Err(stop_of(refusal, name)),
        Err(End::NoMemory) => Err(Stop::NoMemory),
    }
}

// How a refusal of a key file is told.
fn stop_of(refusal: KeyRefusal, name: String) -> Stop
    ensures { result ≡ stop_of refusal name }
{
    match refusal {
        KeyRefusal::ShelfRead => Stop::ReadFault,
        KeyRefusal::Missing => Stop::Missing { name },
        KeyRefusal::BadKeyFile => Stop::BadInput {
            origin: Origin::Name(name),
            at: 0,
        },
        KeyRefusal::KeySpent { .. } => Stop::KeySpent,
        KeyRefusal::ShelfWrite => Stop::WriteFault,
    }
}

// The signature of a signer of one index, which has not signed.
fn sign_once(alloc: Global, signer: OneUse, message: &[u8]) -> Result<Signature, Stop>
    requires { signer.left ≡ 1 }
    ensures { SignsOnce signer message.now result }
{
    let mut signer = signer;
    match signer.sign(alloc, message) {
        Ok(bytes) => Ok(Signature::short(bytes)),
        Err(End::Refused(_)) => unreachable!(),
        Err(End::NoMemory) => Err(Stop::NoMemory),
    }
}
