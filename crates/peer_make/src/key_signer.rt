//! The signers that a word names.

ghost use Rattle.std.specs.Prelude.{◌≡◌, ◌<◌, ◌≤◌, ◌↔◌, true, length, map, replicate, slice_index, All, IfOk, OnErr, IsErrOf};
ghost use Rattle.spelling.specs.declared.ending.End.TheVariants as ends;
ghost use Rattle.scheme_core.specs.declared.signer.TheConstants.{MAX_SIGNATURE};
ghost use Rattle.peer_words.specs.Signers.{IsSigner};
ghost use Rattle.peer_stage.specs.Faults.{CountsStep};
ghost use Rattle.peer_make.specs.KeySigners.{HandsSigner, HandsSigners, gives_of, left_of, asks_of};
ghost use Rattle.peer_make.specs.declared.key_signer.KeySigner.TheVariants.{Open, Once};
ghost use Rattle.peer_make.specs.KeySignerLaws.{gives_short};

use crate::signing::{take_next, take_uses};
use lms_core::OneUse;
use peer_stage::Stop;
use peer_words::SignerWord;
use scheme_core::{OpenSigner, SignRefusal, Signer};
use spelling::{End, NoMemory};
use std::alloc::Global;
use std::thread::Threads;
use willow_outside::Shelf;
use willow_path::UserKey;

/// What signs with an open key, or once with an index of a key file.
#[derive(Drop)]
pub enum KeySigner {
    /// An open key, which is never spent.
    Open(OpenSigner),
    /// One index of a key file.
    Once(OneUse),
}

impl Signer for KeySigner {
    ghost gives = { gives_of };

    ghost left = { left_of };

    ghost faults = { λ _. 0 };

    ghost asks = { asks_of };

    /// Signs a message, as the key of its kind does. It never fails.
    fn sign(&mut self, alloc: Global, message: &[u8]) -> Result<Vec<u8>, End<SignRefusal>>
        ensures given { IfOk result (λ signature. gives_of self.old message.now signature.items ≡ true) }
        ensures short { IfOk result (λ signature. length signature.items ≤ MAX_SIGNATURE) }
        ensures same { gives_of self.new ≡ gives_of self.old }
        ensures spent { IsErrOf result (ends.Refused SignRefusal.Spent) ↔ (left_of self.old ≡ 0) }
        ensures failed { IsErrOf result (ends.Refused SignRefusal.Failed) → ⊥ }
        ensures kept { OnErr result (left_of self.new ≡ left_of self.old) }
        ensures asked { asks_of self.old self.new }
    {
        match self {
            KeySigner::Open(signer) => signer.sign(alloc, message),
            KeySigner::Once(signer) => signer.sign(alloc, message),
        }
    }

    fn left(&self) -> u64 {
        match self {
            KeySigner::Open(signer) => signer.left(),
            KeySigner::Once(signer) => signer.left(),
        }
    }

    ghost gives_short = { gives_short };
}

/// The signer of the word, which has not signed. An open key calls nothing of the shelf; of a key file the next index is
/// used up for it.
pub fn reserve_signer<R: Threads + Sync, H: Shelf>(
    rt: &R,
    alloc: Global,
    shelf: &mut H,
    key: SignerWord,
) -> Result<KeySigner, Stop>
    requires { IsSigner key }
    ensures hands { HandsSigner key (H.facts shelf.old) (H.facts shelf.new) result }
    ensures read_faults { CountsStep (H.facts shelf.old).read_faults (H.facts shelf.new).read_faults result }
    ensures write_faults { CountsStep (H.facts shelf.old).write_faults (H.facts shelf.new).write_faults result }
{
    match key {
        SignerWord::OpenKey(key) => Ok(KeySigner::Open(OpenSigner::new(key))),
        SignerWord::LmsFile(name) => Ok(KeySigner::Once(take_next(rt, alloc, shelf, name)?)),
    }
}

/// So many signers of the word, in order, each of which has not signed. An open key calls nothing of the shelf; of a key file
/// the next `count` indices are used up for them, all by one write. Where no memory is found they may be used up too, though
/// none is handed out.
pub fn reserve_signers<R: Threads + Sync, H: Shelf>(
    rt: &R,
    alloc: Global,
    shelf: &mut H,
    key: SignerWord,
    count: u32,
) -> Result<Vec<KeySigner>, Stop>
    requires signer { IsSigner key }
    requires some { 0 < count }
    ensures hands { HandsSigners key count (H.facts shelf.old) (H.facts shelf.new) result }
    ensures many { IfOk result (λ signers. length signers.items ≡ count) }
    ensures left { IfOk result (λ signers. All (λ signer. left_of signer ≡ 1) signers.items) }
    ensures read_faults { CountsStep (H.facts shelf.old).read_faults (H.facts shelf.new).read_faults result }
    ensures write_faults { CountsStep (H.facts shelf.old).write_faults (H.facts shelf.new).write_faults result }
{
    match key {
        SignerWord::OpenKey(key) => Ok(open_signers(alloc, key, count)?),
        SignerWord::LmsFile(name) => {
            let uses = take_uses(rt, alloc, shelf, name, count)?;
            Ok(once_each(alloc, uses)?)
        }
    }
}

// So many signers of an open key.
fn open_signers(alloc: Global, key: UserKey, count: u32) -> Result<Vec<KeySigner>, NoMemory>
    requires { slice_index key 0 ≡ 0 }
    ensures { IfOk result (λ signers. signers.items ≡ replicate count (Open key)) }
{
    let mut signers = Vec::new(alloc);
    for _ in 0..count {
        signers.push(KeySigner::Open(OpenSigner::new(key)))?;
    }
    Ok(signers)
}

// The signers of these indices, in order.
fn once_each(alloc: Global, uses: Vec<OneUse>) -> Result<Vec<KeySigner>, NoMemory>
    ensures { IfOk result (λ signers. signers.items ≡ map Once uses.items) }
{
    let signers = uses
        .into_iter()
        .map(|signer| KeySigner::Once(signer))
        .collect(alloc)?;
    Ok(signers)
}
