//! `delegate`: a capability with one delegation more.

ghost use Rattle.std.specs.Prelude.{◌≡◌, ◌≤◌, IfOk};
ghost use Rattle.lms_core.specs.Use.{peer_rules};
ghost use Rattle.mc_cap.specs.Grant.{extended};
ghost use Rattle.peer_words.specs.Signers.{IsSigner};
ghost use Rattle.peer_stage.specs.World.{World};
ghost use Rattle.peer_make.specs.Granting.{Tells};
ghost use Rattle.peer_make.specs.Delegating.{Asks, Delegates, growing_refusal};

use crate::granting::tell;
use crate::reading::read_one;
use crate::signing::sign_with;
use lms_core::PeerScheme;
use mc_cap::{Capability, ChainRefusal, Delegation, MAX_DELEGATIONS, RowRefusal};
use peer_stage::{Done, Stop};
use peer_words::{AreaWords, SignerWord};
use spelling::{End, NoMemory};
use std::alloc::Global;
use std::thread::Threads;
use willow_area::Area;
use willow_outside::{Shelf, Sink, Source};
use willow_path::UserKey;

/// Reads one capability, hands it on to a user for an area, and writes the longer one, where it is valid.
///
/// A field of the area without a word is that of the area that is granted. The signer signs the handover
/// before the longer capability is checked, so an index of a key file is used up also where it is refused.
/// Only where the area has no times the signer is not asked: the first refusal is told of the longer
/// capability, in which the new delegation counts as one whose area grows.
pub fn delegate<R: Threads + Sync, H: Shelf, I: Source, O: Sink>(
    rt: &R,
    alloc: Global,
    key: SignerWord,
    to: UserKey,
    area: AreaWords,
    shelf: &mut H,
    input: &mut I,
    output: &mut O,
) -> Result<Done, Stop>
    requires { IsSigner key }
    ensures { (others : World) → Delegates key to area
        (record others { shelf = H.facts shelf.old; input = I.facts input.old; output = O.facts output.old })
        (record others { shelf = H.facts shelf.new; input = I.facts input.new; output = O.facts output.new }) result }
{
    let capability = read_one(alloc, input)?;
    let area = ask(&capability, &area)?;
    let message = capability.handover(&area, &to)?;
    let signature = sign_with(rt, alloc, shelf, key, &message)?;
    let delegation = Delegation {
        area,
        user: to,
        signature,
    };
    tell_longer(alloc, capability, delegation, output)
}

// The area that the words ask for, where it has times.
fn ask(capability: &Capability, words: &AreaWords) -> Result<Area, Stop>
    ensures { Asks words.now capability.now result }
{
    let granted = capability.granted_area()?;
    match words.completed(granted)? {
        Some(area) => Ok(area),
        None => Err(Stop::Refused(RowRefusal::Chain(growing_refusal(capability)?))),
    }
}

// Why the capability is not handed on for an area without times.
#[tactic(auto, unfolding(crate::specs::Delegating::growing_refusal))]
fn growing_refusal(capability: &Capability) -> Result<ChainRefusal, NoMemory>
    ensures { IfOk result (λ refusal. refusal ≡ growing_refusal peer_rules capability.now) }
{
    let at = capability.chain.len() + 1;
    if at > MAX_DELEGATIONS {
        return Ok(ChainRefusal::TooManyDelegations);
    }
    match capability.check(&PeerScheme) {
        Ok(()) => Ok(ChainRefusal::AreaGrows { at: at as u8 }),
        Err(End::Refused(refusal)) => Ok(refusal),
        Err(End::NoMemory) => Err(NoMemory),
    }
}

// Writes the spelling of the capability with one delegation more, where it is valid.
fn tell_longer<O: Sink>(
    alloc: Global,
    capability: Capability,
    delegation: Delegation,
    output: &mut O,
) -> Result<Done, Stop>
    ensures { (others : World) → Tells (extended capability delegation.area delegation.user delegation.signature)
        (record others { output = O.facts output.old }) (record others { output = O.facts output.new }) result }
{
    let mut longer = capability;
    if longer.chain.len() >= MAX_DELEGATIONS {
        return Err(Stop::Refused(RowRefusal::Chain(ChainRefusal::TooManyDelegations)));
    }
    longer.chain.push(delegation)?;
    tell(alloc, &longer, output)
}
