//! `grant`: a capability without delegations.

ghost use Rattle.std.specs.Prelude.{◌≡◌, ◌≤◌, ◌↔◌, length, IsSome, IfSome, false};
ghost use Rattle.peer_stage.specs.World.{World};
ghost use Rattle.peer_stage.specs.Faults.{CountsStep};
ghost use Rattle.peer_words.specs.Signers.{IsSigner};
ghost use Rattle.scheme_core.specs.Open.{is_communal};
ghost use Rattle.peer_make.specs.Granting.{Grants, BeginsBy, Checks, Tells};

use crate::signing::sign_with;
use lms_core::PeerScheme;
use mc_cap::{Capability, Chain, MAX_DELEGATIONS, Mode, RowRefusal, Signature, initial_message};
use peer_stage::{Done, Stop, write_output};
use peer_words::SignerWord;
use spelling::End;
use std::alloc::Global;
use std::thread::Threads;
use willow_outside::{Shelf, Sink};
use willow_path::{NamespaceKey, UserKey};

/// Writes the capability of a user in a namespace, without delegations, where it is valid.
///
/// For an owned namespace the signer signs the initial message; for a communal one there is no signer. An
/// index of a key file is used up also where the capability is refused then.
pub fn grant<R: Threads + Sync, H: Shelf, O: Sink>(
    rt: &R,
    alloc: Global,
    namespace: NamespaceKey,
    mode: Mode,
    user: UserKey,
    key: Option<SignerWord>,
    shelf: &mut H,
    output: &mut O,
) -> Result<Done, Stop>
    requires owned { IsSome key ↔ (is_communal namespace ≡ false) }
    requires signer { IfSome key IsSigner }
    ensures { (others : World) → Grants namespace mode user key
        (record others { shelf = H.facts shelf.old; output = O.facts output.old })
        (record others { shelf = H.facts shelf.new; output = O.facts output.new }) result }
{
    let message = initial_message(mode, &user);
    let initial = begin(rt, alloc, shelf, key, &message)?;
    let capability = Capability {
        mode,
        namespace,
        user,
        initial,
        chain: Chain::empty(alloc),
    };
    tell(alloc, &capability, output)
}

// The initial signature, where there is a signer.
fn begin<R: Threads + Sync, H: Shelf>(
    rt: &R,
    alloc: Global,
    shelf: &mut H,
    key: Option<SignerWord>,
    message: &[u8],
) -> Result<Option<Signature>, Stop>
    requires { IfSome key IsSigner }
    ensures begins { BeginsBy key message.now (H.facts shelf.old) (H.facts shelf.new) result }
    ensures read_faults { CountsStep (H.facts shelf.old).read_faults (H.facts shelf.new).read_faults result }
    ensures write_faults { CountsStep (H.facts shelf.old).write_faults (H.facts shelf.new).write_faults result }
{
    match key {
        Some(key) => {
            let signature = sign_with(rt, alloc, shelf, key, message)?;
            Ok(Some(signature))
        }
        None => Ok(None),
    }
}

/// Writes the capability's spelling, where it is valid.
pub(crate) fn tell<O: Sink>(
    alloc: Global,
    capability: &Capability,
    output: &mut O,
) -> Result<Done, Stop>
    requires { length capability.now.chain ≤ MAX_DELEGATIONS }
    ensures { (others : World) → Tells capability.now (record others { output = O.facts output.old }) (record others { output = O.facts output.new }) result }
{
    check(capability)?;
    let mut text = Vec::new(alloc);
    capability.encode(&mut text)?;
    write_output(output, &text)?;
    Ok(Done::Made)
}

// Stops where the capability is not valid.
fn check(capability: &Capability) -> Result<(), Stop>
    requires { length capability.now.chain ≤ MAX_DELEGATIONS }
    ensures { Checks capability.now result }
{
    capability.known();
    match capability.check(&PeerScheme) {
        Ok(()) => Ok(()),
        Err(End::Refused(refusal)) => Err(Stop::Refused(RowRefusal::Chain(refusal))),
        Err(End::NoMemory) => Err(Stop::NoMemory),
    }
}
