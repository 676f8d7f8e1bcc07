//! Which hellos are refused.

ghost use Rattle.std.specs.Prelude.{◌≡◌, ◌<◌, length, None, IsErrOf};
ghost use Rattle.spelling.specs.Answers.{Judges};
ghost use Rattle.spelling.specs.declared.ending.End.TheVariants as ends;
ghost use Rattle.mc_cap.specs.Valid.{beginning_refusal};
ghost use Rattle.sync_hello.specs.Checked.{ask_refusal, capability_refusal, claim_refusal, hello_refusal};

use crate::hello::Hello;
use mc_cap::{Capability, Mode};
use scheme_core::Verify;
use session_end::HelloRefusal;
use spelling::End;
use willow_path::NamespaceKey;

/// Whether the hello is one of this namespace by the rules of the scheme: its version is not 0; its capability is of
/// the namespace, for reading, and valid (Meadowcap); and what that grants includes the ask. It is refused with the
/// first of these that fails, in this order. What needs no memory is judged before any is asked for: the version, the
/// namespace, the mode, and how the capability begins; where it has no delegations, all.
#[tactic(auto, unfolding(crate::specs::Checked::hello_refusal), using(crate::proofs::Beginning::begins_where_passed))]
pub fn check_hello<S: Verify>(
    scheme: &S,
    namespace: &NamespaceKey,
    hello: &Hello,
) -> Result<(), End<HelloRefusal>>
    ensures answer { Judges result (hello_refusal S.rules namespace.now hello.now) }
    ensures early { IsErrOf result ends.NoMemory → claim_refusal namespace.now hello.now ≡ None }
    ensures begun { IsErrOf result ends.NoMemory → beginning_refusal S.rules hello.now.capability ≡ None }
    ensures handed_on { IsErrOf result ends.NoMemory → 0 < length hello.now.capability.chain }
{
    if let Some(refusal) = claim_refusal(namespace, hello) {
        return Err(End::Refused(refusal));
    }
    check_capability(scheme, &hello.capability)?;
    check_ask(hello)
}

// Why the hello is refused before its capability is checked, where it is.
#[tactic(auto, unfolding(crate::specs::Checked::claim_refusal))]
fn claim_refusal(namespace: &NamespaceKey, hello: &Hello) -> Option<HelloRefusal>
    ensures { result ≡ claim_refusal namespace.now hello.now }
{
    if hello.version == 0 {
        return Some(HelloRefusal::VersionUnknown);
    }
    if hello.capability.namespace != *namespace {
        return Some(HelloRefusal::WrongNamespace);
    }
    match hello.capability.mode {
        Mode::Read => None,
        Mode::Write => Some(HelloRefusal::NotRead),
    }
}

// Whether the capability is valid.
fn check_capability<S: Verify>(scheme: &S, capability: &Capability) -> Result<(), End<HelloRefusal>>
    ensures answer { Judges result (capability_refusal S.rules capability.now) }
    ensures begun { IsErrOf result ends.NoMemory → beginning_refusal S.rules capability.now ≡ None }
    ensures handed_on { IsErrOf result ends.NoMemory → 0 < length capability.now.chain }
{
    match capability.check(scheme) {
        Ok(()) => Ok(()),
        Err(End::Refused(refusal)) => Err(End::Refused(HelloRefusal::Chain(refusal))),
        Err(End::NoMemory) => Err(End::NoMemory),
    }
}

// Whether the ask is within what the capability grants.
fn check_ask(hello: &Hello) -> Result<(), End<HelloRefusal>>
    ensures answer { Judges result (ask_refusal hello.now) }
    ensures handed_on { IsErrOf result ends.NoMemory → 0 < length hello.now.capability.chain }
{
    let granted = hello.capability.granted_area()?;
    if !granted.includes_area(&hello.ask) {
        return Err(End::Refused(HelloRefusal::AskOutsideGrant));
    }
    Ok(())
}
