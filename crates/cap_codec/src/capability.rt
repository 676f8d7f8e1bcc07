//! Capabilities, read from bytes.

ghost use Rattle.std.specs.Prelude.{◌≡◌, length, IfOk, IsErrOf};
ghost use Rattle.spelling.specs.Form.{Decodes};
ghost use Rattle.spelling.specs.Front.{Whole, ◌>>=◌ as ◌|>>◌};
ghost use Rattle.spelling.specs.Reading.{Gives, NeedsNoMemory, many_at};
ghost use Rattle.spelling.specs.declared.ending.End.TheVariants as ends;
ghost use Rattle.spelling.specs.declared.input.Unread.TheVariants as unread;
ghost use Rattle.willow_area.specs.AreaSpelling.{AreaAsks};
ghost use Rattle.mc_cap.specs.Forms.{capability_spelling, IsCapability};
ghost use Rattle.cap_codec.specs.Reading.{form_at, signature_at, initial_at, delegation_at, chain_at, capability_at};
ghost use Rattle.cap_codec.specs.Memory.{AsksBehindKeys, CapabilityAsks, ChainAsks, DelegationsAsk, SignatureAsks};

use mc_cap::{Capability, Chain, Delegation, MAX_CHAIN, Mode, Signature};
use scheme_core::MAX_SIGNATURE;
use spelling::{End, Input, NotHere, Unread};
use std::alloc::Global;
use willow_area::read_area;
use willow_path::{NamespaceKey, UserKey, read_namespace_key, read_user_key};

/// The capability that is spelled at the front of the bytes, with the number of bytes taken. It is not here
/// exactly where no front of the bytes is the spelling of a capability. Whether it is valid is not judged.
pub fn decode_capability(alloc: Global, bytes: &[u8]) -> Result<(Capability, usize), End<NotHere>>
    ensures decodes { Decodes capability_spelling IsCapability bytes.now result }
    ensures asked { IsErrOf result ends.NoMemory → CapabilityAsks bytes.now }
{
    let mut input = Input::new(bytes);
    let capability = read_capability(alloc, &mut input)?;
    Ok((capability, input.taken_of(bytes)))
}

/// Reads a capability from the front of the input. It is wrong as soon as no capability begins so. An owned one asks for
/// memory with its initial signature, a communal one behind the path of its first delegation.
#[tactic(auto, unfolding(crate::specs::Reading::capability_at))]
pub fn read_capability(alloc: Global, input: &mut Input) -> Result<Capability, Unread>
    ensures gives { Gives (λ capability. capability) result input.new (capability_at input.old) }
    ensures asked { IsErrOf result unread.NoMemory → CapabilityAsks input.old }
{
    let (mode, owned) = read_form(input)?;
    let namespace = read_namespace_key(input)?;
    let user = read_user_key(input)?;
    read_behind_keys(alloc, mode, owned, namespace, user, input)
}

// Reads what a capability of this form and these keys has behind them.
#[tactic(auto, using(crate::proofs::Asking::behind_initial))]
fn read_behind_keys(
    alloc: Global,
    mode: Mode,
    owned: bool,
    namespace: NamespaceKey,
    user: UserKey,
    input: &mut Input,
) -> Result<Capability, Unread>
    ensures gives { Gives (λ capability. capability) result input.new
        (initial_at owned input.old |>> (λ i. chain_at i.1 |>> (λ c. Whole (record { mode = mode; namespace = namespace; user = user; initial = i.0; chain = c.0 }) c.1))) }
    ensures asked { IsErrOf result unread.NoMemory → AsksBehindKeys owned input.old }
{
    Ok(Capability {
        mode,
        namespace,
        user,
        initial: read_initial(alloc, owned, input)?,
        chain: read_chain(alloc, input)?,
    })
}

// The mode, and whether the capability is owned.
#[tactic(auto, unfolding(crate::specs::Reading::form_at))]
fn read_form(input: &mut Input) -> Result<(Mode, bool), Unread>
    ensures gives { Gives (λ form. form) result input.new (form_at input.old) }
    ensures sure { NeedsNoMemory result }
{
    match input.byte()? {
        0 => Ok((Mode::Read, false)),
        1 => Ok((Mode::Write, false)),
        2 => Ok((Mode::Read, true)),
        3 => Ok((Mode::Write, true)),
        _ => Err(Unread::Wrong),
    }
}

// The initial signature of an owned capability.
#[tactic(auto, unfolding(crate::specs::Reading::initial_at))]
fn read_initial(alloc: Global, owned: bool, input: &mut Input) -> Result<Option<Signature>, Unread>
    ensures gives { Gives (λ initial. initial) result input.new (initial_at owned input.old) }
    ensures asked { IsErrOf result unread.NoMemory → AsksBehindKeys owned input.old }
{
    if !owned {
        return Ok(None);
    }
    let signature = read_signature(alloc, input)?;
    Ok(Some(signature))
}

/// Reads a signature from the front of the input: two bytes for its length, at most `MAX_SIGNATURE`, and
/// its bytes. It is wrong as soon as no signature begins so. Memory is asked for where all its bytes are there.
#[tactic(auto, unfolding(crate::specs::Reading::signature_at, spelling::specs::Reading::text_at))]
pub fn read_signature(alloc: Global, input: &mut Input) -> Result<Signature, Unread>
    ensures gives { Gives (λ signature. signature) result input.new (signature_at input.old) }
    ensures asked { IsErrOf result unread.NoMemory → SignatureAsks input.old }
{
    let len = usize::from(input.number_u16_up_to(MAX_SIGNATURE as u16)?);
    let bytes = input.vec(alloc, len)?;
    Signature::new(bytes).ok_or(Unread::Wrong)
}

#[tactic(auto, unfolding(crate::specs::Reading::delegation_at), using(willow_area::proofs::AreaReads::whole_asks))]
fn read_delegation(alloc: Global, input: &mut Input) -> Result<Delegation, Unread>
    ensures gives { Gives (λ delegation. delegation) result input.new (delegation_at input.old) }
    ensures asked { IsErrOf result unread.NoMemory → AreaAsks input.old }
{
    Ok(Delegation {
        area: read_area(alloc, input)?,
        user: read_user_key(input)?,
        signature: read_signature(alloc, input)?,
    })
}

// A byte for how many there are, and the delegations.
#[tactic(auto, unfolding(crate::specs::Reading::chain_at, spelling::specs::Reading::list_at))]
fn read_chain(alloc: Global, input: &mut Input) -> Result<Chain, Unread>
    ensures gives { Gives (λ chain. chain) result input.new (chain_at input.old) }
    ensures asked { IsErrOf result unread.NoMemory → ChainAsks input.old }
{
    let count = usize::from(input.byte_up_to(MAX_CHAIN as u8)?);
    let delegations = read_delegations(alloc, input, count)?;
    Chain::new(delegations).ok_or(Unread::Wrong)
}

// So many delegations.
fn read_delegations(
    alloc: Global,
    input: &mut Input,
    count: usize,
) -> Result<Vec<Delegation>, Unread>
    ensures read { Gives (λ delegations. delegations.items) result input.new (many_at delegation_at count input.old) }
    ensures counted { IfOk result (λ delegations. length delegations.items ≡ count) }
    ensures asked { IsErrOf result unread.NoMemory → DelegationsAsk count input.old }
{
    let mut delegations = Vec::new(alloc);
    for _ in 0..count {
        let delegation = read_delegation(alloc, input)?;
        delegations.push(delegation)?;
    }
    Ok(delegations)
}
