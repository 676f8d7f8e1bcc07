//! Capabilities under open keys: what is signed, spelled, refused and handed on.

ghost use Rattle.std.specs.Prelude.{◌≤◌, length, IfSome};

use crate::keys::key;
use crate::tables::{joined, shows, spells};
use mc_cap::laws::validity;
use mc_cap::{
    Capability, Chain, ChainRefusal, Delegation, MAX_CHAIN, Mode, Signature, initial_message,
};
use scheme_core::{MAX_SIGNATURE, OpenScheme, OpenSigner, Signer};
use std::alloc::Global;
use willow_area::{Area, TimeRange};
use willow_path::{End, NamespaceKey, Path, UserKey};

// The open signature of a message by the key of this byte.
fn signed(alloc: Global, byte: u8, message: &[u8]) -> Option<Vec<u8>>
    ensures { IfSome result (λ signature. length signature.items ≤ MAX_SIGNATURE) }
{
    let mut signer = OpenSigner::new(UserKey::from_bytes(key(byte))?);
    signer.sign(alloc, message).ok()
}

// The initial signature of the first user by the key of this byte.
fn initial_signature(alloc: Global, byte: u8) -> Option<Signature> {
    let message = initial_message(Mode::Write, &UserKey::from_bytes(key(0x55))?);
    Signature::new(signed(alloc, byte, &message)?)
}

// The initial signature by the key of this byte, if there is to be one.
fn initial(alloc: Global, signer: Option<u8>) -> Option<Option<Signature>> {
    match signer {
        Some(byte) => Some(Some(initial_signature(alloc, byte)?)),
        None => Some(None),
    }
}

// A capability to write of the first user, without delegations, with an initial signature by this key.
fn first(alloc: Global, namespace: u8, signer: Option<u8>) -> Option<Capability> {
    let namespace = NamespaceKey::from_bytes(key(namespace))?;
    let user = UserKey::from_bytes(key(0x55))?;
    Some(Capability {
        mode: Mode::Write,
        namespace,
        user,
        initial: initial(alloc, signer)?,
        chain: Chain::empty(alloc),
    })
}

// The first user's subspace, at times below the end.
fn until(alloc: Global, end: Option<u64>) -> Option<Area> {
    let user = UserKey::from_bytes(key(0x55))?;
    let times = TimeRange::new(0, end)?;
    Some(Area {
        subspace: Some(user),
        path: Path::empty(alloc),
        times,
    })
}

// A delegation of the area to the key of this byte.
fn delegation(area: Area, receiver: u8, signature: Vec<u8>) -> Option<Delegation> {
    Some(Delegation {
        area,
        user: UserKey::from_bytes(key(receiver))?,
        signature: Signature::new(signature)?,
    })
}

// Appends a delegation without a check.
fn append(capability: &mut Capability, delegation: Delegation) -> Option<()> {
    if capability.chain.len() >= MAX_CHAIN {
        return None;
    }
    capability.chain.push(delegation).ok()
}

// What the key of this byte signs to hand the capability on to the next.
fn handover(alloc: Global, capability: &Capability, area: &Area, giver: u8) -> Option<Vec<u8>>
    ensures { IfSome result (λ signature. length signature.items ≤ MAX_SIGNATURE) }
{
    let receiver = UserKey::from_bytes(key(giver.wrapping_add(1)))?;
    let message = capability.handover(area, &receiver).ok()?;
    signed(alloc, giver, &message)
}

// Hands the capability on, without a check, from this user to the next, for times below the end.
fn hand_on(alloc: Global, capability: &mut Capability, giver: u8, end: u64) -> Option<()> {
    let area = until(alloc, Some(end))?;
    let signature = handover(alloc, capability, &area, giver)?;
    append(
        capability,
        delegation(area, giver.wrapping_add(1), signature)?,
    )
}

// Hands the capability on from the first user and from each user to the next, for times below these ends.
fn hand_on_all(alloc: Global, capability: &mut Capability, ends: &str) -> Option<()> {
    let mut giver = 0x55u8;
    for end in ends.split_whitespace() {
        hand_on(alloc, capability, giver, end.parse::<u64>().ok()?)?;
        giver = giver.wrapping_add(1);
    }
    Some(())
}

// The communal capability of the first user, handed on so.
fn handed_on(alloc: Global, ends: &str) -> Option<Capability> {
    let mut capability = first(alloc, 0x4e, None)?;
    hand_on_all(alloc, &mut capability, ends)?;
    Some(capability)
}

// Why the check refuses the capability.
fn refused(capability: &Capability) -> Option<Option<ChainRefusal>> {
    match capability.check(&OpenScheme) {
        Ok(()) => Some(None),
        Err(End::Refused(refusal)) => Some(Some(refusal)),
        Err(End::NoMemory) => None,
    }
}

// Why the check refuses the first user's capability.
fn refused_first(alloc: Global, namespace: u8, signer: Option<u8>) -> Option<Option<ChainRefusal>> {
    refused(&first(alloc, namespace, signer)?)
}

#[test]
fn beginnings(rt: HostRuntime) {
    let (communal, owned) = (0x4e, 0x4f);
    for (namespace, signer, refusal) in [
        (communal, None, None),
        (owned, None, Some(ChainRefusal::NotCommunal)),
        (owned, Some(owned), None),
        (communal, Some(communal), Some(ChainRefusal::NotOwned)),
        (owned, Some(communal), Some(ChainRefusal::BadInitial)),
    ] {
        assert_eq!(rt; refused_first(rt.alloc(), namespace, signer), Some(refusal));
    }
}

// Whether the line, ends of times and what is told of the capability handed on for times below them, is right.
fn is_chain(alloc: Global, line: &str) -> Option<bool> {
    let (ends, due) = line.split_once(": ")?;
    shows(alloc, &refused(&handed_on(alloc, ends)?)?, due)
}

// The third has as many delegations as there may be, and the fourth one more.
const CHAINS: &str = "20 10: None
20 10 11: Some(AreaGrows { at: 3 })
20 20 20 20 20 20 20 20 20 20 20 20 20 20 20 20: None
20 20 20 20 20 20 20 20 20 20 20 20 20 20 20 20 20: Some(TooManyDelegations)";

#[test]
fn chains(rt: HostRuntime) {
    for line in CHAINS.lines() {
        assert_eq!(rt; is_chain(rt.alloc(), line), Some(true), "{line}");
    }
}

// Why a capability is refused that is handed on with an empty signature.
fn refused_forged(alloc: Global, capability: &mut Capability) -> Option<Option<ChainRefusal>> {
    let area = until(alloc, Some(5))?;
    append(capability, delegation(area, 0x60, Vec::new(alloc))?)?;
    refused(capability)
}

// The same of a capability that is handed on before.
fn refused_later(alloc: Global) -> Option<Option<ChainRefusal>> {
    refused_forged(alloc, &mut handed_on(alloc, "20")?)
}

#[test]
fn an_empty_signature(rt: HostRuntime) {
    let refusal = ChainRefusal::BadSignature { at: 2 };
    assert_eq!(rt; refused_later(rt.alloc()), Some(Some(refusal)));
}

// Whether the words spell a copy of the capability.
fn copy_is(alloc: Global, capability: &Capability, words: &str) -> Option<bool> {
    let mut text = Vec::new(alloc);
    capability.copy().ok()?.encode(&mut text).ok()?;
    spells(alloc, words, &text)
}

// Whether the words spell the granted area.
fn grant_is(alloc: Global, capability: &Capability, words: &str) -> Option<bool> {
    let mut text = Vec::new(alloc);
    capability.granted_area().ok()?.encode(&mut text).ok()?;
    spells(alloc, words, &text)
}

// Whether the words spell what is signed to hand the capability on to 56.
fn message_is(alloc: Global, capability: &Capability, area: &Area, words: &str) -> Option<bool> {
    let receiver = UserKey::from_bytes(key(0x56))?;
    let message = capability.handover(area, &receiver).ok()?;
    spells(alloc, words, &message)
}

// Appends a delegation to 56 with a signature that the words spell.
fn append_signed(
    alloc: Global,
    capability: &mut Capability,
    area: Area,
    words: &str,
) -> Option<()> {
    let signature = joined(alloc, words)?;
    append(capability, delegation(area, 0x56, signature)?)
}

// The words for a capability: its copy and its grant before it is handed on, the message, the signature, and its copy and
// its grant behind.
struct Words {
    before: &'static str,
    granted: &'static str,
    message: &'static str,
    signature: &'static str,
    after: &'static str,
    handed: &'static str,
}

const COMMUNAL: Words = Words {
    before: "01 KEY_4E KEY_55 00",
    granted: "01 KEY_55 00000000000000000000",
    message: "48 01 KEY_4E KEY_55 00 01 KEY_55 00000000000000000000 KEY_56",
    signature: "HANDED_COMMUNAL",
    after: "01 KEY_4E KEY_55 01 01 KEY_55 00000000000000000000 KEY_56 0020 HANDED_COMMUNAL",
    handed: "01 KEY_55 00000000000000000000",
};

const OWNED: Words = Words {
    before: "03 KEY_4F KEY_55 0020 INITIAL 00",
    granted: "0000000000000000000000",
    message: "48 03 KEY_4F KEY_55 0020 INITIAL 00 01 KEY_55 000000000000000000 010000000000000014 KEY_56",
    signature: "HANDED_OWNED",
    after: "03 KEY_4F KEY_55 0020 INITIAL 01 01 KEY_55 000000000000000000 010000000000000014 KEY_56 0020 HANDED_OWNED",
    handed: "01 KEY_55 000000000000000000 010000000000000014",
};

// Whether the words are those of the capability, handed on for the area.
fn is_spelled(
    alloc: Global,
    capability: &mut Capability,
    area: Area,
    words: &Words,
) -> Option<bool> {
    let before = copy_is(alloc, capability, words.before)?
        && grant_is(alloc, capability, words.granted)?
        && message_is(alloc, capability, &area, words.message)?;
    append_signed(alloc, capability, area, words.signature)?;
    Some(before && is_handed(alloc, capability, words)?)
}

// Whether the words are those of the capability behind.
fn is_handed(alloc: Global, capability: &Capability, words: &Words) -> Option<bool> {
    Some(
        copy_is(alloc, capability, words.after)?
            && grant_is(alloc, capability, words.handed)?
            && refused(capability)?.is_none(),
    )
}

// Whether the communal capability, handed on for all that it grants, is spelled so.
fn communal_is_spelled(alloc: Global) -> Option<bool> {
    let mut capability = first(alloc, 0x4e, None)?;
    let area = capability.granted_area().ok()?;
    is_spelled(alloc, &mut capability, area, &COMMUNAL)
}

// Whether the owned capability, handed on for times below 20, is spelled so.
fn owned_is_spelled(alloc: Global) -> Option<bool> {
    let mut capability = first(alloc, 0x4f, Some(0x4f))?;
    let area = until(alloc, Some(20))?;
    is_spelled(alloc, &mut capability, area, &OWNED)
}

#[test]
fn spellings(rt: HostRuntime) {
    assert_eq!(rt; communal_is_spelled(rt.alloc()), Some(true));
    assert_eq!(rt; owned_is_spelled(rt.alloc()), Some(true));
}

// Whether the first user's signature is the one made elsewhere.
fn initial_is_spelled(alloc: Global) -> Option<bool> {
    let signature = initial_signature(alloc, 0x4f)?.into_vec();
    spells(alloc, "INITIAL", &signature)
}

#[test]
fn initial_signatures(rt: HostRuntime) {
    assert_eq!(rt; initial_is_spelled(rt.alloc()), Some(true));
}

// Hands the first user's capability on to the receiver with its check.
fn delegate(alloc: Global, capability: &mut Capability, receiver: UserKey) -> Option<()> {
    capability.check(&OpenScheme).ok()?;
    let area = until(alloc, Some(20))?;
    let signature = handover(alloc, capability, &area, 0x55)?;
    capability
        .delegate(&OpenScheme, area, receiver, signature)
        .ok()
}

// Whether the first user's communal capability, handed on so, is that of 56, and its delegations are a chain.
fn is_delegated(alloc: Global) -> Option<bool> {
    let receiver = UserKey::from_bytes(key(0x56))?;
    let mut capability = first(alloc, 0x4e, None)?;
    delegate(alloc, &mut capability, receiver)?;
    let is_receiver = capability.receiver() == receiver;
    Some(is_receiver && Chain::new(capability.chain.into_vec()).is_some())
}

#[test]
fn handing_on(rt: HostRuntime) {
    assert_eq!(rt; is_delegated(rt.alloc()), Some(true));
}

#[test]
fn the_laws_can_be_called() {
    validity();
}
