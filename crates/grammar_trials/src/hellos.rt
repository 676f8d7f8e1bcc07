//! Hellos that are spelled, read and not read, refused, proved, and compared.

ghost use Rattle.std.specs.Prelude.{◌≡◌, ◌≤◌, length, slice_index, IfSome, IsTrue};
ghost use Rattle.mc_cap.specs.Forms.{capability_spelling};
ghost use Rattle.sync_hello.specs.HelloForm.{HasSpelling};

use crate::keys::{key, user};
use crate::tables::shows;
use mc_cap::{Capability, Chain, Mode};
use scheme_core::{OpenScheme, OpenSigner, Signer};
use spelling::End;
use std::alloc::Global;
use sync_hello::{
    Hello, HelloRefusal, HelloStep, check_hello, check_proof, common_area, laws, proof_message,
    read_hello,
};
use sync_msg::Role;
use willow_area::{Area, TimeRange};
use willow_entry::MAX_FRAME;
use willow_path::{NamespaceKey, Path, UserKey};

// The number of bytes of a whole hello; or none where more is asked for, 0 where the bytes are bad.
fn told(alloc: Global, bytes: &[u8]) -> Option<usize> {
    match read_hello(alloc, bytes) {
        Ok(HelloStep::Whole { hello: _, taken }) => Some(taken),
        Ok(HelloStep::More) => None,
        Ok(HelloStep::Bad) => Some(0),
        Err(_) => Some(1),
    }
}

#[test]
fn answers(rt: HostRuntime) {
    for (bytes, due) in [
        (b"".as_slice(), None),
        (b"WS".as_slice(), None),
        (b"WT".as_slice(), Some(0)),
        (b"WSY\x00".as_slice(), None),
    ] {
        assert_eq!(rt; told(rt.alloc(), bytes), due);
    }
}

// A communal capability of the user in the namespace 4e.
fn capability(alloc: Global, mode: Mode) -> Option<Capability> {
    Some(Capability {
        mode,
        namespace: NamespaceKey::from_bytes(key(0x4e))?,
        user: user()?,
        initial: None,
        chain: Chain::empty(alloc),
    })
}

// The user's subspace from a time on.
fn from_time(alloc: Global, start: u64) -> Option<Area> {
    Some(Area {
        subspace: Some(user()?),
        path: Path::empty(alloc),
        times: TimeRange::new(start, None)?,
    })
}

// Whether the capability fits its field in a hello.
fn is_short(alloc: Global, capability: &Capability) -> bool
    ensures { IsTrue result → length (capability_spelling capability.now) ≤ MAX_FRAME }
{
    let mut text = Vec::new(alloc);
    capability.encode(&mut text).is_ok() && text.len() <= MAX_FRAME
}

// The hello of these fields.
fn hello(version: u8, ask: Area, capability: Capability) -> Hello
    ensures { result ≡ record { version = version; nonce = result.nonce; ask = ask; capability = capability } }
{
    Hello {
        version,
        nonce: [7; 16],
        ask,
        capability,
    }
}

// A hello that passes.
fn good(alloc: Global, start: u64) -> Option<Hello>
    ensures { IfSome result (λ h. HasSpelling h) }
{
    let capability = capability(alloc, Mode::Read)?;
    let ask = from_time(alloc, start)?;
    if is_short(alloc, &capability) {
        Some(hello(1, ask, capability))
    } else {
        None
    }
}

// The spelling of a hello that passes.
fn text(alloc: Global) -> Option<Vec<u8>> {
    let hello = good(alloc, 5)?;
    let mut out = Vec::new(alloc);
    hello.encode(&mut out).ok()?;
    Some(out)
}

// Whether a hello that passes has 136 bytes, begins so, and is read again, but not without its last byte.
fn is_spelled(alloc: Global) -> Option<bool> {
    let mut text = text(alloc)?;
    let begins = text.len() == 136 && text.starts_with(b"WSY\x01\x07\x07");
    let whole = told(alloc, &text) == Some(136);
    text.truncate(135);
    Some(begins && whole && told(alloc, &text).is_none())
}

#[test]
fn spellings(rt: HostRuntime) {
    assert_eq!(rt; is_spelled(rt.alloc()), Some(true));
}

// What is asked for: all, or the user's subspace.
fn asked(alloc: Global, all: bool) -> Option<Area> {
    if all {
        Some(Area::full(alloc))
    } else {
        from_time(alloc, 0)
    }
}

// Whether this is answered to a hello of these fields, in the namespace.
fn is_answered(
    alloc: Global,
    version: u8,
    namespace: u8,
    mode: Mode,
    all: bool,
    due: &str,
) -> Option<bool> {
    let namespace = NamespaceKey::from_bytes(key(namespace))?;
    let capability = capability(alloc, mode)?;
    let hello = hello(version, asked(alloc, all)?, capability);
    shows(alloc, &check_hello(&OpenScheme, &namespace, &hello), due)
}

#[test]
fn refusals(rt: HostRuntime) {
    let (read, write) = (Mode::Read, Mode::Write);
    for (version, namespace, mode, all, due) in [
        (1, 0x4e, read, false, "Ok(())"),
        (0, 0x4f, write, false, "Err(Refused(VersionUnknown))"),
        (1, 0x50, write, false, "Err(Refused(WrongNamespace))"),
        (1, 0x4e, write, false, "Err(Refused(NotRead))"),
        (1, 0x4e, read, true, "Err(Refused(AskOutsideGrant))"),
    ] {
        let answered = is_answered(rt.alloc(), version, namespace, mode, all, due);
        assert_eq!(rt; answered, Some(true), "{due}");
    }
}

// The signature of the open key of this byte.
fn sign(alloc: Global, byte: u8, message: &[u8]) -> Option<Vec<u8>> {
    let mut signer = OpenSigner::new(UserKey::from_bytes(key(byte))?);
    signer.sign(alloc, message).ok()
}

// What is answered to the caller's proof, signed by the open key of this byte, as that of a side.
fn judged(
    alloc: Global,
    side: Role,
    signer: u8,
    caller: &Hello,
    answerer: &Hello,
) -> Option<Result<(), End<HelloRefusal>>>
    requires caller { HasSpelling caller.now }
    requires answerer { HasSpelling answerer.now }
{
    let message = proof_message(alloc, Role::Caller, caller, answerer).ok()?;
    let signature = sign(alloc, signer, &message)?;
    Some(check_proof(alloc, &OpenScheme, side, caller, answerer, &signature))
}

// Whether this is answered to such a proof of two hellos that pass.
fn is_judged(alloc: Global, side: Role, signer: u8, due: &str) -> Option<bool> {
    let caller = good(alloc, 5)?;
    let answerer = good(alloc, 7)?;
    shows(
        alloc,
        &judged(alloc, side, signer, &caller, &answerer)?,
        due,
    )
}

#[test]
fn proofs(rt: HostRuntime) {
    let bad = "Err(Refused(BadProof))";
    for (side, signer, due) in [
        (Role::Caller, 0x55, "Ok(())"),
        (Role::Answerer, 0x55, bad),
        (Role::Caller, 0x56, bad),
    ] {
        assert_eq!(rt; is_judged(rt.alloc(), side, signer, due), Some(true));
    }
}

// The first time of what two hellos have in common.
fn start_of(one: &Hello, other: &Hello) -> Option<u64> {
    match common_area(one, other) {
        Ok(Some(area)) => Some(area.times.start()),
        _ => None,
    }
}

// The first time of what two hellos have in common that ask from these times on.
fn common_start(alloc: Global, one: u64, other: u64) -> Option<u64> {
    let one = good(alloc, one)?;
    let other = good(alloc, other)?;
    start_of(&one, &other)
}

#[test]
fn common_areas(rt: HostRuntime) {
    for (one, other) in [(5, 7), (7, 5)] {
        assert_eq!(rt; common_start(rt.alloc(), one, other), Some(7));
    }
}

#[test]
fn the_laws_can_be_called() {
    laws::limits();
    laws::readers();
    laws::one_spelling();
    laws::one_answer();
    laws::passed_exactly();
    laws::granted();
}
