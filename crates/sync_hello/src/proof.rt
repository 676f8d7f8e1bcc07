//! Proofs: each side signs both hellos, so that its capability serves nobody else.

ghost use Rattle.std.specs.Prelude.{◌≡◌, IfOk};
ghost use Rattle.spelling.specs.Answers.{Judges};
ghost use Rattle.mc_cap.specs.Grant.{receiver_of};
ghost use Rattle.sync_hello.specs.HelloForm.{HasSpelling};
ghost use Rattle.sync_hello.specs.Proof.{hello_of, proof_message, proof_refusal, role_byte};

use crate::hello::Hello;
use scheme_core::Verify;
use session_end::HelloRefusal;
use spelling::{End, NoMemory, put_byte};
use std::alloc::Global;
use sync_msg::Role;
use willow_path::UserKey;

/// What a side signs: the letter S, a byte for the side (0 the caller, 1 the answerer), the caller's hello, and the
/// answerer's. It needs hellos whose capabilities have spellings of at most `MAX_FRAME` bytes.
#[tactic(auto, unfolding(crate::specs::Proof::proof_message))]
pub fn proof_message(
    alloc: Global,
    signer: Role,
    caller: &Hello,
    answerer: &Hello,
) -> Result<Vec<u8>, NoMemory>
    requires caller { HasSpelling caller.now }
    requires answerer { HasSpelling answerer.now }
    ensures { IfOk result (λ message. message.items ≡ proof_message signer caller.now answerer.now) }
{
    let mut message = Vec::new(alloc);
    put_byte(&mut message, b'S')?;
    put_byte(&mut message, role_byte(signer))?;
    caller.encode(&mut message)?;
    answerer.encode(&mut message)?;
    Ok(message)
}

/// Whether the signature is the proof of a side: accepted by the rules of the scheme, over the side's message, for the
/// receiver of the side's capability. It is refused with no cause but `BadProof`. It needs hellos whose capabilities
/// have spellings of at most `MAX_FRAME` bytes.
pub fn check_proof<S: Verify>(
    alloc: Global,
    scheme: &S,
    signer: Role,
    caller: &Hello,
    answerer: &Hello,
    signature: &[u8],
) -> Result<(), End<HelloRefusal>>
    requires caller { HasSpelling caller.now }
    requires answerer { HasSpelling answerer.now }
    ensures { Judges result (proof_refusal S.rules signer caller.now answerer.now signature.now) }
{
    let message = proof_message(alloc, signer, caller, answerer)?;
    let receiver = receiver(signer, caller, answerer);
    if !scheme.verify_user(&receiver, &message, signature) {
        return Err(End::Refused(HelloRefusal::BadProof));
    }
    Ok(())
}

// The byte of a side.
fn role_byte(role: Role) -> u8
    ensures { result ≡ role_byte role }
{
    match role {
        Role::Caller => 0,
        Role::Answerer => 1,
    }
}

// Who has the capability of a side.
fn receiver(signer: Role, caller: &Hello, answerer: &Hello) -> UserKey
    ensures { result ≡ receiver_of (hello_of signer caller.now answerer.now).capability }
{
    match signer {
        Role::Caller => caller.capability.receiver(),
        Role::Answerer => answerer.capability.receiver(),
    }
}
