//! How a side greets the other: what comes of a hello and of a proof.

ghost use Rattle.std.specs.Prelude.{◌≡◌, ◌⊎◌, ◌≤◌, ◌++◌, true, map, option_map, IfOk, OnOk, None};
ghost use Rattle.spelling.specs.Answers.{Judges};
ghost use Rattle.willow_area.specs.AreaBox.{area_box};
ghost use Rattle.mc_cap.specs.Signature.{signature_spelling};
ghost use Rattle.sync_hello.specs.Checked.{hello_refusal};
ghost use Rattle.sync_hello.specs.HelloForm.{HasSpelling};
ghost use Rattle.sync_link.specs.Asking.{AsksOnce, AsksWhere, CountsSign, SignsOnce};
ghost use Rattle.sync_link.specs.Sound.{AreSound};
ghost use Rattle.sync_link.specs.Talking.{AreOffered, BeginsExchange, BeginsOffered, HearsHello, HearsProof, IsSigned, Keeps, Once, Proves, SpeaksSome, UnsignedIf, Writes, area_between, box_between, first_with, own_message, proof_cause, said_to_hello, said_to_proof, version_between};

use crate::side::awaited::{Awaited, Cause, Exchange};
use crate::side::participant::Participant;
use crate::side::speak::speak;
use crate::side::standing::Stop;
use area_interest::{Interest, offered};
use block_store::Snapshot;
use mc_cap::Signature;
use scheme_core::{MAX_SIGNATURE, Signer, Verify};
use spelling::{End, NoMemory, put_bytes, put_u16};
use std::alloc::Global;
use sync_core::{Role, SyncCore};
use sync_hello::{
    Hello, HelloRefusal, check_hello, check_proof, common_area, proof_message, session_version,
};
use sync_msg::ItemReader;
use willow_area::Area;
use willow_entry::Row;

// What comes of the other side's hello.
pub(crate) fn hear_hello<R: Row, S: Verify, K: Signer>(
    participant: &mut Participant<R, S>,
    signer: &mut K,
    other: Hello,
    out: &mut Vec<u8>,
) -> Result<Awaited<R>, Stop>
    requires own { HasSpelling participant.old.hello }
    requires other { HasSpelling other }
    requires unsigned { participant.old.signature ≡ None }
    ensures keeps { Keeps participant.old participant.new }
    ensures hears { IfOk result (λ due. HearsHello participant.old participant.new other due out.old.items out.new.items (hello_refusal S.rules participant.old.namespace other)) }
    ensures signs { OnOk result (IsSigned (K.gives signer.old) participant.old participant.new other) }
    ensures signing { SignsOnce K.gives K.asks K.left K.faults participant.old.signature participant.new.signature signer.old signer.new result }
    ensures due { AsksWhere participant.old.signature participant.new.signature signer.old signer.new ((participant.old.role ≡ Role.Answerer) × (hello_refusal S.rules participant.old.namespace other ≡ None)) }
{
    match check_hello(&participant.scheme, &participant.namespace, &other) {
        Ok(()) => {
            greet_back(participant, signer, &other, out)?;
            Ok(Awaited::Proof(other))
        }
        Err(End::Refused(cause)) => Ok(Awaited::Nothing(Cause::Hello(cause))),
        Err(End::NoMemory) => Err(Stop::NoMemory),
    }
}

// The answerer says its hello and its proof to a hello that passes.
fn greet_back<R: Row, S: Verify, K: Signer>(
    participant: &mut Participant<R, S>,
    signer: &mut K,
    other: &Hello,
    out: &mut Vec<u8>,
) -> Result<(), Stop>
    requires own { HasSpelling participant.old.hello }
    requires other { HasSpelling other.now }
    requires unsigned { participant.old.signature ≡ None }
    requires passes { hello_refusal S.rules participant.old.namespace other.now ≡ None }
    ensures keeps { Keeps participant.old participant.new }
    ensures writes { OnOk result (Writes participant.new.signature (said_to_hello participant.old.role participant.old.hello) out.old.items out.new.items) }
    ensures unsigned { OnOk result (UnsignedIf participant.old.role participant.new.signature) }
    ensures signs { OnOk result (IsSigned (K.gives signer.old) participant.old participant.new other.now) }
    ensures signing { SignsOnce K.gives K.asks K.left K.faults participant.old.signature participant.new.signature signer.old signer.new result }
    ensures due { AsksWhere participant.old.signature participant.new.signature signer.old signer.new ((participant.old.role ≡ Role.Answerer) × (hello_refusal S.rules participant.old.namespace other.now ≡ None)) }
{
    match participant.role {
        Role::Caller => Ok(()),
        Role::Answerer => {
            participant.hello.encode(out)?;
            prove(participant, signer, other, out)
        }
    }
}

// Signs the own proof, keeps the signature and writes it.
fn prove<R: Row, S: Verify, K: Signer>(
    participant: &mut Participant<R, S>,
    signer: &mut K,
    other: &Hello,
    out: &mut Vec<u8>,
) -> Result<(), Stop>
    requires own { HasSpelling participant.old.hello }
    requires other { HasSpelling other.now }
    requires unsigned { participant.old.signature ≡ None }
    ensures keeps { Keeps participant.old participant.new }
    ensures proves { OnOk result (Proves (K.gives signer.old) participant.old participant.new other.now out.old.items out.new.items) }
    ensures signing { SignsOnce K.gives K.asks K.left K.faults participant.old.signature participant.new.signature signer.old signer.new result }
{
    let signature = sign_proof(participant, signer, other)?;
    write_signature(&signature, out)?;
    participant.signature = Some(signature);
    Ok(())
}

// Signs the message of the own proof.
fn sign_proof<R: Row, S: Verify, K: Signer>(
    participant: &Participant<R, S>,
    signer: &mut K,
    other: &Hello,
) -> Result<Signature, Stop>
    requires own { HasSpelling participant.now.hello }
    requires other { HasSpelling other.now }
    requires unsigned { participant.now.signature ≡ None }
    ensures gives { K.gives signer.new ≡ K.gives signer.old }
    ensures given { IfOk result (λ signature. K.gives signer.old (own_message participant.now.role participant.now.hello other.now) signature ≡ true) }
    ensures asks { AsksOnce K.asks participant.now.signature signer.old signer.new }
    ensures faults { CountsSign participant.now.signature (K.left signer.old) (K.faults signer.old) (K.faults signer.new) result }
{
    let message = own_message(
        participant.alloc,
        participant.role,
        &participant.hello,
        other,
    )?;
    sign(participant.alloc, signer, &message)
}

// The message of the own proof.
fn own_message(alloc: Global, role: Role, own: &Hello, other: &Hello) -> Result<Vec<u8>, NoMemory>
    requires own { HasSpelling own.now }
    requires other { HasSpelling other.now }
    ensures { IfOk result (λ message. message.items ≡ own_message role own.now other.now) }
{
    match role {
        Role::Caller => proof_message(alloc, Role::Caller, own, other),
        Role::Answerer => proof_message(alloc, Role::Answerer, other, own),
    }
}

// The signature of a message.
fn sign<K: Signer>(alloc: Global, signer: &mut K, message: &[u8]) -> Result<Signature, Stop>
    ensures gives { K.gives signer.new ≡ K.gives signer.old }
    ensures given { IfOk result (λ signature. K.gives signer.old message.now signature ≡ true) }
    ensures asks { K.asks signer.old signer.new }
    ensures faults { CountsSign None (K.left signer.old) (K.faults signer.old) (K.faults signer.new) result }
{
    match signer.sign(alloc, message) {
        Ok(bytes) => match Signature::new(bytes) {
            Some(signature) => Ok(signature),
            None => unreachable!(),
        },
        Err(End::Refused(_)) => Err(Stop::SignFault),
        Err(End::NoMemory) => Err(Stop::NoMemory),
    }
}

// Appends the field of a signature.
fn write_signature(signature: &Signature, out: &mut Vec<u8>) -> Result<(), NoMemory>
    ensures { OnOk result (out.new.items ≡ out.old.items ++ signature_spelling signature.now) }
{
    let bytes = signature.as_slice();
    put_u16(out, bytes.len() as u16)?;
    put_bytes(out, bytes)
}

// What comes of the other side's proof.
pub(crate) fn hear_proof<R: Row, S: Verify, K: Signer>(
    participant: &mut Participant<R, S>,
    signer: &mut K,
    other: &Hello,
    proof: &[u8],
    out: &mut Vec<u8>,
) -> Result<Awaited<R>, Stop>
    requires own { HasSpelling participant.old.hello }
    requires speaks { SpeaksSome participant.old.hello }
    requires other { HasSpelling other.now }
    requires other_speaks { SpeaksSome other.now }
    requires rows { AreSound (map R.value participant.old.snapshot) }
    requires unsigned { UnsignedIf participant.old.role participant.old.signature }
    ensures keeps { Keeps participant.old participant.new }
    ensures hears { IfOk result (λ due. HearsProof R.value participant.old participant.new other.now due out.old.items out.new.items (proof_cause S.rules participant.old.role participant.old.hello other.now proof.now)) }
    ensures signs { OnOk result (IsSigned (K.gives signer.old) participant.old participant.new other.now) }
    ensures signing { SignsOnce K.gives K.asks K.left K.faults participant.old.signature participant.new.signature signer.old signer.new result }
    ensures calls { AsksWhere participant.old.signature participant.new.signature signer.old signer.new (participant.old.role ≡ Role.Caller) }
    ensures accepts { ((signer.new ≡ signer.old) × (participant.new.signature ≡ participant.old.signature)) ⊎ (proof_cause S.rules participant.old.role participant.old.hello other.now proof.now ≡ None) }
{
    match judge_proof(participant, other, proof) {
        Ok(()) => {
            prove_back(participant, signer, other, out)?;
            let exchange = begin_exchange(participant, other, out)?;
            Ok(Awaited::Items(exchange))
        }
        Err(End::Refused(cause)) => Ok(Awaited::Nothing(Cause::Hello(cause))),
        Err(End::NoMemory) => Err(Stop::NoMemory),
    }
}

// Whether the proof is that of the other side.
fn judge_proof<R: Row, S: Verify>(
    participant: &Participant<R, S>,
    other: &Hello,
    proof: &[u8],
) -> Result<(), End<HelloRefusal>>
    requires own { HasSpelling participant.now.hello }
    requires other { HasSpelling other.now }
    ensures { Judges result (proof_cause S.rules participant.now.role participant.now.hello other.now proof.now) }
{
    let own = &participant.hello;
    match participant.role {
        Role::Caller => check_proof(
            participant.alloc,
            &participant.scheme,
            Role::Answerer,
            own,
            other,
            proof,
        ),
        Role::Answerer => check_proof(
            participant.alloc,
            &participant.scheme,
            Role::Caller,
            other,
            own,
            proof,
        ),
    }
}

// The caller says its proof to one that is accepted.
fn prove_back<R: Row, S: Verify, K: Signer>(
    participant: &mut Participant<R, S>,
    signer: &mut K,
    other: &Hello,
    out: &mut Vec<u8>,
) -> Result<(), Stop>
    requires own { HasSpelling participant.old.hello }
    requires other { HasSpelling other.now }
    requires unsigned { UnsignedIf participant.old.role participant.old.signature }
    ensures keeps { Keeps participant.old participant.new }
    ensures writes { OnOk result (Writes participant.new.signature (said_to_proof participant.old.role) out.old.items out.new.items) }
    ensures once { OnOk result (Once participant.old.signature participant.new.signature) }
    ensures signs { OnOk result (IsSigned (K.gives signer.old) participant.old participant.new other.now) }
    ensures signing { SignsOnce K.gives K.asks K.left K.faults participant.old.signature participant.new.signature signer.old signer.new result }
    ensures calls { AsksWhere participant.old.signature participant.new.signature signer.old signer.new (participant.old.role ≡ Role.Caller) }
{
    match participant.role {
        Role::Caller => prove(participant, signer, other, out),
        Role::Answerer => Ok(()),
    }
}

// Begins the exchange of the rows that are offered in the area that both may read, in the version that both speak, and says what
// is due first.
fn begin_exchange<R: Row, S: Verify>(
    participant: &Participant<R, S>,
    other: &Hello,
    out: &mut Vec<u8>,
) -> Result<Exchange<R>, NoMemory>
    requires rows { AreSound (map R.value participant.now.snapshot) }
    requires speaks { SpeaksSome participant.now.hello }
    requires other_speaks { SpeaksSome other.now }
    ensures { IfOk result (λ exchange. BeginsOffered R.value participant.now other.now exchange out.old.items out.new.items) }
{
    let area = area_between(participant.role, &participant.hello, other)?;
    let rows = offered_in(
        participant.alloc,
        &participant.snapshot,
        &area,
        &participant.interest,
    )?;
    begin_over(participant, other, area, rows, out)
}

// The rows that are offered where this is the area that both may read, if there is one. None is copied.
fn offered_in<R: Row>(
    alloc: Global,
    snapshot: &Snapshot<R>,
    area: &Option<Area>,
    limits: &Interest,
) -> Result<Snapshot<R>, NoMemory>
    requires rows { AreSound (map R.value snapshot.now) }
    ensures { IfOk result (λ rows. AreOffered limits.now (option_map area_box area.now) (map R.value snapshot.now) (map R.value rows)) }
{
    match area {
        None => snapshot.share(),
        Some(area) => offered(alloc, snapshot, area, limits),
    }
}

// Begins it over these rows.
fn begin_over<R: Row, S: Verify>(
    participant: &Participant<R, S>,
    other: &Hello,
    area: Option<Area>,
    rows: Snapshot<R>,
    out: &mut Vec<u8>,
) -> Result<Exchange<R>, NoMemory>
    requires rows { AreSound (map R.value rows) }
    requires area { option_map area_box area ≡ box_between participant.now.role participant.now.hello other.now }
    requires speaks { SpeaksSome participant.now.hello }
    requires other_speaks { SpeaksSome other.now }
    ensures begins { IfOk result (λ exchange. BeginsExchange (first_with participant.now other.now (map R.value rows)) exchange out.old.items out.new.items) }
    ensures area { IfOk result (λ exchange. exchange.area ≡ area) }
{
    let version = version_between(participant.role, &participant.hello, other);
    let both = copy_of(&area)?;
    let mut core = SyncCore::begin(participant.alloc, version, participant.role, rows, area)?;
    speak(&mut core, out)?;
    Ok(Exchange {
        core,
        reader: ItemReader::new(participant.alloc, version),
        area: both,
    })
}

// A copy of the area, if there is one.
fn copy_of(area: &Option<Area>) -> Result<Option<Area>, NoMemory>
    ensures { IfOk result (λ copy. copy ≡ area.now) }
{
    match area {
        None => Ok(None),
        Some(area) => Ok(Some(area.copy()?)),
    }
}

// The version of the session.
fn version_between(role: Role, own: &Hello, other: &Hello) -> u8
    ensures between { result ≡ version_between role own.now other.now }
    ensures some { SpeaksSome own.now → SpeaksSome other.now → 1 ≤ result }
    ensures known { result ≤ 2 }
{
    match role {
        Role::Caller => session_version(own, other),
        Role::Answerer => session_version(other, own),
    }
}

// The area that both may read.
fn area_between(role: Role, own: &Hello, other: &Hello) -> Result<Option<Area>, NoMemory>
    ensures area { IfOk result (λ area. area ≡ area_between role own.now other.now) }
    ensures boxed { IfOk result (λ area. option_map area_box area ≡ box_between role own.now other.now) }
{
    match role {
        Role::Caller => common_area(own, other),
        Role::Answerer => common_area(other, own),
    }
}
