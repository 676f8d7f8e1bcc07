//! One message of a session, taken from the front of the bytes.

ghost use Rattle.std.specs.Prelude.{◌≡◌, ℕ, ◌+◌, ◌<◌, ◌≤◌, ◌^◌, [], length, map, None, IfOk, IsErrOf, OnOk};
ghost use Rattle.cap_codec.specs.Rows.{row_of};
ghost use Rattle.sync_hello.specs.HelloForm.{HasSpelling};
ghost use Rattle.sync_core.specs.Place.{stage_of};
ghost use Rattle.sync_link.specs.Asking.{AsksWhere, SignsOnce};
ghost use Rattle.sync_link.specs.Held.{CountsStep, progress_with};
ghost use Rattle.sync_link.specs.Sound.{AreSound, IsSound};
ghost use Rattle.sync_link.specs.Signing.{OwesIn, SignsNext, SignsStep};
ghost use Rattle.sync_link.specs.Talking.{IsSigned, Keeps, SignsBy, SpeaksSome, UnsignedIf};
ghost use Rattle.sync_link.specs.Taking.{ComesHello, ComesItem, ComesProof, Fits, Holds, IsOpen, TakesOne, due_after, due_behind, read_by, taken_after, taken_behind, taken_of, waiting_side};
ghost use Rattle.sync_link.specs.declared.side.awaited.Awaited.TheVariants as awaited;

use crate::side::awaited::{Awaited, Cause, Exchange};
use crate::side::find::{find_hello, find_item};
use crate::side::greet::{hear_hello, hear_proof};
use crate::side::hear::hear;
use crate::side::lists::Lists;
use crate::side::participant::Participant;
use crate::side::proof::{ProofStep, read_proof};
use crate::side::standing::Stop;
use scheme_core::{Signer, Verify};
use spelling::End;
use sync_core::{CoreRefusal, Stage};
use sync_hello::{Hello, HelloStep};
use sync_msg::{Role, Step};
use willow_entry::Row;

// What came where a hello or a proof is due.
#[derive(Drop)]
pub(crate) enum GreetingTaken<R: Row> {
    // A part of it.
    More,
    // Something else.
    Bad,
    // All of it: what is due behind it, and in how many bytes it stands.
    Next(Awaited<R>, usize),
}

// What came where an item is due.
#[derive(Clone, Copy)]
pub(crate) enum ItemTaken {
    // A part of one.
    More,
    // Something else.
    Bad,
    // An item in so many bytes.
    Taken(usize),
    // An item in so many bytes, which is refused.
    Refused(CoreRefusal, usize),
}

// Takes the other side's hello.
fn take_hello<R: Row, S: Verify, K: Signer>(
    participant: &mut Participant<R, S>,
    signer: &mut K,
    bytes: &[u8],
    out: &mut Vec<u8>,
) -> Result<GreetingTaken<R>, Stop>
    requires own { HasSpelling participant.old.hello }
    requires unsigned { participant.old.signature ≡ None }
    ensures keeps { Keeps participant.old participant.new }
    ensures comes { IfOk result (λ came. ComesHello S.rules participant.old participant.new bytes.now out.old.items out.new.items came) }
    ensures greets { IfOk result (λ came. SignsNext (K.gives signer.old) participant.old participant.new (due_after awaited.Hello came)) }
    ensures signs { OnOk result (SignsBy (K.gives signer.old) participant.old.role participant.old.hello participant.old.signature participant.new.signature) }
    ensures signing { SignsOnce K.gives K.asks K.left K.faults participant.old.signature participant.new.signature signer.old signer.new result }
    ensures due { AsksWhere participant.old.signature participant.new.signature signer.old signer.new ((at : ℕ) → OwesIn (waiting_side S.rules R.value participant.old awaited.Hello at []) bytes.now) }
{
    match find_hello(participant.alloc, bytes)? {
        HelloStep::More => Ok(GreetingTaken::More),
        HelloStep::Bad => Ok(GreetingTaken::Bad),
        HelloStep::Whole { hello, taken } => {
            let due = hear_hello(participant, signer, hello, out)?;
            Ok(GreetingTaken::Next(due, taken))
        }
    }
}

// Takes the proof of the side that said this hello.
fn take_proof<R: Row, S: Verify, K: Signer>(
    participant: &mut Participant<R, S>,
    signer: &mut K,
    other: &Hello,
    bytes: &[u8],
    out: &mut Vec<u8>,
) -> Result<GreetingTaken<R>, Stop>
    requires own { HasSpelling participant.old.hello }
    requires speaks { SpeaksSome participant.old.hello }
    requires other { HasSpelling other.now }
    requires other_speaks { SpeaksSome other.now }
    requires rows { AreSound (map R.value participant.old.snapshot) }
    requires unsigned { UnsignedIf participant.old.role participant.old.signature }
    ensures keeps { Keeps participant.old participant.new }
    ensures comes { IfOk result (λ came. ComesProof S.rules R.value participant.old participant.new other.now bytes.now out.old.items out.new.items came) }
    ensures greets { OnOk result (IsSigned (K.gives signer.old) participant.old participant.new other.now) }
    ensures signs { OnOk result (SignsBy (K.gives signer.old) participant.old.role participant.old.hello participant.old.signature participant.new.signature) }
    ensures signing { SignsOnce K.gives K.asks K.left K.faults participant.old.signature participant.new.signature signer.old signer.new result }
    ensures calls { AsksWhere participant.old.signature participant.new.signature signer.old signer.new (participant.old.role ≡ Role.Caller) }
    ensures due { AsksWhere participant.old.signature participant.new.signature signer.old signer.new ((at : ℕ) → OwesIn (waiting_side S.rules R.value participant.old (awaited.Proof other.now) at []) bytes.now) }
{
    match read_proof(participant.alloc, bytes)? {
        ProofStep::More => Ok(GreetingTaken::More),
        ProofStep::Bad => Ok(GreetingTaken::Bad),
        ProofStep::Whole { signature, taken } => {
            let due = hear_proof(participant, signer, other, signature.as_slice(), out)?;
            Ok(GreetingTaken::Next(due, taken))
        }
    }
}

// Takes an item.
fn take_item<R: Row>(
    exchange: &mut Exchange<R>,
    bytes: &[u8],
    out: &mut Vec<u8>,
    lists: &mut Lists,
) -> Result<ItemTaken, Stop>
    requires reads { stage_of exchange.old.core.doing ≡ Stage.Reading }
    requires sound { IsSound exchange.old.core }
    requires few { exchange.old.reader.taken + length bytes.now < 2 ^ 64 }
    ensures comes { IfOk result (λ came. ComesItem exchange.old exchange.new bytes.now out.old.items out.new.items (map row_of lists.old.rows.items) (map row_of lists.new.rows.items) came) }
    ensures failed { IsErrOf result Stop.SignFault → ⊥ }
{
    match find_item(&mut exchange.reader, bytes) {
        Ok(Step::More) => Ok(ItemTaken::More),
        Ok(Step::Got { item, taken }) => match hear(&mut exchange.core, item, out, lists)? {
            None => Ok(ItemTaken::Taken(taken)),
            Some(cause) => Ok(ItemTaken::Refused(cause, taken)),
        },
        Err(End::Refused(_)) => Ok(ItemTaken::Bad),
        Err(End::NoMemory) => Err(Stop::NoMemory),
    }
}

// Takes the message that is due from the front of the bytes, and answers how many bytes it has. None is answered where
// the bytes are only a part of it, or are none; then they are all read.
#[tactic(auto, using(crate::proofs::Greeting::hello_steps, crate::proofs::Greeting::proof_steps, crate::proofs::Greeting::proof_fits, crate::proofs::Exchanged::item_steps))]
pub(crate) fn take<R: Row, S: Verify, K: Signer>(
    participant: &mut Participant<R, S>,
    due: &mut Awaited<R>,
    signer: &mut K,
    bytes: &[u8],
    out: &mut Vec<u8>,
    lists: &mut Lists,
) -> Result<Option<usize>, Stop>
    requires own { HasSpelling participant.old.hello }
    requires speaks { SpeaksSome participant.old.hello }
    requires rows { AreSound (map R.value participant.old.snapshot) }
    requires fits { Fits participant.old.role participant.old.signature due.old }
    requires open { IsOpen due.old }
    requires few { read_by due.old + length bytes.now < 2 ^ 64 }
    ensures keeps { Keeps participant.old participant.new }
    ensures steps { IfOk result (λ taken. (at : ℕ) → TakesOne S.rules R.value participant.old due.old participant.new due.new at bytes.now taken out.old.items out.new.items lists.old lists.new) }
    ensures counts { IfOk result (λ taken. (at : ℕ) → CountsStep (progress_with S.rules R.value participant.old due.old) (progress_with S.rules R.value participant.new due.new) at bytes.now taken) }
    ensures fits { OnOk result (Fits participant.old.role participant.new.signature due.new) }
    ensures read { IfOk result (λ taken. read_by due.new ≤ read_by due.old + taken_of taken) }
    ensures holds { IfOk result (λ taken. taken ≡ None → Holds S.rules R.value participant.new due.new bytes.now) }
    ensures greets { IfOk result (λ taken. (at : ℕ) → SignsStep (K.gives signer.old) (waiting_side S.rules R.value participant.old due.old) (waiting_side S.rules R.value participant.new due.new) at bytes.now taken) }
    ensures signs { OnOk result (SignsBy (K.gives signer.old) participant.old.role participant.old.hello participant.old.signature participant.new.signature) }
    ensures signing { SignsOnce K.gives K.asks K.left K.faults participant.old.signature participant.new.signature signer.old signer.new result }
    ensures due { AsksWhere participant.old.signature participant.new.signature signer.old signer.new ((at : ℕ) → OwesIn (waiting_side S.rules R.value participant.old due.old at []) bytes.now) }
{
    match due {
        Awaited::Hello => {
            let came = take_hello(participant, signer, bytes, out)?;
            Ok(put(due, came))
        }
        Awaited::Proof(other) => {
            let came = take_proof(participant, signer, other, bytes, out)?;
            Ok(put(due, came))
        }
        Awaited::Items(exchange) => {
            let came = take_item(exchange, bytes, out, lists)?;
            Ok(put_item(due, came))
        }
        Awaited::Nothing(_) => unreachable!(),
    }
}

// Puts what is due behind a hello or a proof in its place, and tells how many bytes that had.
fn put<R: Row>(due: &mut Awaited<R>, came: GreetingTaken<R>) -> Option<usize>
    ensures due { due.new ≡ due_after due.old came }
    ensures taken { result ≡ taken_after came }
{
    match came {
        GreetingTaken::More => None,
        GreetingTaken::Bad => {
            *due = Awaited::Nothing(Cause::Bad);
            None
        }
        GreetingTaken::Next(next, taken) => {
            *due = next;
            Some(taken)
        }
    }
}

// The same behind an item.
fn put_item<R: Row>(due: &mut Awaited<R>, came: ItemTaken) -> Option<usize>
    ensures due { due.new ≡ due_behind due.old came }
    ensures taken { result ≡ taken_behind came }
{
    match came {
        ItemTaken::More => None,
        ItemTaken::Bad => {
            *due = Awaited::Nothing(Cause::Bad);
            None
        }
        ItemTaken::Taken(taken) => Some(taken),
        ItemTaken::Refused(cause, taken) => {
            *due = Awaited::Nothing(Cause::Core(cause));
            Some(taken)
        }
    }
}
