//! The signatures of rows, many by one call.

ghost use Rattle.std.specs.Prelude.{◌≡◌, ◌++◌, not, map, filter, IfOk, OnOk};
ghost use Rattle.spelling.specs.Answers.{cause_if};
ghost use Rattle.scheme_core.specs.Claims.{accepts_claim};
ghost use Rattle.scheme_core.specs.Rules.{Rules};
ghost use Rattle.mc_cap.specs.declared.refusal.RowRefusal.{RowRefusal};
ghost use Rattle.auth_entry.specs.Batch.{awaits_signature, is_signed, pending_refusal, pending_signed};

use crate::chunks;
use crate::turns::causes_by_turns;
use crate::work::{Sharing, work_of};
use cap_codec::RawRow;
use mc_cap::RowRefusal;
use scheme_core::{Claim, Scheme, Verify};
use spelling::NoMemory;
use std::alloc::Global;
use std::thread::Threads;
use willow_entry::Row;

// What stands in front of an entry that is signed.
const LETTER: &[u8] = b"E";

/// A row, and why it is refused before its signature is checked, where it is.
#[derive(Drop)]
pub(crate) struct Pending<'r> {
    pub(crate) row: &'r RawRow,
    pub(crate) cause: Option<RowRefusal>,
}

// Whether the row's signature is to be checked.
fn awaits_signature(pending: &Pending) -> bool
    ensures { result ≡ awaits_signature pending.now }
{
    pending.cause.is_none()
}

// The signature of the row's entry, said to be that of the capability's receiver. No message is copied.
#[tactic(auto, unfolding(willow_entry::specs::Message::entry_message))]
fn claim_of<'r>(row: &'r RawRow) -> Claim<'r>
    ensures { (rules : Rules) → accepts_claim rules result ≡ is_signed rules row.now }
{
    let token = row.token();
    Claim {
        key: token.capability.receiver(),
        front: LETTER,
        rest: row.entry_bytes(),
        signature: token.signature.as_slice(),
    }
}

// The signatures that are to be checked, in order: of those rows that nothing else refuses.
fn claims<'r>(alloc: Global, pendings: &[Pending<'r>]) -> Result<Vec<Claim<'r>>, NoMemory>
    ensures { (rules : Rules) → IfOk result (λ claims. map (accepts_claim rules) claims.items
        ≡ map (pending_signed rules) (filter awaits_signature pendings.now)) }
{
    Ok(
        pendings
            .iter()
            .filter(|pending| awaits_signature(*pending))
            .map(|pending| claim_of(pending.row))
            .collect(alloc)?,
    )
}

// Why each row is refused, where it is, by the answers on the signatures that were to be checked.
fn causes_by<S: Verify>(
    alloc: Global,
    pendings: &[Pending],
    answers: &[bool],
) -> Result<Vec<Option<RowRefusal>>, NoMemory>
    requires { answers.now ≡ map (pending_signed S.rules) (filter awaits_signature pendings.now) }
    ensures { IfOk result (λ causes. causes.items ≡ map (pending_refusal S.rules) pendings.now) }
{
    let mut causes = Vec::with_capacity(alloc, pendings.len())?;
    put_causes_by::<S>(pendings, answers, &mut causes)?;
    Ok(causes)
}

// Appends why each row is refused, where it is, by the same answers.
fn put_causes_by<S: Verify>(
    pendings: &[Pending],
    answers: &[bool],
    causes: &mut Vec<Option<RowRefusal>>,
) -> Result<(), NoMemory>
    requires answers { answers.now ≡ map (pending_signed S.rules) (filter awaits_signature pendings.now) }
    ensures causes { OnOk result (causes.new.items ≡ causes.old.items ++ map (pending_refusal S.rules) pendings.now) }
{
    let mut next = 0;
    'rows: for pending in pendings {
        if awaits_signature(pending) {
            causes.push(signature_cause(answers[next]))?;
            next += 1;
        } else {
            causes.push(pending.cause)?;
        }
    }
    Ok(())
}

/// Why a row is refused, where it is.
pub(crate) fn cause_of<S: Scheme>(
    alloc: Global,
    scheme: &S,
    pending: &Pending,
) -> Result<Option<RowRefusal>, NoMemory>
    ensures { IfOk result (λ cause. cause ≡ pending_refusal S.rules pending.now) }
{
    if !awaits_signature(pending) {
        return Ok(pending.cause);
    }
    let answers = scheme.verify_users(alloc, &[claim_of(pending.row)])?;
    Ok(signature_cause(answers[0]))
}

// Why a row is refused, where it is, of which the signature alone was to be checked.
fn signature_cause(accepted: bool) -> Option<RowRefusal>
    ensures { result ≡ cause_if (not accepted) RowRefusal.BadEntrySignature }
{
    if accepted {
        None
    } else {
        Some(RowRefusal::BadEntrySignature)
    }
}

/// Why each row is refused, where it is. One call verifies their signatures.
pub(crate) fn causes_together<S: Scheme>(
    alloc: Global,
    scheme: &S,
    pendings: &[Pending],
) -> Result<Vec<Option<RowRefusal>>, NoMemory>
    ensures { IfOk result (λ causes. causes.items ≡ map (pending_refusal S.rules) pendings.now) }
{
    let claims = claims(alloc, pendings)?;
    let answers = scheme.verify_users(alloc, &claims)?;
    causes_by::<S>(alloc, pendings, &answers)
}

/// Why each row is refused, where it is.
pub(crate) fn row_causes<S: Scheme>(
    rt: &(impl Threads + Sync),
    alloc: Global,
    scheme: &S,
    sharing: Sharing,
    pendings: &[Pending],
) -> Result<Vec<Option<RowRefusal>>, NoMemory>
    ensures { IfOk result (λ causes. causes.items ≡ map (pending_refusal S.rules) pendings.now) }
{
    if sharing.takes_long(signatures_work(pendings)) {
        causes_by_turns(rt, alloc, scheme, pendings)
    } else if sharing.takes_short() {
        chunks::row_causes(rt, alloc, scheme, pendings)
    } else {
        causes_together(alloc, scheme, pendings)
    }
}

// How much work the signatures are that are to be checked.
fn signatures_work(pendings: &[Pending]) -> usize {
    let mut work: usize = 0;
    for pending in pendings {
        if awaits_signature(pending) {
            work = work.saturating_add(work_of(pending.row.token().signature.as_slice()));
        }
    }
    work
}
