//! Why a row is not authorised.

ghost use Rattle.std.specs.Prelude.{◌≡◌, ◌<◌, length, None, IsErrOf};
ghost use Rattle.spelling.specs.Answers.{Judges};
ghost use Rattle.spelling.specs.declared.ending.End.TheVariants as ends;
ghost use Rattle.mc_cap.specs.Valid.{beginning_refusal};
ghost use Rattle.auth_entry.specs.Authorised.{CheckAsks, capability_refusal, claim_refusal, early_refusal, entry_refusal, grant_refusal, row_refusal};

use cap_codec::RawRow;
use mc_cap::{Capability, Mode, RowRefusal};
use scheme_core::Verify;
use spelling::End;
use std::alloc::Global;
use willow_entry::{Row, put_row_message};
use willow_path::NamespaceKey;

/// Whether the row is authorised in the namespace by the rules of the scheme (Willow Data Model,
/// Meadowcap): its entry and its capability are of the namespace; the capability is for writing and valid;
/// its grant includes the entry; and its receiver signed the letter E and the entry's spelling. It is
/// refused with the first of these that fails, in this order. What needs no memory is judged before any is asked for.
#[tactic(auto, unfolding(crate::specs::Authorised::row_refusal, crate::specs::Authorised::early_refusal))]
pub fn check_row<S: Verify>(
    alloc: Global,
    scheme: &S,
    namespace: &NamespaceKey,
    row: &RawRow,
) -> Result<(), End<RowRefusal>>
    ensures answer { Judges result (row_refusal S.rules namespace.now row.now) }
    ensures early { IsErrOf result ends.NoMemory → early_refusal S.rules namespace.now row.now ≡ None }
    ensures asked { IsErrOf result ends.NoMemory → CheckAsks row.now }
{
    if let Some(refusal) = claim_refusal(namespace, row) {
        return Err(End::Refused(refusal));
    }
    check_capability(scheme, &row.token().capability)?;
    check_entry(alloc, scheme, row)
}

/// Why the claim fails, where it does: entry and capability are to be of the namespace, and the capability for
/// writing.
#[tactic(auto, unfolding(crate::specs::Authorised::claim_refusal))]
pub fn claim_refusal(namespace: &NamespaceKey, row: &RawRow) -> Option<RowRefusal>
    ensures { result ≡ claim_refusal namespace.now row.now }
{
    let capability = &row.token().capability;
    if row.entry().namespace != *namespace || capability.namespace != *namespace {
        return Some(RowRefusal::WrongNamespace);
    }
    match capability.mode {
        Mode::Write => None,
        Mode::Read => Some(RowRefusal::NotWrite),
    }
}

/// The third condition: whether the capability is valid.
pub fn check_capability<S: Verify>(
    scheme: &S,
    capability: &Capability,
) -> Result<(), End<RowRefusal>>
    ensures answer { Judges result (capability_refusal S.rules capability.now) }
    ensures begun { IsErrOf result ends.NoMemory → beginning_refusal S.rules capability.now ≡ None }
    ensures handed_on { IsErrOf result ends.NoMemory → 0 < length capability.now.chain }
{
    match capability.check(scheme) {
        Ok(()) => Ok(()),
        Err(End::Refused(refusal)) => Err(End::Refused(RowRefusal::Chain(refusal))),
        Err(End::NoMemory) => Err(End::NoMemory),
    }
}

// The fourth condition, which matters once the capability is valid: why its grant does not include the entry, where it
// does not.
pub(crate) fn grant_refusal(row: &RawRow) -> Option<RowRefusal>
    ensures { result ≡ grant_refusal row.now.token.capability row.now.entry }
{
    let (entry, capability) = (row.entry(), &row.token().capability);
    if capability.grants(&entry.subspace, &entry.path, entry.timestamp) {
        None
    } else {
        Some(RowRefusal::OutsideGrant)
    }
}

/// The last two conditions, which matter once the capability is valid: whether its grant includes the
/// entry, and its receiver signed it. Only the signature needs memory.
#[tactic(auto, unfolding(crate::specs::Authorised::entry_refusal))]
pub fn check_entry<S: Verify>(
    alloc: Global,
    scheme: &S,
    row: &RawRow,
) -> Result<(), End<RowRefusal>>
    ensures answer { Judges result (entry_refusal S.rules row.now) }
    ensures granted { IsErrOf result ends.NoMemory → grant_refusal row.now.token.capability row.now.entry ≡ None }
{
    if let Some(refusal) = grant_refusal(row) {
        return Err(End::Refused(refusal));
    }
    let mut message = Vec::new(alloc);
    put_row_message(row, &mut message)?;
    let token = row.token();
    let receiver = token.capability.receiver();
    if !scheme.verify_user(&receiver, &message, token.signature.as_slice()) {
        return Err(End::Refused(RowRefusal::BadEntrySignature));
    }
    Ok(())
}
