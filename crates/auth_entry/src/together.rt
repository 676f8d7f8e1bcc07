//! Capabilities whose signatures are verified by one call.

ghost use Rattle.std.specs.Prelude.{◌≡◌, ◌+◌, ◌-◌, ◌≤◌, ◌++◌, ◌∷◌, [], length, map, take, drop, sum, IfOk, OnOk};
ghost use Rattle.scheme_core.specs.Claims.{accepts_claim};
ghost use Rattle.auth_entry.specs.Authorised.{capability_refusal};
ghost use Rattle.auth_entry.specs.Places.{carried};

use crate::checks::{capability_cause, capability_work};
use cap_codec::RawRow;
use mc_cap::{Capability, MAX_DELEGATIONS, RowRefusal, SignedMessage};
use scheme_core::{Answered, Claim, Scheme, Verify};
use spelling::NoMemory;
use std::alloc::Global;

// The capabilities of so many rows are verified together: enough for all lanes, few enough that what is signed of them
// stays near.
const TOGETHER: usize = 64;

/// Why the capability of each row is not valid, where it is not. Their short signatures are verified many by one call.
pub(crate) fn causes_together<S: Scheme>(
    alloc: Global,
    scheme: &S,
    rows: &[&RawRow],
) -> Result<Vec<Option<RowRefusal>>, NoMemory>
    ensures { IfOk result (λ causes. causes.items ≡ map (capability_refusal S.rules) (carried rows.now)) }
{
    let mut causes = Vec::with_capacity(alloc, rows.len())?;
    let mut from = 0;
    'groups: while from < rows.len() {
        let to = from + (rows.len() - from).min(TOGETHER);
        put_causes(alloc, scheme, &rows[from..to], &mut causes)?;
        from = to;
    }
    Ok(causes)
}

// Appends why the capability of each of these rows is not valid, where it is not.
fn put_causes<S: Scheme>(
    alloc: Global,
    scheme: &S,
    rows: &[&RawRow],
    causes: &mut Vec<Option<RowRefusal>>,
) -> Result<(), NoMemory>
    ensures causes { OnOk result (causes.new.items ≡ causes.old.items ++ map (capability_refusal S.rules) (carried rows.now)) }
{
    let more = causes_by_one_call(alloc, scheme, rows)?;
    causes.extend_from_slice(&more)?;
    Ok(())
}

// Why the capability of each row is not valid, where it is not. One call verifies their short signatures.
fn causes_by_one_call<S: Scheme>(
    alloc: Global,
    scheme: &S,
    rows: &[&RawRow],
) -> Result<Vec<Option<RowRefusal>>, NoMemory>
    ensures { IfOk result (λ causes. causes.items ≡ map (capability_refusal S.rules) (carried rows.now)) }
{
    let mut signed = Vec::new(alloc);
    let counts = put_all_signed(alloc, rows, &mut signed)?;
    causes_by_signed(alloc, scheme, rows, &counts, &signed)
}

// The same, where this is what is signed of them, so many messages of each.
fn causes_by_signed<S: Scheme>(
    alloc: Global,
    scheme: &S,
    rows: &[&RawRow],
    counts: &[usize],
    signed: &[SignedMessage],
) -> Result<Vec<Option<RowRefusal>>, NoMemory>
    requires each { length counts.now ≡ length rows.now }
    requires all { length signed.now ≡ sum counts.now }
    ensures causes { IfOk result (λ causes. causes.items ≡ map (capability_refusal S.rules) (carried rows.now)) }
{
    let claims = claims_of(alloc, signed)?;
    causes_by_claims(alloc, scheme, rows, counts, &claims)
}

// The same, where these are the claims of what is signed.
fn causes_by_claims<S: Scheme>(
    alloc: Global,
    scheme: &S,
    rows: &[&RawRow],
    counts: &[usize],
    claims: &[Claim<'_>],
) -> Result<Vec<Option<RowRefusal>>, NoMemory>
    requires each { length counts.now ≡ length rows.now }
    requires all { length claims.now ≡ sum counts.now }
    ensures causes { IfOk result (λ causes. causes.items ≡ map (capability_refusal S.rules) (carried rows.now)) }
{
    let answers = scheme.verify_users(alloc, claims)?;
    causes_by(alloc, scheme, rows, counts, claims, &answers)
}

// Appends what is signed of the capability of each row, and tells how many messages these are of each.
fn put_all_signed<'r>(
    alloc: Global,
    rows: &[&'r RawRow],
    signed: &mut Vec<SignedMessage<'r>>,
) -> Result<Vec<usize>, NoMemory>
    ensures each { IfOk result (λ counts. length counts.items ≡ length rows.now) }
    ensures all { IfOk result (λ counts. length signed.new.items ≡ length signed.old.items + sum counts.items) }
{
    let mut counts = Vec::with_capacity(alloc, rows.len())?;
    'rows: for row in rows {
        let count = put_signed(&row.token().capability, signed)?;
        counts.push(count)?;
    }
    Ok(counts)
}

// Appends what is signed of the capability, and tells how many messages these are. With too many delegations it is refused
// unverified, and long signatures are verified no faster together: of such ones nothing is told, and they are verified up
// to the first that is wrong.
fn put_signed<'r>(
    capability: &'r Capability,
    signed: &mut Vec<SignedMessage<'r>>,
) -> Result<usize, NoMemory>
    ensures { IfOk result (λ count. length signed.new.items ≡ length signed.old.items + count) }
{
    if capability.chain.len() > MAX_DELEGATIONS || capability_work(capability) > 0 {
        return Ok(0);
    }
    let before = signed.len();
    capability.put_signed(signed)?;
    Ok(signed.len() - before)
}

// The claims of these messages, in order.
fn claims_of<'s, 'r: 's>(
    alloc: Global,
    signed: &'s [SignedMessage<'r>],
) -> Result<Vec<Claim<'s>>, NoMemory>
    ensures { IfOk result (λ claims. length claims.items ≡ length signed.now) }
{
    Ok(signed.iter().map(|message| message.claim()).collect(alloc)?)
}

// Why the capability of each row is not valid, where it is not, by the answers on so many claims of each.
fn causes_by<'s, S: Scheme>(
    alloc: Global,
    scheme: &S,
    rows: &[&RawRow],
    counts: &[usize],
    claims: &'s [Claim<'s>],
    answers: &'s [bool],
) -> Result<Vec<Option<RowRefusal>>, NoMemory>
    requires each { length counts.now ≡ length rows.now }
    requires all { length claims.now ≡ sum counts.now }
    requires answers { answers.now ≡ map (accepts_claim S.rules) claims.now }
    ensures { IfOk result (λ causes. causes.items ≡ map (capability_refusal S.rules) (carried rows.now)) }
{
    let mut causes = Vec::with_capacity(alloc, rows.len())?;
    put_causes_by(scheme, rows, counts, claims, answers, &mut causes)?;
    Ok(causes)
}

// Appends why the capability of each row is not valid, where it is not, by the same answers.
fn put_causes_by<'s, S: Scheme>(
    scheme: &S,
    rows: &[&RawRow],
    counts: &[usize],
    claims: &'s [Claim<'s>],
    answers: &'s [bool],
    causes: &mut Vec<Option<RowRefusal>>,
) -> Result<(), NoMemory>
    requires each { length counts.now ≡ length rows.now }
    requires all { length claims.now ≡ sum counts.now }
    requires answers { answers.now ≡ map (accepts_claim S.rules) claims.now }
    ensures causes { OnOk result (causes.new.items ≡ causes.old.items ++ map (capability_refusal S.rules) (carried rows.now)) }
{
    let mut from = 0;
    'rows: for at in 0..rows.len() {
        let to = from + counts[at];
        let answered = answered(scheme, claims, answers, from, to);
        put_cause(&answered, rows[at], causes)?;
        from = to;
    }
    Ok(())
}

// Appends why the row's capability is not valid, where it is not.
fn put_cause<S: Verify>(
    scheme: &S,
    row: &RawRow,
    causes: &mut Vec<Option<RowRefusal>>,
) -> Result<(), NoMemory>
    ensures cause { OnOk result (causes.new.items ≡ causes.old.items ++ capability_refusal S.rules row.now.token.capability ∷ []) }
{
    let cause = capability_cause(scheme, &row.token().capability)?;
    causes.push(cause)?;
    Ok(())
}

// The scheme with its answers on the claims from one place to another.
fn answered<'s, S: Scheme>(
    scheme: &S,
    claims: &'s [Claim<'s>],
    answers: &'s [bool],
    from: usize,
    to: usize,
) -> Answered<'s, S>
    requires order { from ≤ to }
    requires within { to ≤ length claims.now }
    requires answers { answers.now ≡ map (accepts_claim S.rules) claims.now }
    ensures scheme { result.scheme ≡ scheme.now }
    ensures claims { result.claims.now ≡ take (to - from) (drop from claims.now) }
{
    Answered::new(*scheme, &claims[from..to], &answers[from..to])
}
