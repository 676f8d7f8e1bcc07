//! Claims of open keys together, and the others one by one.

ghost use Rattle.std.specs.Prelude.{◌≡◌, map, filter, false, IfOk};
ghost use Rattle.scheme_core.specs.Claims.{accepts_claim};
ghost use Rattle.scheme_core.specs.Open.{AcceptsOpenKeys};
ghost use Rattle.scheme_core.specs.OpenClaims.{needs_digest, open_signature_of};

use crate::claim::Claim;
use crate::digests::{needed_signatures, needs_digest};
use crate::many::verify_joined;
use crate::scheme::Verify;
use spelling::NoMemory;
use std::alloc::Global;

/// Whether a claim that needs no digest is accepted. One of an open key is not, for its signature's length.
fn verify_other<S: Verify>(
    scheme: &S,
    room: &mut Vec<u8>,
    claim: &Claim<'_>,
) -> Result<bool, NoMemory>
    requires open { AcceptsOpenKeys S.rules }
    requires other { needs_digest claim.now ≡ false }
    ensures { IfOk result (λ answer. answer ≡ accepts_claim S.rules claim.now) }
{
    if claim.key.to_bytes()[0] == 0 {
        return Ok(false);
    }
    verify_joined(scheme, room, claim)
}

/// Whether each claim is accepted, by the open signatures of those that need a digest.
fn answers<S: Verify>(
    scheme: &S,
    alloc: Global,
    claims: &[Claim<'_>],
    made: &[[u8; 32]],
) -> Result<Vec<bool>, NoMemory>
    requires open { AcceptsOpenKeys S.rules }
    requires made { made.now ≡ map open_signature_of (filter needs_digest claims.now) }
    ensures { IfOk result (λ answers. answers.items ≡ map (accepts_claim S.rules) claims.now) }
{
    let mut answers = Vec::with_capacity(alloc, claims.len())?;
    let mut room = Vec::new(alloc);
    let mut next = 0;
    'claims: for claim in claims {
        if needs_digest(claim) {
            answers.push(claim.signature == made[next].as_slice())?;
            next += 1;
        } else {
            let answer = verify_other(scheme, &mut room, claim)?;
            answers.push(answer)?;
        }
    }
    Ok(answers)
}

/// Whether each signature is accepted, in order, by a scheme that accepts of open keys what is an open signature.
///
/// The digests of open keys' claims are made four at a time; no `rest` of these is copied. The others are verified
/// one by one.
pub fn verify_together<S: Verify>(
    scheme: &S,
    alloc: Global,
    claims: &[Claim<'_>],
) -> Result<Vec<bool>, NoMemory>
    requires { AcceptsOpenKeys S.rules }
    ensures { IfOk result (λ answers. answers.items ≡ map (accepts_claim S.rules) claims.now) }
{
    let made = needed_signatures(alloc, claims)?;
    answers(scheme, alloc, claims, &made)
}
