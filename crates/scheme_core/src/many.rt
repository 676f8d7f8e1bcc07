//! Many signatures, verified one after the other.

ghost use Rattle.std.specs.Prelude.{◌≡◌, map, IfOk};
ghost use Rattle.scheme_core.specs.Claims.{accepts_claim};

use crate::claim::Claim;
use crate::scheme::Verify;
use spelling::NoMemory;
use std::alloc::Global;

/// Whether the scheme accepts the signature. What is signed is joined in `room`, which each call uses again.
pub(crate) fn verify_joined<S: Verify>(
    scheme: &S,
    room: &mut Vec<u8>,
    claim: &Claim<'_>,
) -> Result<bool, NoMemory>
    ensures { IfOk result (λ answer. answer ≡ accepts_claim S.rules claim.now) }
{
    room.clear();
    room.extend_from_slice(claim.front)?;
    room.extend_from_slice(claim.rest)?;
    Ok(scheme.verify_user(&claim.key, room, claim.signature))
}

/// Whether the scheme accepts each signature, in order. It verifies one after the other.
pub fn verify_each<S: Verify>(
    scheme: &S,
    alloc: Global,
    claims: &[Claim<'_>],
) -> Result<Vec<bool>, NoMemory>
    ensures { IfOk result (λ answers. answers.items ≡ map (accepts_claim S.rules) claims.now) }
{
    let mut answers = Vec::with_capacity(alloc, claims.len())?;
    let mut room = Vec::new(alloc);
    'claims: for claim in claims {
        let answer = verify_joined(scheme, &mut room, claim)?;
        answers.push(answer)?;
    }
    Ok(answers)
}
