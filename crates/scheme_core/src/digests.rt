//! The signatures that open keys make of claims, four at a time.

ghost use Rattle.std.specs.Prelude.{◌≡◌, map, filter, IfOk};
ghost use Rattle.std.specs.List.{flat_map};
ghost use Rattle.sha_lanes.specs.Message.{bytes_of};
ghost use Rattle.scheme_core.specs.OpenClaims.{front_of, needs_digest, open_signature_of, signed_bytes};

use crate::claim::Claim;
use sha_lanes::{Message, sha256_all};
use spelling::NoMemory;
use std::alloc::Global;

/// Whether a digest tells if the claim is accepted: its key is open, and its signature is as long as a digest.
pub(crate) fn needs_digest(claim: &Claim<'_>) -> bool
    ensures { result ≡ needs_digest claim.now }
{
    claim.key.to_bytes()[0] == 0 && claim.signature.len() == 32
}

/// The key and the first piece of each claim, one behind the other.
fn fronts(alloc: Global, claims: &[Claim<'_>]) -> Result<Vec<u8>, NoMemory>
    ensures { IfOk result (λ fronts. fronts.items ≡ flat_map front_of claims.now) }
{
    let mut fronts = Vec::new(alloc);
    'claims: for claim in claims {
        fronts.extend_from_slice(&claim.key.to_bytes())?;
        fronts.extend_from_slice(claim.front)?;
    }
    Ok(fronts)
}

/// What open keys sign of each claim. The pieces behind the fronts are not copied.
fn messages<'a, 'b: 'a>(
    alloc: Global,
    fronts: &'a [u8],
    claims: &[Claim<'b>],
) -> Result<Vec<Message<'a>>, NoMemory>
    requires { fronts.now ≡ flat_map front_of claims.now }
    ensures { IfOk result (λ messages. map bytes_of messages.items ≡ map signed_bytes claims.now) }
{
    let mut messages = Vec::with_capacity(alloc, claims.len())?;
    let mut left = fronts;
    'claims: for claim in claims {
        let key = claim.key.to_bytes();
        let (front, behind) = left.split_at(key.len() + claim.front.len());
        messages.push(Message {
            front,
            rest: claim.rest,
        })?;
        left = behind;
    }
    Ok(messages)
}

/// The open signatures of claims, in order.
fn signatures(alloc: Global, claims: &[Claim<'_>]) -> Result<Vec<[u8; 32]>, NoMemory>
    ensures { IfOk result (λ made. made.items ≡ map open_signature_of claims.now) }
{
    let fronts = fronts(alloc, claims)?;
    let messages = messages(alloc, &fronts, claims)?;
    let mut made = vec![in alloc; [0; 32]; messages.len()]?;
    sha256_all(&messages, &mut made);
    Ok(made)
}

/// The claims that need a digest, in order.
fn needing<'a>(alloc: Global, claims: &[Claim<'a>]) -> Result<Vec<Claim<'a>>, NoMemory>
    ensures { IfOk result (λ needing. needing.items ≡ filter needs_digest claims.now) }
{
    Ok(
        claims
            .iter()
            .filter(|claim| needs_digest(claim))
            .copied()
            .collect(alloc)?,
    )
}

/// The open signatures of those claims that need a digest, in order.
pub(crate) fn needed_signatures(
    alloc: Global,
    claims: &[Claim<'_>],
) -> Result<Vec<[u8; 32]>, NoMemory>
    ensures { IfOk result (λ made. made.items ≡ map open_signature_of (filter needs_digest claims.now)) }
{
    signatures(alloc, &needing(alloc, claims)?)
}
