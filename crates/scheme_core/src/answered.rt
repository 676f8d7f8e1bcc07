//! A scheme that has answers at hand.

ghost use Rattle.std.specs.Prelude.{◌≡◌, ◌↔◌, ◌++◌, ℕ, List, map, IfSome, IsTrue, ⊤};
ghost use Rattle.scheme_core.specs.Claims.{accepts_claim, message_of};

use crate::claim::Claim;
use crate::scheme::{Verify, VerifyMany};
use std::alloc::AllocError;
use willow_path::{NamespaceKey, UserKey};

/// A scheme with its answers on some claims, so that what was verified together is not verified again.
///
/// It answers as the scheme does, whichever claims it was given: of what is none of them it asks the scheme. It compares
/// each signature with its claims one after the other, so these are to be few.
pub struct Answered<'a, S: VerifyMany> {
    scheme: S,
    claims: &'a [Claim<'a>],
    answers: &'a [bool],
    ghost told: { answers.now ≡ map (accepts_claim S.rules) claims.now },
}

// By hand, since a type with a fact of its own is not derived.
impl<S: VerifyMany> Clone for Answered<'_, S> {
    ghost is_clone = { λ x y. (y.scheme ≡ x.scheme) × (y.claims ≡ x.claims) × (y.answers ≡ x.answers) };

    ghost is_infallible = { λ _. ⊤ };

    fn clone(&self) -> Result<Self, AllocError> {
        Ok(Answered {
            scheme: self.scheme,
            claims: self.claims,
            answers: self.answers,
        })
    }
}

impl<S: VerifyMany> Copy for Answered<'_, S> {}

impl<'a, S: VerifyMany> Answered<'a, S> {
    /// The scheme with what it answers on the claims, in order.
    pub fn new(scheme: S, claims: &'a [Claim<'a>], answers: &'a [bool]) -> Answered<'a, S>
        requires { answers.now ≡ map (accepts_claim S.rules) claims.now }
        ensures scheme { result.scheme ≡ scheme }
        ensures claims { result.claims.now ≡ claims.now }
    {
        Answered {
            scheme,
            claims,
            answers,
        }
    }

    // The answer on a claim of just this, where there is one.
    fn answer(&self, key: &[u8; 33], message: &[u8], signature: &[u8]) -> Option<bool>
        ensures { IfSome result (λ answer. answer ≡ S.rules.user key.now message.now signature.now) }
    {
        for at in 0..self.claims.len() {
            if claims_just(&self.claims[at], key, message, signature) {
                return Some(self.answers[at]);
            }
        }
        None
    }
}

impl<S: VerifyMany> Verify for Answered<'_, S> {
    ghost rules = { S.rules };

    fn verify_user(&self, key: &UserKey, message: &[u8], signature: &[u8]) -> bool {
        match self.answer(&key.to_bytes(), message, signature) {
            Some(answer) => answer,
            None => self.scheme.verify_user(key, message, signature),
        }
    }

    fn verify_namespace(&self, key: &NamespaceKey, message: &[u8], signature: &[u8]) -> bool {
        match self.answer(&key.to_bytes(), message, signature) {
            Some(answer) => answer,
            None => self.scheme.verify_namespace(key, message, signature),
        }
    }

    fn is_communal(&self, key: &NamespaceKey) -> bool {
        self.scheme.is_communal(key)
    }
}

// Whether the claim is of just this signature of just this message by just this key.
fn claims_just(claim: &Claim<'_>, key: &[u8; 33], message: &[u8], signature: &[u8]) -> bool
    ensures { IsTrue result ↔ ((claim.now.key ≡ key.now) × (message_of claim.now ≡ message.now) × (claim.now.signature.now ≡ signature.now)) }
{
    claim.key.to_bytes() == *key
        && is_joined(claim.front, claim.rest, message)
        && claim.signature == signature
}

// Whether the whole is the front and behind it the rest.
fn is_joined(front: &[u8], rest: &[u8], whole: &[u8]) -> bool
    ensures { IsTrue result ↔ (front.now ++ rest.now ≡ whole.now) }
{
    if whole.len() < front.len() {
        return false;
    }
    let (begin, end) = whole.split_at(front.len());
    begin == front && end == rest
}
