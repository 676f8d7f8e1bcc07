//! Schemes of keys.

ghost use Rattle.std.specs.Prelude.{◌≡◌, ℕ, List, map, IfOk};
ghost use Rattle.scheme_core.specs.Claims.{accepts_claim};
ghost use Rattle.scheme_core.specs.Rules.{Rules};

use crate::claim::Claim;
use crate::many::verify_each;
use spelling::NoMemory;
use std::alloc::Global;
use willow_path::{NamespaceKey, UserKey};

/// What verifies signatures. What it answers is a fact of the type, its `rules`, and not of the value.
pub trait Verify: Copy {
    ghost rules: { Rules };

    /// Whether the signature of the message is accepted for a user's key.
    fn verify_user(&self, key: &UserKey, message: &[u8], signature: &[u8]) -> bool
        ensures { result ≡ rules.user key.now message.now signature.now };

    /// Whether the signature of the message is accepted for a namespace's key.
    fn verify_namespace(&self, key: &NamespaceKey, message: &[u8], signature: &[u8]) -> bool
        ensures { result ≡ rules.owner key.now message.now signature.now };

    /// Whether the namespace is communal: everybody may write in a subspace of one's own.
    fn is_communal(&self, key: &NamespaceKey) -> bool
        ensures { result ≡ rules.communal key.now };
}

/// What verifies many signatures by one call.
pub trait VerifyMany: Verify {
    /// Whether each signature is accepted, in order.
    fn verify_users(&self, alloc: Global, claims: &[Claim<'_>]) -> Result<Vec<bool>, NoMemory>
        ensures { IfOk result (λ answers. answers.items ≡ map (accepts_claim Self.rules) claims.now) }
    {
        verify_each(self, alloc, claims)
    }

    /// a signature is accepted for a key whoever has it: a user or a namespace
    ghost alike: { (key message signature : List ℕ) → Self.rules.owner key message signature ≡ Self.rules.user key message signature };
}

/// A scheme that threads may share.
pub trait Scheme: VerifyMany + Send + Sync {}
