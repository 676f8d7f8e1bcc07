//! Schemes for tests.

ghost use Rattle.std.specs.Prelude.{◌≡◌, refl};
ghost use Rattle.scheme_core.specs.Open.{open_rules};
ghost use Rattle.checker_trials.specs.Padded.{front_of, padded_rules};

use scheme_core::{Claim, OpenScheme, Scheme, Verify, VerifyMany};
use spelling::NoMemory;
use std::alloc::Global;
use std::sync::atomic::{AtomicU64, Ordering};
use willow_path::{NamespaceKey, UserKey};

/// A scheme that answers as the open one, and counts the signatures that it is asked about as those of users.
#[derive(Clone, Copy)]
pub(crate) struct Counting<'a> {
    pub(crate) asked: &'a AtomicU64,
}

impl Verify for Counting<'_> {
    ghost rules = { open_rules };

    fn verify_user(&self, key: &UserKey, message: &[u8], signature: &[u8]) -> bool {
        self.asked.fetch_add(1, Ordering::SeqCst);
        OpenScheme.verify_user(key, message, signature)
    }

    fn verify_namespace(&self, key: &NamespaceKey, message: &[u8], signature: &[u8]) -> bool {
        OpenScheme.verify_namespace(key, message, signature)
    }

    fn is_communal(&self, key: &NamespaceKey) -> bool {
        OpenScheme.is_communal(key)
    }
}

impl VerifyMany for Counting<'_> {
    fn verify_users(&self, alloc: Global, claims: &[Claim<'_>]) -> Result<Vec<bool>, NoMemory> {
        self.asked.fetch_add(claims.len() as u64, Ordering::SeqCst);
        OpenScheme.verify_users(alloc, claims)
    }

    ghost alike = { λ key message signature. refl };
}

impl Scheme for Counting<'_> {}

/// How many bytes an open signature has.
pub(crate) const OPEN_LENGTH: usize = 32;

// The first bytes of the signature, as many as an open one has.
fn front_of(signature: &[u8]) -> &[u8]
    ensures { result.now ≡ front_of signature.now }
{
    &signature[..signature.len().min(OPEN_LENGTH)]
}

/// A scheme that answers of a signature as the open one does of its first bytes, so that signatures may be long.
#[derive(Clone, Copy)]
pub(crate) struct Padded;

impl Verify for Padded {
    ghost rules = { padded_rules };

    fn verify_user(&self, key: &UserKey, message: &[u8], signature: &[u8]) -> bool {
        OpenScheme.verify_user(key, message, front_of(signature))
    }

    fn verify_namespace(&self, key: &NamespaceKey, message: &[u8], signature: &[u8]) -> bool {
        OpenScheme.verify_namespace(key, message, front_of(signature))
    }

    fn is_communal(&self, key: &NamespaceKey) -> bool {
        OpenScheme.is_communal(key)
    }
}

impl VerifyMany for Padded {
    ghost alike = { λ key message signature. refl };
}

impl Scheme for Padded {}
