//! A signer that fails, and a checker that counts.

ghost use Rattle.std.specs.Prelude.{◌≡◌};
ghost use Rattle.scheme_core.specs.Open.{open_accepts};
ghost use Rattle.scheme_core.specs.OpenLaws.{open_accepts-short};

use auth_entry::Checker;
use cap_codec::RawRow;
use scheme_core::{OpenScheme, OpenSigner, SignRefusal, Signer};
use spelling::{End, NoMemory};
use std::alloc::Global;
use willow_path::NamespaceKey;

// A signer that fails each time that it is asked.
#[derive(Drop)]
pub(crate) struct FailingSigner {
    pub(crate) signer: OpenSigner,
    pub(crate) failed: u64,
}

impl Signer for FailingSigner {
    ghost gives = { λ s. open_accepts s.signer };

    ghost left = { λ _. 1 };

    ghost faults = { λ s. s.failed };

    ghost asks = { λ old new. new.signer ≡ old.signer };

    fn sign(&mut self, _alloc: Global, _message: &[u8]) -> Result<Vec<u8>, End<SignRefusal>> {
        self.failed = self.failed.saturating_add(1);
        Err(End::Refused(SignRefusal::Failed))
    }

    fn left(&self) -> u64 {
        1
    }

    ghost gives_short = { λ s. open_accepts-short s.signer };
}

// A checker that counts how often it is handed a capability. One that recalls none is handed each once by every call that
// judges rows with it.
#[derive(Drop)]
pub(crate) struct CountingChecker {
    pub(crate) namespace: NamespaceKey,
    pub(crate) handed: u64,
}

impl Checker<OpenScheme> for CountingChecker {
    ghost judged_in = { λ c. c.namespace };

    fn namespace(&self) -> NamespaceKey {
        self.namespace
    }

    fn scheme(&self) -> OpenScheme {
        OpenScheme
    }

    fn remember(&mut self, _alloc: Global, _row: &RawRow) -> Result<(), NoMemory> {
        self.handed = self.handed.saturating_add(1);
        Ok(())
    }
}
