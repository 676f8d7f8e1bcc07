//! What checks rows side by side, and remembers the capabilities that it found valid.

ghost use Rattle.std.specs.Prelude.{◌≡◌, ◌≤◌, IfOk};

use crate::valid::ValidCapabilities;
use auth_entry::{Checker, NewChecker};
use cap_codec::RawRow;
use scheme_core::Verify;
use spelling::NoMemory;
use std::alloc::Global;
use willow_path::NamespaceKey;

/// So many valid capabilities are remembered where nobody says how many.
pub const REMEMBERED: u32 = 1_024;

/// Checks rows on all processors, where they are enough, and does not check a capability again that it found valid not
/// long ago. Its verdicts are those of `PlainChecker`.
#[derive(Drop)]
pub struct CachedChecker<S: Verify> {
    scheme: S,
    namespace: NamespaceKey,
    valid: ValidCapabilities<S>,
}

impl<S: Verify> CachedChecker<S> {
    /// What checks rows in the namespace by the scheme, and remembers up to `capacity` valid capabilities, at least one.
    pub fn new(
        alloc: Global,
        scheme: S,
        namespace: NamespaceKey,
        capacity: u32,
    ) -> Result<CachedChecker<S>, NoMemory>
        requires { 1 ≤ capacity }
        ensures { IfOk result (λ checker. ⟦<CachedChecker<S> as Checker<S>>⟧.judged_in checker ≡ namespace) }
    {
        Ok(CachedChecker {
            scheme,
            namespace,
            valid: ValidCapabilities::new(alloc, capacity)?,
        })
    }
}

impl<S: Verify> Checker<S> for CachedChecker<S> {
    ghost judged_in = { λ c. c.namespace };

    fn namespace(&self) -> NamespaceKey {
        self.namespace
    }

    fn scheme(&self) -> S {
        self.scheme
    }

    fn takes_threads(&self) -> bool {
        true
    }

    fn recalls(&mut self, row: &RawRow) -> bool {
        self.valid.has(row)
    }

    fn remember(&mut self, alloc: Global, row: &RawRow) -> Result<(), NoMemory> {
        self.valid.keep(alloc, row)
    }
}

impl<S: Verify> NewChecker<S> for CachedChecker<S> {
    fn begin(alloc: Global, scheme: S, namespace: NamespaceKey) -> Result<Self, NoMemory> {
        CachedChecker::new(alloc, scheme, namespace, REMEMBERED)
    }
}
