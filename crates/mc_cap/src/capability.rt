//! Capabilities: who they were given to, and for what.

ghost use Rattle.std.specs.Prelude.{◌≡◌, ◌<◌, length, IfOk, IfSome, OnErr};
ghost use Rattle.willow_area.specs.Area.{in_area};
ghost use Rattle.mc_cap.specs.Signature.{IsSignature};
ghost use Rattle.mc_cap.specs.Forms.{IsCapability};
ghost use Rattle.mc_cap.specs.Grant.{receiver_of, granted, first_grant};

use crate::chain::{Chain, Delegation};
use crate::signature::Signature;
use willow_area::Area;
use willow_path::{NamespaceKey, NoMemory, Path, UserKey};

/// What a capability lets its receiver do.
#[derive(Clone, Copy, PartialEq, Eq)]
pub enum Mode {
    Read,
    Write,
}

/// That a user may read or write an area of a namespace (Meadowcap). It is owned exactly where it has an
/// initial signature, else communal. Contracts see the fields; whether it is valid, `check` answers.
#[derive(Drop)]
pub struct Capability {
    /// Whether it is for reading or for writing.
    pub mode: Mode,
    /// The namespace.
    pub namespace: NamespaceKey,
    /// The user who had it first.
    pub user: UserKey,
    /// The namespace's signature of the initial message, where the capability is owned.
    pub initial: Option<Signature>,
    /// By which delegations it was handed on.
    pub chain: Chain,
}

impl Capability {
    /// The user who has it now: that of the last delegation, or the first user.
    pub fn receiver(&self) -> UserKey
        ensures { result ≡ receiver_of self.now }
    {
        match self.chain.as_slice().last() {
            Some(delegation) => delegation.user,
            None => self.user,
        }
    }

    /// The area that it is good for: that of the last delegation. Without delegations it is the whole
    /// subspace of the first user where the capability is communal, and everything where it is owned. Only that of a
    /// delegation needs memory.
    pub fn granted_area(&self) -> Result<Area, NoMemory>
        ensures granted { IfOk result (λ area. area ≡ granted self.now) }
        ensures asked { OnErr result (0 < length self.now.chain) }
    {
        match self.chain.as_slice().last() {
            Some(delegation) => delegation.area.copy(),
            None => Ok(self.first_grant()),
        }
    }

    /// Whether the granted area includes an entry of this subspace, path and time.
    pub fn grants(&self, subspace: &UserKey, path: &Path, time: u64) -> bool
        ensures { result ≡ in_area (granted self.now) subspace.now path.now time }
    {
        match self.chain.as_slice().last() {
            Some(delegation) => delegation.area.includes(subspace, path, time),
            None => self.first_grant().includes(subspace, path, time),
        }
    }

    // The area that it was good for before any delegation.
    pub(crate) fn first_grant(&self) -> Area
        ensures { result ≡ first_grant self.now }
    {
        let mut area = Area::full(self.chain.allocator());
        if self.initial.is_none() {
            area.subspace = Some(self.user);
        }
        area
    }

    /// An equal capability.
    pub fn copy(&self) -> Result<Capability, NoMemory>
        ensures { IfOk result (λ capability. capability ≡ self.now) }
    {
        let initial = match &self.initial {
            Some(signature) => Some(signature.copy()?),
            None => None,
        };
        Ok(Capability {
            mode: self.mode,
            namespace: self.namespace,
            user: self.user,
            initial,
            chain: self.chain.copy()?,
        })
    }

    /// Does nothing: it is called for its clause, that each field is within its limits.
    pub fn known(&self)
        ensures { IsCapability self.now }
    {
        let _namespace = self.namespace.to_bytes();
        let _user = self.user.to_bytes();
        known_initial(&self.initial);
        self.chain.known();
    }
}

// The initial signature is within its limits, where there is one.
fn known_initial(initial: &Option<Signature>)
    ensures { IfSome initial.now IsSignature }
{
    if let Some(signature) = initial {
        let _bytes = signature.as_slice();
    }
}
