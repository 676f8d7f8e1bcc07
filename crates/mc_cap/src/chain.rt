//! Delegations, and chains of them.

ghost use Rattle.std.specs.Prelude.{◌≡◌, ◌<◌, ◌≤◌, ◌∷◌, [], ◌++◌, length, IfOk, OnErr, OnOk, MatchOption};
ghost use Rattle.mc_cap.specs.Forms.{IsChain, IsDelegation};

use crate::signature::Signature;
use std::alloc::Global;
use std::marker::Model;
use willow_area::Area;
use willow_path::{NoMemory, UserKey};

/// The most delegations that a chain can hold: its spelling counts them in one byte.
pub const MAX_CHAIN: usize = 255;

/// That what was granted so far is handed on, for an area, to a user.
#[derive(Drop)]
pub struct Delegation {
    /// The area that is handed on.
    pub area: Area,
    /// The user who receives it.
    pub user: UserKey,
    /// The signature of the user who hands it on.
    pub signature: Signature,
}

impl Delegation {
    /// An equal delegation.
    pub fn copy(&self) -> Result<Delegation, NoMemory>
        ensures { IfOk result (λ delegation. delegation ≡ self.now) }
    {
        Ok(Delegation {
            area: self.area.copy()?,
            user: self.user,
            signature: self.signature.copy()?,
        })
    }

    /// Does nothing: it is called for its clause, that each field is within its limits.
    pub fn known(&self)
        ensures { IsDelegation self.now }
    {
        self.area.known();
        let _user = self.user.to_bytes();
        let _signature = self.signature.as_slice();
    }
}

/// Delegations in their order, at most `MAX_CHAIN`. A contract sees the list of them.
#[derive(Drop)]
pub struct Chain {
    delegations: Vec<Delegation>,
}

impl Model for Chain {
    ghost use Rattle.std.specs.Prelude.{◌≤◌, List, length};
    ghost use Rattle.mc_cap.specs.declared.chain.Delegation.{Delegation};
    ghost use Rattle.mc_cap.specs.declared.chain.TheConstants.{MAX_CHAIN};

    ghost Value = { List Delegation };

    ghost view = { λ c. c.delegations.items };

    ghost invariant = { λ c. length c.delegations.items ≤ MAX_CHAIN };
}

impl Chain {
    /// The chain without delegations.
    pub fn empty(alloc: Global) -> Chain
        ensures { result ≡ [] }
    {
        Chain {
            delegations: Vec::new(alloc),
        }
    }

    /// The chain of these delegations; None exactly where they are more than `MAX_CHAIN`.
    pub fn new(delegations: Vec<Delegation>) -> Option<Chain>
        ensures { MatchOption result (MAX_CHAIN < length delegations.items) (λ chain. (chain ≡ delegations.items) × (length chain ≤ MAX_CHAIN)) }
    {
        if delegations.len() > MAX_CHAIN {
            return None;
        }
        Some(Chain { delegations })
    }

    /// The delegations, taken out.
    pub fn into_vec(self) -> Vec<Delegation>
        ensures delegations { result.items ≡ self }
        ensures few { length self ≤ MAX_CHAIN }
    {
        self.delegations
    }

    /// The number of delegations.
    pub fn len(&self) -> usize
        ensures len { result ≡ length self.now }
        ensures few { length self.now ≤ MAX_CHAIN }
    {
        self.delegations.len()
    }

    /// The delegations in order.
    pub fn as_slice(&self) -> &[Delegation]
        ensures delegations { result.now ≡ self.now }
        ensures few { length self.now ≤ MAX_CHAIN }
    {
        &self.delegations
    }

    /// Adds a delegation at the end. Without memory the chain stays as it was.
    pub fn push(&mut self, delegation: Delegation) -> Result<(), NoMemory>
        requires { length self.old < MAX_CHAIN }
        ensures added { OnOk result (self.new ≡ self.old ++ delegation ∷ []) }
        ensures kept { OnErr result (self.new ≡ self.old) }
    {
        self.delegations.push(delegation)?;
        Ok(())
    }

    /// Takes the last delegation off.
    pub(crate) fn pop(&mut self) -> Option<Delegation>
        ensures { MatchOption result (self.old ≡ []) (λ last. self.old ≡ self.new ++ last ∷ []) }
    {
        self.delegations.pop()
    }

    /// The allocator of the chain.
    pub(crate) fn allocator(&self) -> Global {
        *self.delegations.allocator()
    }

    /// An equal chain.
    pub fn copy(&self) -> Result<Chain, NoMemory>
        ensures { IfOk result (λ chain. chain ≡ self.now) }
    {
        let mut delegations = Vec::with_capacity(self.allocator(), self.delegations.len())?;
        for delegation in &self.delegations {
            delegations.push(delegation.copy()?)?;
        }
        Ok(Chain { delegations })
    }

    /// Does nothing: it is called for its clause, that each delegation is within its limits.
    pub fn known(&self)
        ensures { IsChain self.now }
    {
        for delegation in self.as_slice() {
            delegation.known();
        }
    }
}
