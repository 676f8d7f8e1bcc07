//! What the definitions mean. These functions do nothing: each is called, if at all, for its clauses.

ghost use Rattle.std.specs.Prelude.{◌≡◌, ◌↔◌, None};
ghost use Rattle.scheme_core.specs.Rules.{Rules};
ghost use Rattle.mc_cap.specs.Valid.{IsValid, chain_refusal};
ghost use Rattle.mc_cap.specs.declared.capability.Capability.{Capability};

use crate::chain::MAX_CHAIN;
use crate::check::MAX_DELEGATIONS;

/// There is no cause to refuse a capability exactly where it is valid: few delegations, communal where its
/// namespace is, rightly begun, and each delegation within the grant before it and signed by the receiver
/// before it.
#[tactic(auto, using(crate::proofs::Meaning::valid_means))]
pub fn validity()
    ensures means { (rules : Rules) (c : Capability) → (chain_refusal rules c ≡ None) ↔ IsValid rules c }
{}

/// The limits are these numbers: a valid capability has at most 16 delegations, and a chain that is spelled 255.
pub fn limits()
    ensures valid { MAX_DELEGATIONS ≡ 16 }
    ensures spelled { MAX_CHAIN ≡ 255 }
{}
