//! What is proved of the commands' definitions.

ghost use Rattle.std.specs.Prelude.{◌≡◌, ℕ, List, Some, false};
ghost use Rattle.scheme_core.specs.Rules.{Rules};
ghost use Rattle.willow_area.specs.Area.{includes_area};
ghost use Rattle.willow_area.specs.declared.area.Area.{Area};
ghost use Rattle.mc_cap.specs.Grant.{extended, granted};
ghost use Rattle.mc_cap.specs.Valid.{chain_refusal};
ghost use Rattle.mc_cap.specs.declared.capability.Capability.{Capability};
ghost use Rattle.peer_make.specs.Delegating.{growing_refusal};
ghost use Rattle.peer_make.specs.ReadBack.{ReadsCapabilityBack, IsNeverUnfit, IsOwnStream, ReadsRowBack, HasOneKey};

/// A law, and no code: what `delegate` tells where an area has no times is what a check refuses first of every
/// capability that has one delegation more, of an area that is not within what was granted.
#[tactic(auto, using(crate::proofs::Growing::refused_as_growing))]
pub fn empty_areas_count_as_growing()
    ensures { (rules : Rules) (c : Capability) (area : Area) (user signature : List ℕ) → includes_area (granted c) area ≡ false
        → chain_refusal rules (extended c area user signature) ≡ Some (growing_refusal rules c) }
{}

/// A law, and no code: an input that is the spelling of a capability, as `grant` and `delegate` write it, is read as
/// that capability, and is not told as unfit.
#[tactic(auto, using(crate::proofs::MadeBack::capability_back, crate::proofs::MadeBack::never_unfit))]
pub fn capabilities_are_read_back()
    ensures back { ReadsCapabilityBack }
    ensures never_unfit { IsNeverUnfit }
{}

/// A law, and no code: the frame of a row, as `write` writes it, is a stream of that row alone, as `join` reads it.
#[tactic(auto, using(crate::proofs::MadeBack::own_stream, crate::proofs::MadeBack::row_back))]
pub fn rows_are_read_back()
    ensures own { IsOwnStream }
    ensures back { ReadsRowBack }
{}

/// A law, and no code: a key file, as `key` puts it, is the file of one key.
#[tactic(auto, using(crate::proofs::MadeBack::one_key))]
pub fn a_key_file_has_one_key()
    ensures { HasOneKey }
{}
