//! What it means that a row is authorised.

ghost use Rattle.std.specs.Prelude.{◌≡◌, ◌↔◌, ℕ, List, None};
ghost use Rattle.scheme_core.specs.Rules.{Rules};
ghost use Rattle.cap_codec.specs.Rows.{RawValue};
ghost use Rattle.auth_entry.specs.Authorised.{row_refusal, IsAuthorised};

/// Nothing refuses a row exactly where the five conditions hold.
#[tactic(auto, using(crate::proofs::Meaning::authorised_means))]
pub fn authorised_exactly()
    ensures means { (rules : Rules) (n : List ℕ) (r : RawValue) → (row_refusal rules n r ≡ None) ↔ IsAuthorised rules n r }
{}
