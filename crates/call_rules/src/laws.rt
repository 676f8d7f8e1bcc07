//! What is proved of the status, as the contract of a function that does nothing. What is proved of parts speaks of
//! relations of whatever objects there are, and stands in `proofs/`.

ghost use Rattle.std.specs.Prelude.{◌≡◌, ◌≢◌, ◌⊎◌, ℕ, ◌≤◌, List, Contains};
ghost use Rattle.call_rules.specs.Told.{IsUnmet, IsTold, first_met, told_order};

/// A law, and no code: the status that is told is 0, or was met. Want of memory is told before all else, behind it a fault
/// of reading, and then one of writing. At 0 and 1 nothing worse was met, and at 0 no refused row either.
pub fn told()
    ensures met { (order met : List ℕ) → (first_met order met ≡ 0) ⊎ Contains met (first_met order met) }
    ensures seven { (met : List ℕ) → first_met told_order met ≢ 7 → IsUnmet met 7 }
    ensures three { (met : List ℕ) → first_met told_order met ≢ 3 → first_met told_order met ≢ 7 → IsUnmet met 3 }
    ensures four { (met : List ℕ) → first_met told_order met ≢ 3 → first_met told_order met ≢ 4 → first_met told_order met ≢ 7 → IsUnmet met 4 }
    ensures known { (met : List ℕ) → IsTold (first_met told_order met) }
    ensures six { (met : List ℕ) → first_met told_order met ≤ 1 → IsUnmet met 6 }
    ensures eight { (met : List ℕ) → first_met told_order met ≤ 1 → IsUnmet met 8 }
    ensures one { (met : List ℕ) → first_met told_order met ≡ 0 → IsUnmet met 1 }
{}
