//! What the definitions mean. These functions do nothing: each is called, if at all, for its clauses.

ghost use Rattle.std.specs.Prelude.{◌≡◌, ℕ, Option, List, length, take};
ghost use Rattle.willow_area.specs.Boxes.{Ranges};
ghost use Rattle.willow_entry.specs.Row.{RowValue, AreLive};
ghost use Rattle.block_store.specs.BoxKinds.{IsOfOneNamespace};
ghost use Rattle.area_interest.specs.Interest.{front, IsLongest, TakesAllInside};

/// What the limits leave is the longest front that keeps them both: as many of the first items as they leave, where none at
/// all keep them.
#[tactic(auto, using(crate::proofs::Fronts::front_taken, crate::proofs::Fronts::is_longest))]
pub fn longest_front<A>()
    ensures front { (size : A → ℕ) (count bytes : Option ℕ) (xs : List A) → front size count bytes 0 0 xs ≡ take (length (front size count bytes 0 0 xs)) xs }
    ensures longest { (size : A → ℕ) (count bytes : Option ℕ) (xs : List A) → IsLongest size count bytes xs (length (front size count bytes 0 0 xs)) }
{}

/// Without limits all rows of a box are of interest, where the rows are live and of one namespace.
#[tactic(auto, using(crate::proofs::Unlimited::takes_all))]
pub fn without_limits()
    ensures { (rows : List RowValue) (area : Ranges) → AreLive rows → IsOfOneNamespace rows → TakesAllInside rows area }
{}
