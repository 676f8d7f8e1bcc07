//! The laws of totals, for whoever keeps them: each is the contract of a function that does nothing, over lists
//! whose members are told as rows by a function.

ghost use Rattle.std.specs.Prelude.{◌≡◌, ℕ, List, [], ◌++◌, replicate, IsPermutation};
ghost use Rattle.sha2.specs.Sha256.{sha256};
ghost use Rattle.lane_sum.specs.declared.lanes.Lanes.{Lanes};
ghost use Rattle.lane_sum.specs.Totals.{total_by, fingerprint_by, fingerprint, sum_of, rest_of, AreWords};

/// The total of two lists joined is the sum of their totals.
pub fn joining<Row>()
    ensures { (row : Row → List ℕ × List ℕ) (xs ys : List Row)
        → sum_of (total_by row xs) (total_by row ys) ≡ total_by row (xs ++ ys) }
{}

/// The total and the fingerprint do not rest on the order of the rows.
pub fn order_is_free<Row>()
    ensures total { (row : Row → List ℕ × List ℕ) (xs ys : List Row)
        → IsPermutation xs ys → total_by row xs ≡ total_by row ys }
    ensures fingerprint { (row : Row → List ℕ × List ℕ) (xs ys : List Row)
        → IsPermutation xs ys → fingerprint_by row xs ≡ fingerprint_by row ys }
{}

/// What is added and taken away again leaves all as it was; so the total of a list less that of some of its rows
/// is the total of the others.
pub fn taking_away<Row>()
    ensures undone { (x y : Lanes) → AreWords x → AreWords y → rest_of (sum_of x y) y ≡ x }
    ensures left { (row : Row → List ℕ × List ℕ) (xs taken left : List Row)
        → IsPermutation xs (taken ++ left) → rest_of (total_by row xs) (total_by row taken) ≡ total_by row left }
{}

/// The fingerprint of no row is the digest of forty zero bytes.
pub fn nothing()
    ensures { fingerprint [] ≡ sha256 (replicate 40 0) }
{}
