//! What the definitions mean, and what follows from them. These functions do nothing: each is called,
//! if at all, for its clauses.

ghost use Rattle.std.specs.Prelude.{◌≡◌, ◌↔◌, ℕ, ◌-◌, min, List, [], ◌∷◌, ◌++◌, Option, IsTrue, nat_eq, false};
ghost use Rattle.std.specs.declared.cmp.Ordering.TheVariants.{Equal};
ghost use Rattle.std.specs.Ordering.{is_gt};
ghost use Rattle.std.specs.Cmp.{IsTotalOrder};
ghost use Rattle.std.specs.Cmp.Lexicographic.{pointwise};
ghost use Rattle.spelling.specs.Form.{IsForm};
ghost use Rattle.spelling.specs.Reader.{IsReader};
ghost use Rattle.spelling.specs.Reading.{bytes_at};
ghost use Rattle.spelling.specs.Spelling.{AreSoManyBytes};
ghost use Rattle.willow_path.specs.Key.{IsKey, key_at};
ghost use Rattle.willow_path.specs.Path.{IsPath, IsPrefix, is_prefix, part_cmp, path_cmp, total};
ghost use Rattle.willow_path.specs.Successor.{IsAfter, IsBelow, after, part_after};
ghost use Rattle.std.specs.Option.{option_map, option_or};
ghost use Rattle.willow_path.specs.PathSpelling.{path_at, path_spelling};

use crate::limits::{MAX_PART, MAX_PARTS, MAX_TOTAL};

/// Bytes are ordered as strings of numbers are. Keys and digests compare equal, by `==` and by their
/// order, exactly where their bytes are the same.
#[tactic(auto, using(crate::proofs::PathOrder::part_cmp_total, crate::proofs::PathOrder::part_cmp_equal, crate::proofs::PathOrder::part_eq_decides))]
pub fn order_of_bytes()
    ensures total { IsTotalOrder part_cmp }
    ensures tied { (a b : List ℕ) → (part_cmp a b ≡ Equal) ↔ (a ≡ b) }
    ensures same { (a b : List ℕ) → IsTrue (pointwise nat_eq a b) ↔ (a ≡ b) }
{}

/// The order of paths is total, and paths compare equal, by `==` and by their order, exactly where they
/// have the same components.
#[tactic(auto, using(crate::proofs::PathOrder::path_cmp_total, crate::proofs::PathOrder::path_cmp_equal, crate::proofs::PathOrder::path_eq_decides))]
pub fn order_of_paths()
    ensures total { IsTotalOrder path_cmp }
    ensures tied { (p q : List (List ℕ)) → (path_cmp p q ≡ Equal) ↔ (p ≡ q) }
    ensures same { (p q : List (List ℕ)) → IsTrue (pointwise (pointwise nat_eq) p q) ↔ (p ≡ q) }
{}

/// The test for a prefix says that the longer path is the other followed by further components, or by
/// none. A prefix is never greater than its extensions, and what stands between two extensions of a path
/// is an extension of it.
#[tactic(auto, using(crate::proofs::PathOrder::is_prefix_decides, crate::proofs::PathOrder::prefix_at_most, crate::proofs::PathOrder::prefix_between))]
pub fn prefixes()
    ensures means { (path longer : List (List ℕ)) → IsTrue (is_prefix path longer) ↔ IsPrefix path longer }
    ensures first { (path longer : List (List ℕ)) → IsTrue (is_prefix path longer) → is_gt (path_cmp path longer) ≡ false }
    ensures between { (path a b c : List (List ℕ)) → IsTrue (is_prefix path a) → IsTrue (is_prefix path c) → is_gt (path_cmp a b) ≡ false → is_gt (path_cmp b c) ≡ false → IsTrue (is_prefix path b) }
{}

/// A path within the limits has one spelling, and no spelling of a path begins another; so for keys, which
/// are spelled as their bytes.
#[tactic(auto, using(crate::proofs::PathReads::path_form, crate::proofs::PathReads::key_form))]
pub fn one_spelling()
    ensures path { IsForm path_spelling IsPath }
    ensures key { IsForm (λ key. key) IsKey }
{}

/// The readers of keys, digests and paths go by the spellings alone: a value is whole exactly where its spelling stands
/// in front, a part exactly where the bytes begin a spelling and more is due, and wrong exactly where none begins so.
#[tactic(auto, using(crate::proofs::PathReads::key_reader, crate::proofs::PathReads::digest_reader, crate::proofs::PathReads::path_reader))]
pub fn readers()
    ensures key { IsReader key_at (λ key. key) IsKey }
    ensures digest { IsReader (bytes_at 32) (λ digest. digest) (AreSoManyBytes 32) }
    ensures path { IsReader path_at path_spelling IsPath }
{}

/// The limits of a path: components of 255 bytes, 255 of them, 4,096 bytes together.
pub fn limits()
    ensures part { MAX_PART ≡ 255 }
    ensures parts { MAX_PARTS ≡ 255 }
    ensures total { MAX_TOTAL ≡ 4096 }
{}

/// The answer of `after_prefixed` is the only one that is right. At or above a path and below that answer
/// stand just the path's extensions. The last component decides where it can be added to or raised, and
/// else the path before it does.
#[tactic(auto, using(crate::proofs::PathSuccessor::after_is, crate::proofs::PathSuccessor::IsAfter_one, crate::proofs::PathSuccessor::extensions_between, crate::proofs::PathSuccessor::after_last))]
pub fn successors()
    ensures right { (path : List (List ℕ)) → IsPath path → IsAfter path (after path) }
    ensures one { (path : List (List ℕ)) (a b : Option (List (List ℕ))) → IsAfter path a → IsAfter path b → a ≡ b }
    ensures between { (path q : List (List ℕ)) → IsPath path → IsPath q → IsTrue (is_prefix path q) ↔ ((is_gt (path_cmp path q) ≡ false) × IsBelow q (after path)) }
    ensures by_last { (path : List (List ℕ)) (part : List ℕ) → after (path ++ part ∷ []) ≡ option_or (option_map (λ next. path ++ next ∷ []) (part_after (min MAX_PART (MAX_TOTAL - total path)) part)) (after path) }
{}
