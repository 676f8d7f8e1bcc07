//! What holds of the readers: each goes by the spellings alone.

ghost use Rattle.std.specs.Prelude.{◌^◌};
ghost use Rattle.std.specs.Int.{w16, w32};
ghost use Rattle.spelling.specs.Laws.{ReadsUpTo};

/// A number of two bytes up to a limit is whole exactly where it stands in front, a part exactly where some such
/// number begins with the bytes, and wrong exactly where none does.
pub fn numbers_of_two_bytes()
    ensures { ReadsUpTo w16 (2 ^ 16) }
{}

/// The same of a number of four bytes.
pub fn numbers_of_four_bytes()
    ensures { ReadsUpTo w32 (2 ^ 32) }
{}
