//! The rules of a log itself.

ghost use Rattle.std.specs.Prelude.{ℕ, List};
ghost use Rattle.willow_entry.specs.declared.row.LogRow.{LogRow};

/// The rules that a log of these rows keeps in a namespace, whoever offered them. The crate of the state says them.
pub trait Lawful<R> {
    ghost is_lawful: { List ℕ → List (LogRow R) → Type 0 };
}
