//! Where rows stand before a signature is checked.

ghost use Rattle.std.specs.Prelude.{◌≡◌, ◌++◌, ◌∷◌, [], ℕ, List, All, Some, slice_get, IfOk, OnOk};
ghost use Rattle.std.specs.List.{AllZip};
ghost use Rattle.cap_codec.specs.Rows.{RawValue};
ghost use Rattle.mc_cap.specs.declared.capability.Capability.{Capability};
ghost use Rattle.scheme_core.specs.Rules.{Rules};
ghost use Rattle.auth_entry.specs.Standings.{Stands, IsStood, IsStoodBy, IsSettled};

use crate::checker::Checker;
use crate::refusal::{claim_refusal, grant_refusal};
use crate::signatures::Pending;
use crate::unknown::Unknown;
use cap_codec::RawRow;
use mc_cap::RowRefusal;
use scheme_core::Verify;
use spelling::NoMemory;
use std::alloc::Global;
use willow_path::NamespaceKey;

/// Where a row stands before a signature is checked.
#[derive(Clone, Copy)]
pub(crate) enum Standing {
    /// Its claim is refused.
    Refused(RowRefusal),
    /// Its claim is right, and its capability is known to be valid.
    Known,
    /// Its claim is right, and its capability stands at this place among those that are to be checked.
    Unknown(usize),
}

/// A row, and where it stands.
#[derive(Drop)]
pub(crate) struct Stood<'r> {
    row: &'r RawRow,
    standing: Standing,
}

// Where the row stands. A capability that is not known is to be checked from now on.
fn stand<'r, S: Verify, C: Checker<S>>(
    namespace: &NamespaceKey,
    checker: &mut C,
    unknown: &mut Unknown<'r>,
    row: &'r RawRow,
) -> Result<Standing, NoMemory>
    ensures stands { IfOk result (Stands S.rules namespace.now unknown.new row.now) }
    ensures same { C.judged_in checker.new ≡ C.judged_in checker.old }
    ensures stay { (at : ℕ) (c : Capability) → slice_get unknown.old at ≡ Some c → slice_get unknown.new at ≡ Some c }
{
    if let Some(refusal) = claim_refusal(namespace, row) {
        return Ok(Standing::Refused(refusal));
    }
    if checker.recalls(row) {
        return Ok(Standing::Known);
    }
    Ok(Standing::Unknown(unknown.place_of(row)?))
}

/// Where each of the rows stands. Each capability that is not known is to be checked once.
pub(crate) fn all_stand<'r, S: Verify, C: Checker<S>>(
    alloc: Global,
    checker: &mut C,
    unknown: &mut Unknown<'r>,
    rows: &'r [RawRow],
) -> Result<Vec<Stood<'r>>, NoMemory>
    ensures stood { IfOk result (λ stood. AllZip (IsStood S.rules (C.judged_in checker.old) unknown.new) rows.now stood.items) }
    ensures same { C.judged_in checker.new ≡ C.judged_in checker.old }
{
    let namespace = checker.namespace();
    let mut stood = Vec::with_capacity(alloc, rows.len())?;
    put_all_stood(&namespace, checker, unknown, rows, &mut stood)?;
    Ok(stood)
}

// Appends where each of the rows stands. Those that stood so before still do.
fn put_all_stood<'r, S: Verify, C: Checker<S>>(
    namespace: &NamespaceKey,
    checker: &mut C,
    unknown: &mut Unknown<'r>,
    rows: &'r [RawRow],
    stood: &mut Vec<Stood<'r>>,
) -> Result<(), NoMemory>
    ensures stood { (before : List RawValue) → AllZip (IsStood S.rules namespace.now unknown.old) before stood.old.items
        → OnOk result (AllZip (IsStood S.rules namespace.now unknown.new) (before ++ rows.now) stood.new.items) }
    ensures same { C.judged_in checker.new ≡ C.judged_in checker.old }
{
    for row in rows {
        put_stood(namespace, checker, unknown, row, stood)?;
    }
    Ok(())
}

// Appends where the row stands. Those that stood so before still do.
fn put_stood<'r, S: Verify, C: Checker<S>>(
    namespace: &NamespaceKey,
    checker: &mut C,
    unknown: &mut Unknown<'r>,
    row: &'r RawRow,
    stood: &mut Vec<Stood<'r>>,
) -> Result<(), NoMemory>
    ensures stood { (before : List RawValue) → AllZip (IsStood S.rules namespace.now unknown.old) before stood.old.items
        → OnOk result (AllZip (IsStood S.rules namespace.now unknown.new) (before ++ row.now ∷ []) stood.new.items) }
    ensures same { C.judged_in checker.new ≡ C.judged_in checker.old }
{
    let standing = stand(namespace, checker, unknown, row)?;
    stood.push(Stood { row, standing })?;
    Ok(())
}

// What is known of a row that stood so, where the capabilities that were to be checked are refused with these causes.
fn settled<'r>(causes: &[Option<RowRefusal>], stood: &Stood<'r>) -> Pending<'r>
    requires { (rules : Rules) × (n : List ℕ) × IsStoodBy rules n causes.now stood.now }
    ensures { (rules : Rules) (n : List ℕ) → IsStoodBy rules n causes.now stood.now → IsSettled rules n stood.now result }
{
    let cause = match stood.standing {
        Standing::Refused(refusal) => Some(refusal),
        Standing::Known => grant_refusal(stood.row),
        Standing::Unknown(place) => match causes[place] {
            Some(refusal) => Some(refusal),
            None => grant_refusal(stood.row),
        },
    };
    Pending {
        row: stood.row,
        cause,
    }
}

/// What is known of each of the rows, where the capabilities that were to be checked are refused with these causes.
pub(crate) fn all_settled<'r>(
    alloc: Global,
    causes: &[Option<RowRefusal>],
    stood: &[Stood<'r>],
) -> Result<Vec<Pending<'r>>, NoMemory>
    requires { (rules : Rules) × (n : List ℕ) × All (IsStoodBy rules n causes.now) stood.now }
    ensures { (rules : Rules) (n : List ℕ) → All (IsStoodBy rules n causes.now) stood.now
        → IfOk result (λ pending. AllZip (IsSettled rules n) stood.now pending.items) }
{
    let mut pending = Vec::with_capacity(alloc, stood.len())?;
    for row in stood {
        pending.push(settled(causes, row))?;
    }
    Ok(pending)
}
