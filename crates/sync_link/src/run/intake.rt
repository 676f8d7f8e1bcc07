//! The rows that a session was sent: they are judged, and those that are authorised are offered to the cell.

ghost use Rattle.std.specs.Prelude.{◌≡◌, ◌+◌, ◌-◌, ◌^◌, ◌<◌, List, [], ◌∷◌, ◌++◌, length, OnOk};
ghost use Rattle.cap_codec.specs.Rows.{RawValue};
ghost use Rattle.auth_entry.specs.Authorised.{AuthorisedValue, verdict};
ghost use Rattle.ns_cell.specs.Passes.{PassValue, IsLater, IsPassOf};
ghost use Rattle.row_intake.specs.Tallies.{IsSum};
ghost use Rattle.sync_link.specs.Tallies.{IsTally, TakesRows};

use auth_entry::{AuthorisedEntry, Checker, RowRefusal};
use cap_codec::RawRow;
use ns_cell::{NsCell, Pass};
use row_intake::Tally;
use scheme_core::Scheme;
use spelling::{End, NoMemory};
use std::alloc::Global;
use std::sync::Wait;
use std::thread::Threads;

// Takes a row that was judged: it is offered to the cell where it is authorised, and counted.
fn take_row<W: Wait, S: Scheme>(
    rt: &W,
    cell: &NsCell<AuthorisedEntry<S>>,
    pass: &mut Pass<AuthorisedEntry<S>>,
    tally: &mut Tally,
    judged: Result<AuthorisedEntry<S>, RowRefusal>,
) -> Result<(), NoMemory>
    requires pass { IsPassOf cell.now pass.old }
    requires few { tally.old.rows < 2 ^ 64 - 1 }
    requires sums { IsSum tally.old }
    requires judged { (row : RawValue) × (judged ≡ verdict S.rules cell.now.namespace row) }
    ensures pass { IsPassOf cell.now pass.new }
    ensures later { IsLater pass.old pass.new }
    ensures takes { (start : PassValue AuthorisedValue) (rows : List RawValue) (row : RawValue)
        → judged ≡ verdict S.rules cell.now.namespace row
        → IsTally S.rules cell.now.namespace start rows pass.old tally.old
        → TakesRows S.rules cell.now.namespace start (rows ++ row ∷ []) pass.new tally.new result }
    ensures counts { OnOk result ((tally.new.rows ≡ tally.old.rows + 1) × IsSum tally.new) }
{
    match judged {
        Ok(entry) => match cell.ingest(rt, pass, entry) {
            Ok(told) => *tally = tally.with_told(Ok(told)),
            Err(End::Refused(full)) => *tally = tally.with_told(Err(full)),
            Err(End::NoMemory) => return Err(NoMemory),
        },
        Err(refusal) => *tally = tally.with_refused(refusal),
    }
    Ok(())
}

// Takes rows: they are judged together, and those that are authorised are offered to the cell, in order.
pub(crate) fn take_rows<R: Wait + Threads + Sync, S: Scheme, C: Checker<S>>(
    rt: &R,
    alloc: Global,
    cell: &NsCell<AuthorisedEntry<S>>,
    pass: &mut Pass<AuthorisedEntry<S>>,
    checker: &mut C,
    tally: &mut Tally,
    rows: Vec<RawRow>,
) -> Result<(), NoMemory>
    requires pass { IsPassOf cell.now pass.old }
    requires namespace { C.judged_in checker.old ≡ cell.now.namespace }
    requires few { tally.old.rows + length rows.items < 2 ^ 64 }
    requires sums { IsSum tally.old }
    ensures pass { IsPassOf cell.now pass.new }
    ensures later { IsLater pass.old pass.new }
    ensures namespace { C.judged_in checker.new ≡ C.judged_in checker.old }
    ensures takes { (start : PassValue AuthorisedValue) (before : List RawValue)
        → IsTally S.rules cell.now.namespace start before pass.old tally.old
        → TakesRows S.rules cell.now.namespace start (before ++ rows.items) pass.new tally.new result }
    ensures counts { OnOk result ((tally.new.rows ≡ tally.old.rows + length rows.items) × IsSum tally.new) }
{
    let verdicts = checker.check_all(rt, alloc, rows)?;
    for judged in verdicts {
        take_row(rt, cell, pass, tally, judged)?;
    }
    Ok(())
}
