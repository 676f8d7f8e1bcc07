//! The rows of a piece are judged list by list.

ghost use Rattle.std.specs.Prelude.{◌≡◌, ◌+◌, ◌^◌, ◌<◌, List, ◌++◌, length, OnOk};
ghost use Rattle.cap_codec.specs.Rows.{RawValue};
ghost use Rattle.auth_entry.specs.Authorised.{AuthorisedValue};
ghost use Rattle.ns_cell.specs.Passes.{PassValue, IsLater, IsPassOf};
ghost use Rattle.row_intake.specs.Tallies.{IsSum};
ghost use Rattle.sync_link.specs.Tallies.{IsTally, TakesRows};

use crate::run::intake::take_rows;
use crate::run::waiting::WaitingLists;
use crate::side::lists::Lists;
use auth_entry::{AuthorisedEntry, Checker};
use ns_cell::{NsCell, Pass};
use row_intake::Tally;
use scheme_core::Scheme;
use spelling::NoMemory;
use std::alloc::Global;
use std::sync::Wait;
use std::thread::Threads;

// Takes the rows that came with a piece, those of each list by themselves, and answers how many are due yet of the last.
pub(crate) fn take_lists<R: Wait + Threads + Sync, S: Scheme, C: Checker<S>>(
    rt: &R,
    alloc: Global,
    cell: &NsCell<AuthorisedEntry<S>>,
    pass: &mut Pass<AuthorisedEntry<S>>,
    checker: &mut C,
    tally: &mut Tally,
    lists: Lists,
) -> Result<u32, NoMemory>
    requires pass { IsPassOf cell.now pass.old }
    requires namespace { C.judged_in checker.old ≡ cell.now.namespace }
    requires few { tally.old.rows + length lists.rows.items < 2 ^ 64 }
    requires sums { IsSum tally.old }
    ensures pass { IsPassOf cell.now pass.new }
    ensures later { IsLater pass.old pass.new }
    ensures namespace { C.judged_in checker.new ≡ C.judged_in checker.old }
    ensures takes { (start : PassValue AuthorisedValue) (before : List RawValue)
        → IsTally S.rules cell.now.namespace start before pass.old tally.old
        → TakesRows S.rules cell.now.namespace start (before ++ lists.rows.items) pass.new tally.new result }
    ensures counts { OnOk result (tally.new.rows ≡ tally.old.rows + length lists.rows.items) }
    ensures sums { OnOk result (IsSum tally.new) }
{
    let mut waiting = WaitingLists::new(lists);
    'judging: while let Some(count) = waiting.whole() {
        let list = waiting.take_first(alloc, count)?;
        take_rows(rt, alloc, cell, pass, checker, tally, list)?;
    }
    let due = waiting.due();
    let rest = waiting.into_rows();
    take_rows(rt, alloc, cell, pass, checker, tally, rest)?;
    Ok(due)
}
