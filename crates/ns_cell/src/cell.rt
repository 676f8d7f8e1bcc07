//! The cell.

ghost use Rattle.std.specs.Prelude.{◌≡◌, ◌⊎◌, ◌<◌, ◌≤◌, map, take, drop, All, IfOk, vec_len};
ghost use mathlib.Core.List.{IsPrefix};
ghost use Rattle.willow_entry.specs.Row.{live};
ghost use Rattle.ns_state.specs.Log.{IsLog, values, plain_row};
ghost use Rattle.log_rule.specs.Views.{AreOf};
ghost use Rattle.ns_cell.specs.declared.limits.TheConstants.{PASS_LIMIT};
ghost use Rattle.ns_cell.specs.Passes.{HadTurn, IsPassOf, IsPass, IsLater, new_passes};
ghost use Rattle.ns_cell.specs.Answers.{IsOffered};
ghost use Rattle.ns_cell.specs.Closed.{IsClosed};

use crate::board::Board;
use crate::joining::join_all;
use crate::making::{lay, make_passes};
use crate::meeting::learn_from;
use crate::pass::Pass;
use crate::turn::begin;
use crate::work;
use block_store::Snapshot;
use ns_state::{LogFull, NsState, Told};
use spelling::{End, NoMemory};
use std::alloc::Global;
use std::marker::Model;
use std::sync::{Arc, Wait};
use willow_entry::{LogRow, Row};

/// The state of a namespace, which the passes that were made with it share. A contract sees which cell it is, how many
/// passes it has, and its namespace.
#[derive(Drop)]
pub struct NsCell<R: Row> {
    table: Board<R>,
    passes: u32,
}

impl<R: Row> Model for NsCell<R> {
    ghost use Rattle.std.specs.Prelude.{◌≡◌, ◌<◌, ◌≤◌};
    ghost use Rattle.ns_cell.specs.declared.limits.TheConstants.{PASS_LIMIT};
    ghost use Rattle.ns_cell.specs.Passes.{CellValue};
    ghost use Rattle.ns_cell.specs.Seats.{cell_at};

    ghost Value = { CellValue };

    ghost view = { λ c. cell_at c.table.shared.table_id c.table.shared.key.passes c.table.shared.key.state.value.namespace };

    ghost invariant = { λ c. (c.table.shared.key.passes ≡ c.passes) × (0 < c.passes) × (c.passes ≤ PASS_LIMIT) × (c.table.shared.table_id.words ≡ 2) };
}

impl<R: Row> NsCell<R> {
    /// A cell over the state, whose rows are all of pass 0, with from 1 to `PASS_LIMIT` passes: they have the numbers
    /// from 0 on, in order, and have seen the log, which is the own list of pass 0.
    pub fn new(
        alloc: Global,
        state: NsState<R>,
        passes: u32,
    ) -> Result<(NsCell<R>, Vec<Pass<R>>), NoMemory>
        requires passes { (0 < passes) × (passes ≤ PASS_LIMIT) }
        requires opening { AreOf 0 state.log }
        ensures cell { IfOk result (λ r. (r.0.passes ≡ passes) × (r.0.namespace ≡ state.namespace)) }
        ensures passes { IfOk result (λ r. r.1.items ≡ new_passes r.0 state.log 0 passes) }
        ensures count { IfOk result (λ r. vec_len r.1 ≡ passes) }
        ensures of_cell { IfOk result (λ r. All (IsPassOf r.0) r.1.items) }
    {
        let seen = state.front();
        let (table, seat) = lay(alloc, state, passes)?;
        let all = make_passes(alloc, &table.shared, seat, seen, passes)?;
        Ok((NsCell { table, passes }, all))
    }

    /// The number of passes that were made with it.
    pub fn passes(&self) -> u32
        ensures { result ≡ self.now.passes }
    {
        self.passes
    }

    /// Offers a row of the namespace in a turn, under the number of the pass. After any answer the pass has seen the whole
    /// log of that moment; where the row is not stored, its own list stays.
    pub fn ingest<W: Wait>(&self, rt: &W, pass: &mut Pass<R>, row: R) -> Result<Told, End<LogFull>>
        requires pass { IsPassOf self.now pass.old }
        requires namespace { (R.value row).entry.namespace ≡ self.now.namespace }
        ensures later { IsLater pass.old pass.new }
        ensures offered { IsOffered R.value pass.old row pass.new result }
        ensures turn { HadTurn pass.old pass.new }
        ensures pass { IsPass R.value pass.new }
    {
        let (answer, front) = work::offer(rt, &self.table.shared, &mut pass.seat, pass.number, row);
        pass.seen = front;
        answer
    }

    /// What is live of the log, which the pass then has seen whole, in a turn. No row is copied.
    pub fn snapshot<W: Wait>(&self, rt: &W, pass: &mut Pass<R>) -> Result<Snapshot<R>, NoMemory>
        requires { IsPassOf self.now pass.old }
        ensures later { IsLater pass.old pass.new }
        ensures own { pass.new.own ≡ pass.old.own }
        ensures turn { HadTurn pass.old pass.new }
        ensures live { IfOk result (λ snapshot. map R.value snapshot ≡ live (values R.value pass.new.seen)) }
        ensures pass { IsPass R.value pass.new }
    {
        let (snapshot, front) = work::snapshot(rt, &self.table.shared, &mut pass.seat, pass.number);
        pass.seen = front;
        snapshot
    }

    /// At most `most` rows of the log from position `from` on, fewer only at the log's end, in a turn. No row is copied.
    pub fn read_log<W: Wait>(
        &self,
        rt: &W,
        pass: &mut Pass<R>,
        from: u32,
        most: u32,
    ) -> Result<Vec<LogRow<Arc<R>>>, NoMemory>
        requires { IsPassOf self.now pass.old }
        ensures later { IsLater pass.old pass.new }
        ensures own { pass.new.own ≡ pass.old.own }
        ensures turn { HadTurn pass.old pass.new }
        ensures rows { IfOk result (λ rows. map plain_row rows.items ≡ take most (drop from pass.new.seen)) }
        ensures pass { IsPass R.value pass.new }
    {
        let (rows, front) = work::read(
            rt,
            &self.table.shared,
            &mut pass.seat,
            pass.number,
            from,
            most,
        );
        pass.seen = front;
        rows
    }

    /// Both passes have then seen what the one had seen that had seen more. It takes no turn and waits for nobody.
    pub fn meet(&self, one: &mut Pass<R>, other: &mut Pass<R>)
        requires passes { IsPassOf self.now one.old × IsPassOf self.now other.old }
        ensures later { IsLater one.old one.new × IsLater other.old other.new }
        ensures met { IsPrefix other.old.seen one.new.seen × IsPrefix one.old.seen other.new.seen }
        ensures same { one.new.seen ≡ other.new.seen }
        ensures no_more { (one.new.seen ≡ one.old.seen) ⊎ (one.new.seen ≡ other.old.seen) }
        ensures own { (one.new.own ≡ one.old.own) × (other.new.own ≡ other.old.own) }
        ensures turns { (one.new.turns ≡ one.old.turns) × (other.new.turns ≡ other.old.turns) }
        ensures pass { IsPass R.value one.new × IsPass R.value other.new }
    {
        let top = &self.table.shared;
        learn_from(top, one, other);
        learn_from(top, other, one);
    }

    /// Ends the cell, of which all passes are given back, and gives the state, in a turn. Its log is the longest of what
    /// the passes have seen, and the rows of each number are the own list of the pass of that number.
    pub fn close<W: Wait>(self, rt: &W, passes: Vec<Pass<R>>) -> NsState<R>
        requires passes { All (IsPassOf self) passes.items }
        requires all { vec_len passes ≡ self.passes }
        ensures closed { IsClosed passes.items result.log }
        ensures log { IsLog R.value self.namespace result.log }
        ensures namespace { result.namespace ≡ self.namespace }
    {
        let top = &self.table.shared;
        let mut seat = join_all(top, passes);
        begin(rt, top, &mut seat)
    }
}
