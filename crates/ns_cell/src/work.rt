//! What a pass does in its turn: it offers a row, takes a snapshot, or reads the log.

ghost use Rattle.std.specs.Prelude.{◌≡◌, ◌<◌, ◌^◌, length, map, take, drop, IfOk};
ghost use Rattle.willow_entry.specs.Row.{live};
ghost use Rattle.ns_state.specs.Log.{values, plain_row};
ghost use Rattle.ns_cell.specs.Passes.{HadTurn, IsLater};
ghost use Rattle.ns_cell.specs.Answers.{IsOffered};
ghost use Rattle.ns_cell.specs.Seats.{IsAtRest, pass_of};

use crate::board::{Place, Top};
use crate::turn::{begin, end};
use block_store::Snapshot;
use ns_state::{LogFull, Told};
use spelling::{End, NoMemory};
use std::sync::{Arc, Wait};
use willow_entry::{LogRow, Row};

// Offers the row under the number. Tells how long the log is then.
pub(crate) fn offer<R: Row, W: Wait>(
    rt: &W,
    top: &Top<R>,
    seat: &mut Place<R>,
    number: u32,
    row: R,
) -> (Result<Told, End<LogFull>>, u32)
    requires table { (seat.old.table_id ≡ top.now.table_id) × (top.now.table_id.words ≡ 2) }
    requires few { top.now.key.passes < 2 ^ 64 }
    requires rest { IsAtRest R.value number seat.old.me }
    requires namespace { (R.value row).entry.namespace ≡ seat.old.me.0.cell.namespace }
    ensures same { seat.new.table_id ≡ seat.old.table_id }
    ensures rest { IsAtRest R.value number seat.new.me }
    ensures later { IsLater (pass_of seat.old.table_id number seat.old.me) (pass_of seat.new.table_id number seat.new.me) }
    ensures offered { IsOffered R.value (pass_of seat.old.table_id number seat.old.me) row (pass_of seat.new.table_id number seat.new.me) result.0 }
    ensures turn { HadTurn (pass_of seat.old.table_id number seat.old.me) (pass_of seat.new.table_id number seat.new.me) }
    ensures front { result.1 ≡ length seat.new.me.0.seen }
{
    let mut state = begin(rt, top, seat);
    let answer = state.ingest(number, row);
    let front = state.front();
    end(top, seat, state);
    (answer, front)
}

// What is live of the log, and how long that is.
pub(crate) fn snapshot<R: Row, W: Wait>(
    rt: &W,
    top: &Top<R>,
    seat: &mut Place<R>,
    number: u32,
) -> (Result<Snapshot<R>, NoMemory>, u32)
    requires table { (seat.old.table_id ≡ top.now.table_id) × (top.now.table_id.words ≡ 2) }
    requires few { top.now.key.passes < 2 ^ 64 }
    requires rest { IsAtRest R.value number seat.old.me }
    ensures same { seat.new.table_id ≡ seat.old.table_id }
    ensures rest { IsAtRest R.value number seat.new.me }
    ensures later { IsLater (pass_of seat.old.table_id number seat.old.me) (pass_of seat.new.table_id number seat.new.me) }
    ensures own { (pass_of seat.new.table_id number seat.new.me).own ≡ (pass_of seat.old.table_id number seat.old.me).own }
    ensures live { IfOk result.0 (λ snapshot. map R.value snapshot ≡ live (values R.value seat.new.me.0.seen)) }
    ensures turn { HadTurn (pass_of seat.old.table_id number seat.old.me) (pass_of seat.new.table_id number seat.new.me) }
    ensures front { result.1 ≡ length seat.new.me.0.seen }
{
    let state = begin(rt, top, seat);
    let snapshot = state.snapshot();
    let front = state.front();
    end(top, seat, state);
    (snapshot, front)
}

// At most `most` rows of the log from the position on, and how long the log is.
pub(crate) fn read<R: Row, W: Wait>(
    rt: &W,
    top: &Top<R>,
    seat: &mut Place<R>,
    number: u32,
    from: u32,
    most: u32,
) -> (Result<Vec<LogRow<Arc<R>>>, NoMemory>, u32)
    requires table { (seat.old.table_id ≡ top.now.table_id) × (top.now.table_id.words ≡ 2) }
    requires few { top.now.key.passes < 2 ^ 64 }
    requires rest { IsAtRest R.value number seat.old.me }
    ensures same { seat.new.table_id ≡ seat.old.table_id }
    ensures rest { IsAtRest R.value number seat.new.me }
    ensures later { IsLater (pass_of seat.old.table_id number seat.old.me) (pass_of seat.new.table_id number seat.new.me) }
    ensures own { (pass_of seat.new.table_id number seat.new.me).own ≡ (pass_of seat.old.table_id number seat.old.me).own }
    ensures rows { IfOk result.0 (λ rows. map plain_row rows.items ≡ take most (drop from seat.new.me.0.seen)) }
    ensures turn { HadTurn (pass_of seat.old.table_id number seat.old.me) (pass_of seat.new.table_id number seat.new.me) }
    ensures front { result.1 ≡ length seat.new.me.0.seen }
{
    let state = begin(rt, top, seat);
    let rows = state.read_log(from, most);
    let front = state.front();
    end(top, seat, state);
    (rows, front)
}
