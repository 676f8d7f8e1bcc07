//! A cell is made, with all its passes.

ghost use Rattle.std.specs.Prelude.{◌≡◌, ◌<◌, ◌≤◌, [], length, IfOk};
ghost use Rattle.willow_entry.specs.Row.{RowValue};
ghost use Rattle.ns_state.specs.Log.{IsLog};
ghost use Rattle.log_rule.specs.Views.{AreOf};
ghost use Rattle.log_rule.specs.Steps.{first_view};
ghost use Rattle.ns_cell.specs.declared.limits.TheConstants.{PASS_LIMIT};
ghost use Rattle.ns_cell.specs.Passes.{new_passes};

use crate::board::{Board, Make, Place, Start, Top};
use crate::pass::Pass;
use atomic_table::Table;
use ns_state::NsState;
use spelling::NoMemory;
use std::alloc::Global;
use std::snapshot::Snapshot;
use willow_entry::Row;

// The table over the state, and the seat from which the passes are made.
pub(crate) fn lay<R: Row>(
    alloc: Global,
    state: NsState<R>,
    passes: u32,
) -> Result<(Board<R>, Place<R>), NoMemory>
    requires passes { 0 < passes }
    requires opening { AreOf 0 state.log }
    requires lawful { IsLog R.value state.namespace state.log }
    ensures words { IfOk result (λ r. r.0.shared.table_id.words ≡ 2) }
    ensures key { IfOk result (λ r. (r.0.shared.key.passes ≡ passes) × (r.0.shared.key.state.value ≡ state)) }
    ensures seat { IfOk result (λ r. r.1.table_id ≡ r.0.shared.table_id) }
    ensures view { IfOk result (λ r. r.1.me ≡ (first_view (record { passes = passes; namespace = state.namespace }) state.log, [])) }
{
    let start = Start {
        passes: u64::from(passes),
        state: Snapshot::of(&state),
    };
    let mut slots = Vec::with_capacity(alloc, 1)?;
    slots.push_reserved(Some(state));
    match Table::new(alloc, &[0, 0], slots, &start) {
        Ok(laid) => Ok(laid),
        Err(_) => Err(NoMemory),
    }
}

// The passes, made from the first seat, which is then that of pass 0.
pub(crate) fn make_passes<R: Row>(
    alloc: Global,
    top: &Top<R>,
    seat: Place<R>,
    seen: u32,
    passes: u32,
) -> Result<Vec<Pass<R>>, NoMemory>
    requires passes { (0 < passes) × (passes ≤ PASS_LIMIT) }
    requires table { (seat.table_id ≡ top.now.table_id) × (top.now.table_id.words ≡ 2) }
    requires seat { (seat.me ≡ (first_view seat.me.0.cell seat.me.0.seen, [])) × (seat.me.0.cell.passes ≡ passes) }
    requires log { AreOf 0 seat.me.0.seen × IsLog R.value seat.me.0.cell.namespace seat.me.0.seen }
    requires seen { seen ≡ length seat.me.0.seen }
    ensures { IfOk result (λ all. all.items ≡ new_passes (record { table = seat.table_id; passes = passes; namespace = seat.me.0.cell.namespace }) seat.me.0.seen 0 passes) }
{
    let mut seat = seat;
    let mut all = Vec::with_capacity(alloc, passes as usize)?;
    for number in 1..passes {
        let made = top.split_seat::<Make>(&mut seat);
        all.push_reserved(Pass {
            number,
            seen,
            seat: made,
        });
    }
    let first = Pass {
        number: 0,
        seen,
        seat,
    };
    all.insert(0, first)?;
    Ok(all)
}
