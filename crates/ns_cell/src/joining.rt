//! The passes of a cell are made one seat.

ghost use Rattle.std.specs.Prelude.{◌≡◌, ◌<◌, [], ◌∷◌, All, vec_len};
ghost use Rattle.ns_cell.specs.Passes.{IsPassOf};
ghost use Rattle.ns_cell.specs.Seats.{cell_at};
ghost use Rattle.ns_cell.specs.Joined.{IsJoined};

use crate::board::{Place, TakeIn, Top};
use crate::pass::Pass;
use willow_entry::Row;

// The seat of a pass.
fn seat_of<R: Row>(pass: Pass<R>) -> Place<R>
    ensures table { result.table_id ≡ pass.cell.table }
    ensures carries { result.me.1 ≡ [] }
    ensures joined { IsJoined R.value pass.cell (pass ∷ []) result.me.0 }
{
    pass.seat
}

// The seat of the last pass, which takes in those of all others.
pub(crate) fn join_all<R: Row>(top: &Top<R>, mut passes: Vec<Pass<R>>) -> Place<R>
    requires words { top.now.table_id.words ≡ 2 }
    requires passes { All (IsPassOf (cell_at top.now.table_id top.now.key.passes top.now.key.state.value.namespace)) passes.items }
    requires some { 0 < vec_len passes }
    ensures table { result.table_id ≡ top.now.table_id }
    ensures carries { result.me.1 ≡ [] }
    ensures joined { IsJoined R.value (cell_at top.now.table_id top.now.key.passes top.now.key.state.value.namespace) passes.items result.me.0 }
{
    let mut seat = match passes.pop() {
        Some(pass) => seat_of(pass),
        None => unreachable!(),
    };
    while let Some(pass) = passes.pop() {
        top.join_seat::<TakeIn>(&mut seat, seat_of(pass));
    }
    seat
}
