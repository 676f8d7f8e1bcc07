//! A turn: a ticket is drawn, the state is taken once the ticket is served, and put back as the turn is handed on.

ghost use Rattle.std.specs.Prelude.{◌≡◌, ℕ, ◌<◌, ◌^◌, ◌++◌, List, [], ◌∷◌, None};
ghost use Rattle.willow_entry.specs.declared.row.LogRow.{LogRow};
ghost use Rattle.ns_state.specs.Log.{IsLog};
ghost use Rattle.log_rule.specs.declared.view.Book.{Book};
ghost use Rattle.log_rule.specs.declared.view.Role.TheVariants.{Idle, Holds};
ghost use Rattle.log_rule.specs.Views.{AreOf};
ghost use Rattle.log_rule.specs.Steps.{ticket_of, after_turn, TakesTurn};
ghost use Rattle.ns_cell.specs.Seats.{content, IsWaiting};

use crate::board::{Draw, HandOn, Look, NEXT, Place, SERVED, STATE, Top};
use ns_state::NsState;
use std::sync::Wait;
use std::thread;
use willow_entry::Row;

// Draws a ticket.
fn draw<R: Row>(top: &Top<R>, seat: &mut Place<R>) -> u64
    requires table { (seat.old.table_id ≡ top.now.table_id) × (top.now.table_id.words ≡ 2) }
    requires idle { (seat.old.me.0.role ≡ Idle) × (0 < seat.old.me.0.parts) × (seat.old.me.1 ≡ []) }
    ensures same { seat.new.table_id ≡ seat.old.table_id }
    ensures waits { IsWaiting seat.new.me.0.role result }
    ensures view { seat.new.me ≡ (record seat.old.me.0 { role = seat.new.me.0.role }, []) }
{
    top.fetch_add::<Draw>(seat, NEXT, 1)
}

// Waits until the ticket is served, and takes the state.
fn take<R: Row, W: Wait>(rt: &W, top: &Top<R>, seat: &mut Place<R>, ticket: u64) -> NsState<R>
    requires table { (seat.old.table_id ≡ top.now.table_id) × (top.now.table_id.words ≡ 2) }
    requires few { top.now.key.passes < 2 ^ 64 }
    requires waits { IsWaiting seat.old.me.0.role ticket × (seat.old.me.1 ≡ []) }
    ensures same { seat.new.table_id ≡ seat.old.table_id }
    ensures took { TakesTurn content (ticket_of seat.old.me.0.role) result seat.old.me.0 seat.new.me.0 }
    ensures carries { seat.new.me.1 ≡ (0, None) ∷ [] }
{
    for _ in rt.forever() {
        if top.load::<Look>(seat, SERVED) == ticket {
            return top.exchange(seat, STATE, None).unwrap();
        }
        thread::yield_now();
    }
    unreachable!()
}

// Takes a turn, and the state with it.
pub(crate) fn begin<R: Row, W: Wait>(rt: &W, top: &Top<R>, seat: &mut Place<R>) -> NsState<R>
    requires table { (seat.old.table_id ≡ top.now.table_id) × (top.now.table_id.words ≡ 2) }
    requires few { top.now.key.passes < 2 ^ 64 }
    requires idle { (seat.old.me.0.role ≡ Idle) × (0 < seat.old.me.0.parts) × (seat.old.me.1 ≡ []) }
    ensures same { seat.new.table_id ≡ seat.old.table_id }
    ensures took { TakesTurn content (ticket_of seat.new.me.0.role) result seat.old.me.0 seat.new.me.0 }
    ensures carries { seat.new.me.1 ≡ (0, None) ∷ [] }
{
    let ticket = draw(top, seat);
    take(rt, top, seat, ticket)
}

// Puts the state back, whose log may have further rows of the pass, and hands the turn on.
pub(crate) fn end<R: Row>(top: &Top<R>, seat: &mut Place<R>, state: NsState<R>)
    requires table { (seat.old.table_id ≡ top.now.table_id) × (top.now.table_id.words ≡ 2) }
    requires holds { (seat.old.me.0.role ≡ Holds (ticket_of seat.old.me.0.role)) × (0 < seat.old.me.0.parts) × (seat.old.me.1 ≡ (0, None) ∷ []) }
    requires log { (book : Book R) × (rows : List (LogRow R)) × (seat.old.me.0.books ≡ book ∷ []) × (state.log ≡ seat.old.me.0.seen ++ rows) × AreOf book.number rows }
    requires namespace { state.namespace ≡ seat.old.me.0.cell.namespace }
    requires lawful { IsLog R.value state.namespace state.log }
    ensures same { seat.new.table_id ≡ seat.old.table_id }
    ensures view { seat.new.me ≡ (after_turn state.log seat.old.me.0, []) }
{
    top.exchange(seat, STATE, Some(state));
    top.fetch_add::<HandOn>(seat, SERVED, 1);
}
