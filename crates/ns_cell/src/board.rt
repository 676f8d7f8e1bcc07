//! The table of a cell. Word 0 is the next ticket and word 1 the one that is served, both modulo 2^64. The one slot has
//! the state, or nothing while a pass has the turn.

use atomic_table::{Join, Play, Seat, Shared, Split, Table, TableRule};
use log_rule::View;
use ns_state::NsState;
use std::alloc::Global;
use std::marker::PhantomData;
use std::snapshot::Snapshot;
use willow_entry::Row;

// The word of the next ticket.
pub(crate) const NEXT: usize = 0;

// The word of the ticket that is served.
pub(crate) const SERVED: usize = 1;

// The slot of the state.
pub(crate) const STATE: usize = 0;

/// What a cell is made of, for its rule.
#[derive(Drop)]
pub struct Start<R: Row> {
    pub passes: u64,
    pub state: Snapshot<NsState<R>>,
}

/// The rule of the table.
pub struct LogRule<R> {
    rows: PhantomData<R>,
}

impl<R: Row> TableRule<Option<NsState<R>>, View<R>, Start<R>> for LogRule<R> {
    ghost use Rattle.log_rule.specs.Steps.{first_view};
    ghost use Rattle.ns_cell.specs.Seats.{CellRule};

    ghost holds = { λ start. CellRule R.value (record { passes = start.passes; namespace = start.state.value.namespace }) };

    ghost first = { λ start. first_view (record { passes = start.passes; namespace = start.state.value.namespace }) start.state.value.log };
}

pub(crate) type Board<R> = Table<Option<NsState<R>>, View<R>, Start<R>, LogRule<R>, Global>;

pub(crate) type Top<R> = Shared<Option<NsState<R>>, View<R>, Start<R>, LogRule<R>>;

pub(crate) type Place<R> = Seat<Option<NsState<R>>, View<R>>;

// A ticket is drawn.
pub(crate) struct Draw;

impl<R: Row> Play<Option<NsState<R>>, View<R>> for Draw {
    ghost use Rattle.log_rule.specs.Steps.{Draws};

    ghost then = { Draws };
}

// The ticket served is looked at, and where it is the own one the state is taken.
pub(crate) struct Look;

impl<R: Row> Play<Option<NsState<R>>, View<R>> for Look {
    ghost use Rattle.log_rule.specs.Steps.{Looks};
    ghost use Rattle.ns_cell.specs.Seats.{content};

    ghost then = { Looks content };
}

// The turn is handed on with the state.
pub(crate) struct HandOn;

impl<R: Row> Play<Option<NsState<R>>, View<R>> for HandOn {
    ghost use Rattle.log_rule.specs.Steps.{HandsOn};
    ghost use Rattle.ns_cell.specs.Seats.{content};

    ghost then = { HandsOn content };
}

// A pass is made, with the next number.
pub(crate) struct Make;

impl<R> Split<View<R>> for Make {
    ghost use Rattle.log_rule.specs.Steps.{after_making, made_view};

    ghost left = { after_making };

    ghost right = { made_view };
}

// What a pass has seen is lent.
pub(crate) struct Lend;

impl<R> Split<View<R>> for Lend {
    ghost use Rattle.log_rule.specs.Steps.{lent_view};

    ghost left = { λ view. view };

    ghost right = { lent_view };
}

// A seat takes another in.
pub(crate) struct TakeIn;

impl<R> Join<View<R>> for TakeIn {
    ghost use Rattle.log_rule.specs.Steps.{joined_view, spent_view};

    ghost both = { joined_view };

    ghost spent = { spent_view };
}
