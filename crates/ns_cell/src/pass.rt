//! A pass.

ghost use Rattle.std.specs.Prelude.{◌≡◌, length};
ghost use Rattle.ns_cell.specs.Passes.{IsPass};

use crate::board::Place;
use std::marker::Model;
use willow_entry::Row;

/// The right to call one cell, under a number. A contract sees of which cell it is, its number, the prefix of the
/// cell's log that it has seen, and its own list: the rows that it was told Stored, and, for pass 0, before them those
/// of the log at first.
#[derive(Drop)]
pub struct Pass<R: Row> {
    pub(crate) number: u32,
    pub(crate) seen: u32,
    pub(crate) seat: Place<R>,
}

impl<R: Row> Model for Pass<R> {
    ghost use Rattle.std.specs.Prelude.{◌≡◌, length};
    ghost use Rattle.ns_cell.specs.Passes.{PassValue};
    ghost use Rattle.ns_cell.specs.Seats.{IsAtRest, pass_of};

    ghost Value = { PassValue R };

    ghost view = { λ p. pass_of p.seat.table_id p.number p.seat.me };

    ghost invariant = { λ p. IsAtRest R.value p.number p.seat.me × (p.seen ≡ length p.seat.me.0.seen) };
}

impl<R: Row> Pass<R> {
    /// Its number.
    pub fn number(&self) -> u32
        ensures number { result ≡ self.now.number }
        ensures pass { IsPass R.value self.now }
    {
        self.number
    }

    /// How long the prefix of the log is that it has seen.
    pub fn seen(&self) -> u32
        ensures seen { result ≡ length self.now.seen }
        ensures pass { IsPass R.value self.now }
    {
        self.seen
    }
}
