//! Each kind of step keeps the rule, at whatever state `S` lies in the slot, whatever rows `R` its log has, and whatever
//! rules `L` it keeps.
//! `take` and `put back` have no law: they change no word and no view, and the table itself sees that only who has the
//! slot reads or writes it.

ghost use Rattle.log_rule.specs.Laws.{BeginsRuled, DrawsRuled, LooksRuled, HandsOnRuled, MakesRuled, LendsRuled, TakesInRuled, TurnsAreServed};

use crate::lawful::Lawful;

/// A new table keeps the rule: no ticket is drawn, the state lies in the slot, and there is one pass, which has seen the
/// log, all rows of which are its own.
pub fn beginning<S, R, L: Lawful<R>>()
    ensures { BeginsRuled S R L.is_lawful }
{}

/// An idle pass draws a ticket.
pub fn draw<S, R, L: Lawful<R>>()
    ensures { DrawsRuled S R L.is_lawful }
{}

/// Any seat looks at the ticket served. It takes the state with the turn where that is its own ticket, of which at most
/// as many as passes are out, so that no two of them are one modulo 2^64.
pub fn look<S, R, L: Lawful<R>>()
    ensures { LooksRuled S R L.is_lawful }
{}

/// A pass that has the turn, and has put back a state whose log has further rows of its own number or none, hands on.
pub fn hand_on<S, R, L: Lawful<R>>()
    ensures { HandsOnRuled S R L.is_lawful }
{}

/// The idle seat that makes the passes makes one, while it has a part left over; any seat with a part lends what it has
/// seen.
pub fn split_seat<S, R, L: Lawful<R>>()
    ensures makes { MakesRuled S R L.is_lawful }
    ensures lends { LendsRuled S R L.is_lawful }
{}

/// An idle seat with a part takes an idle seat in.
pub fn join_seat<S, R, L: Lawful<R>>()
    ensures { TakesInRuled S R L.is_lawful }
{}

/// The turns that all seats have had are at most the tickets served, and those at most the tickets drawn.
pub fn turns<S, R, L: Lawful<R>>()
    ensures { TurnsAreServed S R L.is_lawful }
{}
