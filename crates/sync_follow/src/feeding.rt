//! What one end writes that feeds the other.

ghost use Rattle.std.specs.Prelude.{◌≡◌, ◌≤◌, ◌<◌, ◌^◌, ◌++◌, [], ◌∷◌, length, map, IfOk, OnOk};
ghost use Rattle.std.specs.List.{flat_map};
ghost use Rattle.willow_entry.specs.LogRow.{log_value};
ghost use Rattle.auth_entry.specs.Rows.{entry_row};
ghost use Rattle.ns_state.specs.Log.{logged, plain_row};
ghost use Rattle.ns_cell.specs.Passes.{HadTurn, IsLater, IsPass, IsPassOf};
ghost use Rattle.row_intake.specs.Links.{ReadsNothing};
ghost use Rattle.sync_follow.specs.Feeds.{fed, fed_of, fed_row, feed_end};
ghost use Rattle.sync_follow.specs.Feeding.{WritesFeed, WritesOn, WritesRows};

use auth_entry::AuthorisedEntry;
use ns_cell::{NsCell, Pass};
use row_intake::send;
use scheme_core::Scheme;
use session_end::SessionEnd;
use spelling::{NoMemory, put_byte, put_u32};
use std::alloc::Global;
use std::sync::{Arc, Wait};
use willow_area::Area;
use willow_entry::{LogRow, Row, encode_row_frame};
use willow_outside::{Fault, Link};

/// How many bytes are gathered before they are written.
const PIECE: usize = 65_536;

/// How many rows a feed had, and up to which position of the log it went.
#[derive(Clone, Copy, Debug, PartialEq, Eq)]
pub struct Fed {
    /// The number of its rows.
    pub count: u32,
    /// The length of the log that the pass had then seen.
    pub to: u32,
}

/// Feeds the one at the other end of the link: it writes the rows of the log from the position on that the area includes and
/// that are not of the own number, in the order of the log, each behind a byte 0a in its frame; and then a byte 0b and their
/// number in four bytes. The log is read in a turn of the cell, which is over before the link is written; no row is copied, and
/// the bytes are written a piece at a time. `LinkWrite` comes only where the link's `write_faults` rose, and no other end but
/// `NoMemory` does; a front of the feed is then written.
pub fn feed<W: Wait, S: Scheme, L: Link>(
    rt: &W,
    alloc: Global,
    cell: &NsCell<AuthorisedEntry<S>>,
    pass: &mut Pass<AuthorisedEntry<S>>,
    own: u32,
    area: &Area,
    from: u32,
    link: &mut L,
) -> Result<Fed, SessionEnd>
    requires pass { IsPassOf cell.now pass.old }
    requires from { from ≤ length pass.old.seen }
    ensures later { IsLater pass.old pass.new }
    ensures own { pass.new.own ≡ pass.old.own }
    ensures turn { HadTurn pass.old pass.new }
    ensures pass { IsPass entry_row pass.new }
    ensures feeds { WritesFeed (fed (logged entry_row pass.new.seen) area.now own from (length pass.new.seen)) (length pass.new.seen) (L.facts link.old) (L.facts link.new) result }
    ensures unread { ReadsNothing (L.facts link.old) (L.facts link.new) }
    ensures most { L.most link.new ≡ L.most link.old }
{
    let rows = match cell.read_log(rt, pass, from, u32::MAX) {
        Ok(rows) => rows,
        Err(_) => return Err(SessionEnd::NoMemory),
    };
    match write_rows(alloc, &rows, own, area, link) {
        Ok(count) => Ok(Fed {
            count,
            to: pass.seen(),
        }),
        Err(Fault::Failed) => Err(SessionEnd::LinkWrite),
        Err(Fault::NoMemory) => Err(SessionEnd::NoMemory),
    }
}

// Writes the feed of the rows of a log, and answers how many it has.
fn write_rows<S: Scheme, L: Link>(
    alloc: Global,
    rows: &[LogRow<Arc<AuthorisedEntry<S>>>],
    own: u32,
    area: &Area,
    link: &mut L,
) -> Result<u32, Fault>
    requires few { length rows.now < 2 ^ 32 }
    ensures writes { WritesRows (fed_of area.now own (logged entry_row (map plain_row rows.now))) (L.facts link.old) (L.facts link.new) result }
    ensures unread { ReadsNothing (L.facts link.old) (L.facts link.new) }
    ensures most { L.most link.new ≡ L.most link.old }
{
    let mut out = Vec::new(alloc);
    let mut count = 0;
    for at in 0..rows.len() {
        match put_row(&rows[at], own, area, &mut out) {
            Ok(more) => count += more,
            Err(_) => return Err(Fault::NoMemory),
        }
        match write_piece(link, &mut out) {
            Ok(()) => {}
            Err(fault) => return Err(fault),
        }
    }
    match put_end(count, &mut out) {
        Ok(()) => {}
        Err(_) => return Err(Fault::NoMemory),
    }
    match send(link, &out) {
        Ok(()) => Ok(count),
        Err(fault) => Err(fault),
    }
}

// Writes the bytes that were gathered, where they are enough for a piece.
fn write_piece<L: Link>(link: &mut L, out: &mut Vec<u8>) -> Result<(), Fault>
    ensures writes { WritesOn out.old.items out.new.items (L.facts link.old) (L.facts link.new) result }
    ensures unread { ReadsNothing (L.facts link.old) (L.facts link.new) }
    ensures most { L.most link.new ≡ L.most link.old }
{
    if out.len() < PIECE {
        return Ok(());
    }
    match send(link, out) {
        Ok(()) => {
            out.clear();
            Ok(())
        }
        Err(fault) => Err(fault),
    }
}

// Appends the row where it is fed, and answers how many were appended.
fn put_row<S: Scheme>(
    row: &LogRow<Arc<AuthorisedEntry<S>>>,
    own: u32,
    area: &Area,
    out: &mut Vec<u8>,
) -> Result<u32, NoMemory>
    ensures feed { IfOk result (λ count. out.new.items ≡ out.old.items ++ flat_map fed_row (fed_of area.now own (log_value entry_row (plain_row row.now) ∷ []))) }
    ensures count { IfOk result (λ count. count ≡ length (fed_of area.now own (log_value entry_row (plain_row row.now) ∷ []))) }
    ensures one { IfOk result (λ count. count ≤ 1) }
{
    let entry = row.row.entry();
    if row.pass == own || !area.includes(&entry.subspace, &entry.path, entry.timestamp) {
        return Ok(0);
    }
    let _frame = row.row.row();
    put_byte(out, 10)?;
    encode_row_frame(&*row.row, out)?;
    Ok(1)
}

// Appends the end of a feed of so many rows.
fn put_end(count: u32, out: &mut Vec<u8>) -> Result<(), NoMemory>
    ensures { OnOk result (out.new.items ≡ out.old.items ++ feed_end count) }
{
    put_byte(out, 11)?;
    put_u32(out, count)
}
