//! Answers to single asks, as a side hears them.

ghost use Rattle.std.specs.Prelude.{◌≡◌, ◌+◌, ◌<◌, ◌≤◌, ◌++◌, List, [], ◌∷◌, map, length, drop, not, None, Some, IsSome, IfOk, OnOk, OnErr, vec_len, vec_capacity};
ghost use Rattle.spelling.specs.Answers.{JudgesFirst, cause_if};
ghost use Rattle.willow_area.specs.Cuts.{can_cut, lower_part, upper_part};
ghost use Rattle.willow_entry.specs.Row.{RowValue};
ghost use Rattle.exchange_rules.specs.AnyPeer.{part_asks};
ghost use Rattle.range_split.specs.Parts.{can_cut_at, cut_all};
ghost use Rattle.sync_msg.specs.Items.{HasPrints, item_value};
ghost use Rattle.sync_msg.specs.declared.item.Item.TheVariants as items;
ghost use Rattle.sync_msg.specs.declared.refusal.CoreRefusal.TheVariants.{BadCut};
ghost use Rattle.sync_core.specs.Steps.{box_of, is_above_last, remembered, row_cause, turn_heard};
ghost use Rattle.sync_core.specs.Held.{ask_value, due_in, hearing_in, owed_value, settled};
ghost use Rattle.sync_core.specs.Hears.{Does, Keeps, judged};
ghost use Rattle.sync_core.specs.declared.ask.Ask.TheVariants as asks;

use crate::ask::{Ask, Owed};
use crate::work::{Due, Ear};
use range_split::box_parts;
use std::alloc::Global;
use std::collections::VecDeque;
use sync_msg::{CoreRefusal, Item, Points, Prints};
use willow_area::{Box3, CutAt};
use willow_entry::{BareRow, Row, by_inner_place};
use willow_path::{End, NoMemory};

// Takes in a head that answers the first of the asks.
pub(crate) fn head<Q: Row>(
    alloc: Global,
    version: u8,
    ear: &mut Ear,
    item: &Item<Q>,
) -> Result<(), End<CoreRefusal>>
    requires no_rows { ear.old.due ≡ None }
    requires asked { 0 < length ear.old.owed.items }
    requires prints { HasPrints (item_value Q.value item.now) }
    ensures { (rows : List RowValue) → Does (hearing_in rows ear.old) (hearing_in rows ear.new) (turn_heard version rows (map (owed_value rows) ear.old.owed.items) (map ask_value ear.old.opens.items) (item_value Q.value item.now)) result }
{
    match (ear.owed.front(), item) {
        (Some(Owed::Print { .. }), Item::Agree) => {
            let _agreed = ear.owed.pop_front();
            Ok(())
        }
        (Some(Owed::Print { area, .. }), Item::Split { at, lower, upper }) if version == 1 => {
            let (below, above) = cut(area, at)?;
            open_two(ear, (below, *lower), (above, *upper))?;
            Ok(())
        }
        (
            Some(
                Owed::Print {
                    area,
                    print: _print,
                },
            ),
            Item::Parts { points, prints },
        ) if version != 1 => {
            let parts = parts_of(alloc, area, points)?;
            open_parts(ear, parts, prints)?;
            Ok(())
        }
        (
            Some(
                Owed::Print {
                    area: _area,
                    print: _print,
                },
            ),
            Item::Entries { count },
        ) => {
            rows_told(alloc, ear, u32::from(*count))?;
            Ok(())
        }
        (Some(Owed::Rest { area: _area }), Item::Rest { count }) => {
            rows_told(alloc, ear, *count)?;
            Ok(())
        }
        _ => Err(End::Refused(CoreRefusal::ItemMismatch)),
    }
}

// Both parts of a cut in two of an asked box.
fn cut(area: &Box3, at: &CutAt) -> Result<(Box3, Box3), End<CoreRefusal>>
    ensures answer { JudgesFirst result (cause_if (not (can_cut area.now at.now)) BadCut) }
    ensures lower { IfOk result (λ parts. parts.0 ≡ lower_part area.now at.now) }
    ensures upper { IfOk result (λ parts. parts.1 ≡ upper_part area.now at.now) }
{
    match area.cut(at) {
        Ok(parts) => Ok(parts),
        Err(End::Refused(_)) => Err(End::Refused(CoreRefusal::BadCut)),
        Err(End::NoMemory) => Err(End::NoMemory),
    }
}

// The parts of an asked box at some points.
fn parts_of(alloc: Global, area: &Box3, points: &Points) -> Result<Vec<Box3>, End<CoreRefusal>>
    ensures answer { JudgesFirst result (cause_if (not (can_cut_at area.now points.now)) BadCut) }
    ensures parts { IfOk result (λ parts. cut_all area.now points.now ≡ Some parts.items) }
{
    match box_parts(alloc, area, points) {
        Ok(parts) => Ok(parts),
        Err(End::Refused(_)) => Err(End::Refused(CoreRefusal::BadCut)),
        Err(End::NoMemory) => Err(End::NoMemory),
    }
}

// The first of the asks is answered, and opens the parts with the peer's fingerprints, from the lowest up.
fn open_parts(ear: &mut Ear, parts: Vec<Box3>, prints: &Prints) -> Result<(), NoMemory>
    requires { length prints.now ≡ vec_len parts }
    ensures opens { OnOk result (map ask_value ear.new.opens.items ≡ map ask_value ear.old.opens.items ++ part_asks parts.items prints.now) }
    ensures owed { OnOk result (ear.new.owed.items ≡ drop 1 ear.old.owed.items) }
    ensures kept { OnErr result ((rows : List RowValue) → hearing_in rows ear.new ≡ hearing_in rows ear.old) }
    ensures due { ear.new.due ≡ ear.old.due }
{
    ear.opens.reserve(parts.len())?;
    push_parts(&mut ear.opens, parts, prints);
    let _answered = ear.owed.pop_front();
    Ok(())
}

// Appends an ask for each part with its fingerprint, where there is room.
fn push_parts(opens: &mut Vec<Ask>, parts: Vec<Box3>, prints: &Prints)
    requires room { vec_len opens.old + vec_len parts ≤ vec_capacity opens.old }
    requires prints { length prints.now ≡ vec_len parts }
    ensures { map ask_value opens.new.items ≡ map ask_value opens.old.items ++ part_asks parts.items prints.now }
{
    let mut rest = VecDeque::from_vec(parts);
    for i in 0..prints.len() {
        match (rest.pop_front(), prints.get(i)) {
            (Some(area), Some(print)) => push_reserved(
                opens,
                Ask::Print {
                    area,
                    print: *print,
                },
            ),
            _ => unreachable!(),
        }
    }
}

// The first of the asks is answered, and opens two boxes with the peer's fingerprints.
fn open_two(ear: &mut Ear, lower: (Box3, [u8; 32]), upper: (Box3, [u8; 32])) -> Result<(), NoMemory>
    ensures opens { OnOk result (ear.new.opens.items ≡ ear.old.opens.items ++ asks.Print lower.0 lower.1 ∷ asks.Print upper.0 upper.1 ∷ []) }
    ensures owed { OnOk result (ear.new.owed.items ≡ drop 1 ear.old.owed.items) }
    ensures kept { OnErr result ((rows : List RowValue) → hearing_in rows ear.new ≡ hearing_in rows ear.old) }
    ensures due { ear.new.due ≡ ear.old.due }
{
    ear.opens.reserve(2)?;
    let (area, print) = lower;
    push_reserved(&mut ear.opens, Ask::Print { area, print });
    let (area, print) = upper;
    push_reserved(&mut ear.opens, Ask::Print { area, print });
    let _answered = ear.owed.pop_front();
    Ok(())
}

// Appends where there is room.
fn push_reserved(opens: &mut Vec<Ask>, ask: Ask)
    requires { vec_len opens.old < vec_capacity opens.old }
    ensures items { opens.new.items ≡ opens.old.items ++ ask ∷ [] }
    ensures capacity { vec_capacity opens.old ≤ vec_capacity opens.new }
    ensures len { vec_len opens.new ≡ vec_len opens.old + 1 }
{
    match opens.push(ask) {
        Ok(()) => {}
        Err(_) => unreachable!(),
    }
}

// So many rows follow for the first of the asks.
fn rows_told(alloc: Global, ear: &mut Ear, count: u32) -> Result<(), NoMemory>
    requires { 0 < length ear.old.owed.items }
    ensures ok { OnOk result ((rows : List RowValue) → hearing_in rows ear.new ≡ settled (map (owed_value rows) ear.old.owed.items) (map ask_value ear.old.opens.items) count []) }
    ensures kept { OnErr result ((rows : List RowValue) → hearing_in rows ear.new ≡ hearing_in rows ear.old) }
{
    ear.opens.reserve(1)?;
    settle(
        ear,
        Due {
            left: count,
            rows: Vec::new(alloc),
        },
    );
    Ok(())
}

// So many rows are due now for the first of the asks. Where none is, the ask is answered; rows that answered a
// fingerprint open what they leave to tell.
fn settle(ear: &mut Ear, due: Due)
    requires asked { 0 < length ear.old.owed.items }
    requires room { vec_len ear.old.opens < vec_capacity ear.old.opens }
    ensures { (rows : List RowValue) → hearing_in rows ear.new ≡ settled (map (owed_value rows) ear.old.owed.items) (map ask_value ear.old.opens.items) due.left due.rows.items }
{
    if due.left > 0 {
        ear.due = Some(due);
        return;
    }
    ear.due = None;
    match ear.owed.pop_front() {
        Some(Owed::Print { area, .. }) => push_reserved(
            &mut ear.opens,
            Ask::Sent {
                area,
                rows: due.rows,
            },
        ),
        Some(Owed::Rest { .. }) | None => {}
    }
}

// Takes in a row that is due.
pub(crate) fn row_due<Q: Row>(
    alloc: Global,
    ear: &mut Ear,
    item: &Item<Q>,
) -> Result<(), End<CoreRefusal>>
    requires { IsSome ear.old.due }
    ensures { (rows : List RowValue) → Does (hearing_in rows ear.old) (hearing_in rows ear.new) (due_in (map (owed_value rows) ear.old.owed.items) (map ask_value ear.old.opens.items) ear.old.due (item_value Q.value item.now)) result }
{
    match item {
        Item::Row(row) => row_read(alloc, ear, row),
        _ => Err(End::Refused(CoreRefusal::ItemMismatch)),
    }
}

// The same, for the row of the item.
fn row_read<Q: Row>(alloc: Global, ear: &mut Ear, row: &Q) -> Result<(), End<CoreRefusal>>
    requires { IsSome ear.old.due }
    ensures { (rows : List RowValue) → Does (hearing_in rows ear.old) (hearing_in rows ear.new) (due_in (map (owed_value rows) ear.old.owed.items) (map ask_value ear.old.opens.items) ear.old.due (items.Row (Q.value row.now))) result }
{
    if ear.owed.is_empty() {
        return Err(End::Refused(CoreRefusal::ItemMismatch));
    }
    row_kept(alloc, ear, row)?;
    if let Some(due) = ear.due.take() {
        settle(ear, due);
    }
    Ok(())
}

// Judges the row, remembers it, and makes room for an ask.
fn row_kept<Q: Row>(alloc: Global, ear: &mut Ear, row: &Q) -> Result<(), End<CoreRefusal>>
    requires due { IsSome ear.old.due }
    requires asked { 0 < length ear.old.owed.items }
    ensures keeps { Keeps ear.old ear.new (Q.value row.now) result }
{
    match (ear.owed.front(), &mut ear.due) {
        (Some(owed), Some(due)) => {
            judge(area_of(owed), &due.rows, row)?;
            ear.opens.reserve(1)?;
            remember(alloc, owed, &mut due.rows, row)?;
            due.left = due.left.saturating_sub(1);
            Ok(())
        }
        _ => unreachable!(),
    }
}

// The box of an ask.
fn area_of(owed: &Owed) -> &Box3
    ensures { (rows : List RowValue) → result.now ≡ box_of (owed_value rows owed.now) }
{
    match owed {
        Owed::Print { area, .. } | Owed::Rest { area } => area,
    }
}

// Whether the row may come behind those read for the box.
fn judge<Q: Row>(area: &Box3, read: &[BareRow], row: &Q) -> Result<(), End<CoreRefusal>>
    ensures { result ≡ judged (row_cause area.now read.now (Q.value row.now)) }
{
    let entry = row.entry();
    if !area.includes(&entry.subspace, &entry.path, entry.timestamp) {
        return Err(End::Refused(CoreRefusal::EntryOutside));
    }
    if !is_above_last(read, row) {
        return Err(End::Refused(CoreRefusal::RowsOutOfOrder));
    }
    Ok(())
}

// Whether the row is above the last of those read.
fn is_above_last<Q: Row>(read: &[BareRow], row: &Q) -> bool
    ensures { result ≡ is_above_last read.now (Q.value row.now) }
{
    match read.last() {
        None => true,
        Some(last) => by_inner_place(last, row).is_lt(),
    }
}

// Remembers a row that was read for the ask.
fn remember<Q: Row>(
    alloc: Global,
    owed: &Owed,
    read: &mut Vec<BareRow>,
    row: &Q,
) -> Result<(), NoMemory>
    ensures ok { OnOk result ((rows : List RowValue) → read.new.items ≡ remembered (owed_value rows owed.now) read.old.items (Q.value row.now)) }
    ensures kept { OnErr result (read.new.items ≡ read.old.items) }
{
    let row = bare(alloc, row)?;
    match owed {
        Owed::Print { .. } => {
            read.push(row)?;
        }
        Owed::Rest { .. } => {
            let mut last = Vec::new(alloc);
            last.push(row)?;
            *read = last;
        }
    }
    Ok(())
}

// A bare row of the same entry and token.
fn bare<Q: Row>(alloc: Global, row: &Q) -> Result<BareRow, NoMemory>
    ensures { IfOk result (λ copy. copy ≡ Q.value row.now) }
{
    let token = Vec::from_slice(alloc, row.token_bytes())?;
    BareRow::new(alloc, row.entry().copy()?, token)
}
