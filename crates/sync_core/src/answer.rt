//! The answers to asks.

ghost use Rattle.std.specs.Prelude.{◌≡◌, ℕ, ◌++◌, ◌<◌, ◌≤◌, List, [], ◌∷◌, map, flat_map, option_map, slice_get, Some, None, IsTrue, OnOk, IfOk, length};
ghost use Rattle.willow_area.specs.declared.cut.CutAt.TheVariants as cuts;
ghost use Rattle.willow_entry.specs.Row.{RowValue};
ghost use Rattle.block_store.specs.BoxKinds.{IsOfOneNamespace};
ghost use Rattle.block_store.specs.InBox.{is_in, rows_in};
ghost use Rattle.block_store.specs.Positions.{positions};
ghost use Rattle.exchange_rules.specs.Answer.{reply, differing, lacking, opened, print_ask, turn};
ghost use Rattle.exchange_rules.specs.Rules.{box_print};
ghost use Rattle.exchange_rules.specs.Items as rules;
ghost use Rattle.range_split.specs.Choice.{choice};
ghost use Rattle.range_split.specs.declared.choice.TheConstants.{ENTRIES_MAX};
ghost use Rattle.range_split.specs.Points.{cuts_at};
ghost use Rattle.range_split.specs.Quarters.{even_choice};
ghost use Rattle.sync_msg.specs.CutPoints.{are_of_one};
ghost use Rattle.sync_core.specs.SyncRules.{IsVersion, sync_rules};
ghost use Rattle.sync_core.specs.Flat.{items_of, turn_items};
ghost use Rattle.sync_core.specs.Held.{Tell, ask_value, owed_value};
ghost use Rattle.sync_core.specs.Answers.{Adds};
ghost use Rattle.sync_core.specs.Orders.{IsOrderOf};

use crate::ask::{Ask, Owed};
use crate::boxes::found_in;
use crate::by_time::order_for;
use crate::out_item::OutItem;
use crate::print::print_of;
use crate::rows::{positions_lacking, push_rows};
use block_store::{Snapshot, TimeOrder};
use range_split::{Choice, box_parts, choose, choose_parts_among};
use std::alloc::Global;
use std::collections::VecDeque;
use sync_msg::{Points, Prints};
use willow_area::{Box3, CutAt};
use willow_entry::{BareRow, Row};
use willow_path::{End, NoMemory};

// A turn: its items, and what it opens to the peer.
#[derive(Drop)]
pub(crate) struct Turn {
    pub(crate) items: Vec<OutItem>,
    pub(crate) opens: Vec<Owed>,
}

impl Turn {
    // Nothing is said yet.
    pub(crate) fn new(alloc: Global) -> Turn
        ensures items { result.items.items ≡ [] }
        ensures opens { result.opens.items ≡ [] }
    {
        Turn {
            items: Vec::new(alloc),
            opens: Vec::new(alloc),
        }
    }
}

// The turn that answers the asks, in order, and ends with a farewell where it opens nothing.
pub(crate) fn turn_of<R: Row>(
    alloc: Global,
    version: u8,
    snapshot: &Snapshot<R>,
    order: &mut Option<TimeOrder>,
    asks: &[Ask],
) -> Result<Turn, NoMemory>
    requires version { IsVersion version }
    requires one { IsOfOneNamespace (map R.value snapshot.now) }
    requires order { IsOrderOf order.old (map R.value snapshot.now) }
    ensures order { IsOrderOf order.new (map R.value snapshot.now) }
    ensures items { IfOk result (λ made. Tell (map R.value snapshot.now) made.items.items (turn_items version (turn (sync_rules version) (map R.value snapshot.now) (map ask_value asks.now)))) }
    ensures opens { IfOk result (λ made. map (owed_value (map R.value snapshot.now)) made.opens.items ≡ opened (sync_rules version) (map R.value snapshot.now) (map ask_value asks.now)) }
{
    order_for(alloc, snapshot, asks, order)?;
    let mut turn = answers_to(alloc, version, snapshot, order, asks)?;
    let end = if turn.opens.is_empty() {
        OutItem::Bye
    } else {
        OutItem::EndTurn
    };
    turn.items.push(end)?;
    Ok(turn)
}

// The answers to the asks, in order.
fn answers_to<R: Row>(
    alloc: Global,
    version: u8,
    snapshot: &Snapshot<R>,
    order: &Option<TimeOrder>,
    asks: &[Ask],
) -> Result<Turn, NoMemory>
    requires version { IsVersion version }
    requires one { IsOfOneNamespace (map R.value snapshot.now) }
    requires order { IsOrderOf order.now (map R.value snapshot.now) }
    ensures items { IfOk result (λ made. Tell (map R.value snapshot.now) made.items.items (flat_map (items_of version) (turn (sync_rules version) (map R.value snapshot.now) (map ask_value asks.now)).items)) }
    ensures opens { IfOk result (λ made. map (owed_value (map R.value snapshot.now)) made.opens.items ≡ opened (sync_rules version) (map R.value snapshot.now) (map ask_value asks.now)) }
{
    let mut turn = Turn::new(alloc);
    for ask in asks {
        answer(alloc, version, snapshot, order, ask, &mut turn)?;
    }
    Ok(turn)
}

// Says the answer to an ask.
fn answer<R: Row>(
    alloc: Global,
    version: u8,
    snapshot: &Snapshot<R>,
    order: &Option<TimeOrder>,
    ask: &Ask,
    turn: &mut Turn,
) -> Result<(), NoMemory>
    requires version { IsVersion version }
    requires one { IsOfOneNamespace (map R.value snapshot.now) }
    requires order { IsOrderOf order.now (map R.value snapshot.now) }
    ensures { OnOk result (Adds version (map R.value snapshot.now) turn.old turn.new (reply (sync_rules version) (map R.value snapshot.now) (ask_value ask.now))) }
{
    match ask {
        Ask::Print { area, print } => {
            if *print == print_of(snapshot, order, area) {
                agree(turn)
            } else {
                differ(alloc, version, snapshot, order, area, turn)
            }
        }
        Ask::Sent { area, rows } => rest(alloc, snapshot, order, area, rows, turn),
    }
}

// Says that the fingerprints are equal.
fn agree(turn: &mut Turn) -> Result<(), NoMemory>
    ensures { OnOk result ((version : ℕ) (rows : List RowValue) → Adds version rows turn.old turn.new (record { item = rules.Agree; opens = [] })) }
{
    turn.items.push(OutItem::Agree)?;
    Ok(())
}

// Says how the rows of a box differ: by all of them, or by the cut of the version.
fn differ<R: Row>(
    alloc: Global,
    version: u8,
    snapshot: &Snapshot<R>,
    order: &Option<TimeOrder>,
    area: &Box3,
    turn: &mut Turn,
) -> Result<(), NoMemory>
    requires version { IsVersion version }
    requires one { IsOfOneNamespace (map R.value snapshot.now) }
    requires order { IsOrderOf order.now (map R.value snapshot.now) }
    ensures { OnOk result (Adds version (map R.value snapshot.now) turn.old turn.new (differing (sync_rules version) (map R.value snapshot.now) area.now ((sync_rules version).choice (rows_in area.now (map R.value snapshot.now))))) }
{
    if version == 1 {
        differ_in_two(snapshot, order, area, turn)
    } else {
        differ_in_parts(alloc, snapshot, order, area, turn)
    }
}

// The same in version 1: by all of them, or by a cut of the box in two.
fn differ_in_two<R: Row>(
    snapshot: &Snapshot<R>,
    order: &Option<TimeOrder>,
    area: &Box3,
    turn: &mut Turn,
) -> Result<(), NoMemory>
    requires { IsOrderOf order.now (map R.value snapshot.now) }
    ensures { OnOk result (Adds 1 (map R.value snapshot.now) turn.old turn.new (differing (sync_rules 1) (map R.value snapshot.now) area.now (option_map cuts_at (choice (rows_in area.now (map R.value snapshot.now)))))) }
{
    match choose(snapshot, area) {
        Choice::Entries => entries(area, &found_in(snapshot, order, area)?, turn),
        Choice::AtSubspace(key) => split(snapshot, order, area, CutAt::Subspace(key), turn),
        Choice::AtPathOf(at) => split(snapshot, order, area, path_at(snapshot, at)?, turn),
    }
}

// The same in version 2: by all of them, or by a cut of the box in parts.
fn differ_in_parts<R: Row>(
    alloc: Global,
    snapshot: &Snapshot<R>,
    order: &Option<TimeOrder>,
    area: &Box3,
    turn: &mut Turn,
) -> Result<(), NoMemory>
    requires one { IsOfOneNamespace (map R.value snapshot.now) }
    requires order { IsOrderOf order.now (map R.value snapshot.now) }
    ensures { OnOk result (Adds 2 (map R.value snapshot.now) turn.old turn.new (differing (sync_rules 2) (map R.value snapshot.now) area.now (option_map cuts_at (even_choice (rows_in area.now (map R.value snapshot.now)))))) }
{
    let found = found_in(snapshot, order, area)?;
    match choose_parts_among(alloc, snapshot, area, &found)? {
        None => entries(area, &found, turn),
        Some(points) => parts(alloc, snapshot, order, area, points, turn),
    }
}

// The cut at the path of the row at the position.
fn path_at<R: Row>(snapshot: &Snapshot<R>, at: u32) -> Result<CutAt, NoMemory>
    requires { at < length snapshot.now }
    ensures { IfOk result (λ cut. (row : RowValue) → slice_get (map R.value snapshot.now) at ≡ Some row → cut ≡ cuts.Path row.entry.path) }
{
    match snapshot.get(at) {
        None => unreachable!(),
        Some(row) => Ok(CutAt::Path(row.entry().path.copy()?)),
    }
}

// Says all rows of a box, which stand at these positions, and opens it with them.
fn entries(area: &Box3, found: &[u32], turn: &mut Turn) -> Result<(), NoMemory>
    requires { length found.now ≤ ENTRIES_MAX }
    ensures { OnOk result ((version : ℕ) (rows : List RowValue) → found.now ≡ positions (is_in area.now) rows → Adds version rows turn.old turn.new (differing (sync_rules version) rows area.now None)) }
{
    turn.items.push(OutItem::Entries {
        count: found.len() as u8,
    })?;
    push_rows(found, &mut turn.items)?;
    turn.opens.push(Owed::Rest { area: area.copy()? })?;
    Ok(())
}

// Says the rows of a box that are not among those sent.
fn rest<R: Row>(
    alloc: Global,
    snapshot: &Snapshot<R>,
    order: &Option<TimeOrder>,
    area: &Box3,
    sent: &[BareRow],
    turn: &mut Turn,
) -> Result<(), NoMemory>
    requires { IsOrderOf order.now (map R.value snapshot.now) }
    ensures { OnOk result ((version : ℕ) → Adds version (map R.value snapshot.now) turn.old turn.new (record { item = rules.Rest (lacking (sync_rules version) (map R.value snapshot.now) area.now sent.now); opens = [] })) }
{
    let positions = positions_lacking(alloc, snapshot, order, area, sent)?;
    turn.items.push(OutItem::Rest {
        count: positions.len() as u32,
    })?;
    push_rows(&positions, &mut turn.items)
}

// Says a cut of a box in two with the fingerprints of both parts, and opens them. Rows of one namespace are never cut at
// a point that is not inside the box; of others nothing is said then.
fn split<R: Row>(
    snapshot: &Snapshot<R>,
    order: &Option<TimeOrder>,
    area: &Box3,
    at: CutAt,
    turn: &mut Turn,
) -> Result<(), NoMemory>
    requires { IsOrderOf order.now (map R.value snapshot.now) }
    ensures { OnOk result (Adds 1 (map R.value snapshot.now) turn.old turn.new (differing (sync_rules 1) (map R.value snapshot.now) area.now (Some (at ∷ [])))) }
{
    match area.cut(&at) {
        Ok((below, above)) => {
            let lower = print_of(snapshot, order, &below);
            let upper = print_of(snapshot, order, &above);
            turn.items.push(OutItem::Split { at, lower, upper })?;
            turn.opens.push(Owed::Print {
                area: below,
                print: lower,
            })?;
            turn.opens.push(Owed::Print {
                area: above,
                print: upper,
            })?;
            Ok(())
        }
        Err(End::Refused(_)) => Ok(()),
        Err(End::NoMemory) => Err(NoMemory),
    }
}

// Says a cut of a box in parts with the fingerprint of each, and opens them. Rows of one namespace are never cut at points
// at which the box cannot be; nothing is said then.
fn parts<R: Row>(
    alloc: Global,
    snapshot: &Snapshot<R>,
    order: &Option<TimeOrder>,
    area: &Box3,
    points: Points,
    turn: &mut Turn,
) -> Result<(), NoMemory>
    requires order { IsOrderOf order.now (map R.value snapshot.now) }
    requires points { IsTrue (are_of_one points) }
    ensures { OnOk result (Adds 2 (map R.value snapshot.now) turn.old turn.new (differing (sync_rules 2) (map R.value snapshot.now) area.now (Some points))) }
{
    match box_parts(alloc, area, &points) {
        Ok(parts) => {
            let prints = print_parts(alloc, snapshot, order, parts, &mut turn.opens)?;
            turn.items.push(OutItem::Parts { points, prints })?;
            Ok(())
        }
        Err(End::Refused(_)) => Ok(()),
        Err(End::NoMemory) => Err(NoMemory),
    }
}

// The own fingerprint of each part, which opens it.
fn print_parts<R: Row>(
    alloc: Global,
    snapshot: &Snapshot<R>,
    order: &Option<TimeOrder>,
    parts: Vec<Box3>,
    opens: &mut Vec<Owed>,
) -> Result<Prints, NoMemory>
    requires { IsOrderOf order.now (map R.value snapshot.now) }
    ensures prints { IfOk result (λ prints. prints ≡ map (λ part. box_print (sync_rules 2) part (map R.value snapshot.now)) parts.items) }
    ensures opens { OnOk result (map (owed_value (map R.value snapshot.now)) opens.new.items ≡ map (owed_value (map R.value snapshot.now)) opens.old.items ++ map (print_ask (sync_rules 2) (map R.value snapshot.now)) parts.items) }
{
    let mut prints = Prints::new(alloc);
    let count = parts.len();
    let mut rest = VecDeque::from_vec(parts);
    for _ in 0..count {
        match rest.pop_front() {
            None => unreachable!(),
            Some(area) => {
                let print = print_of(snapshot, order, &area);
                prints.push(print)?;
                opens.push(Owed::Print { area, print })?;
            }
        }
    }
    Ok(prints)
}
