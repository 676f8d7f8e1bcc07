//! What a side makes of an item that it reads.

ghost use Rattle.std.specs.Prelude.{◌≡◌, List, map};
ghost use Rattle.willow_entry.specs.Row.{RowValue};
ghost use Rattle.block_store.specs.BoxKinds.{IsOfOneNamespace};
ghost use Rattle.sync_msg.specs.Items.{HasPrints, item_value};
ghost use Rattle.sync_core.specs.SyncRules.{IsVersion};
ghost use Rattle.sync_core.specs.Steps.{bye_heard, end_heard, first_heard, next_heard};
ghost use Rattle.sync_core.specs.Held.{IsReady, ask_value, doing_of};
ghost use Rattle.sync_core.specs.Hears.{Does};
ghost use Rattle.sync_core.specs.Orders.{IsOrderOf};

use crate::answer::turn_of;
use crate::ask::Ask;
use crate::head::{head, row_due};
use crate::work::{Ear, Phase, Work};
use block_store::{Snapshot, TimeOrder};
use std::alloc::Global;
use std::collections::VecDeque;
use sync_msg::{CoreRefusal, Item};
use willow_area::Box3;
use willow_entry::Row;
use willow_path::End;

// Takes in an item, but for the number of items. Where it is refused, what the side is doing is left to the caller.
pub(crate) fn hear<R: Row, Q: Row>(
    alloc: Global,
    version: u8,
    snapshot: &Snapshot<R>,
    order: &mut Option<TimeOrder>,
    area: &Option<Box3>,
    work: &mut Work,
    item: &Item<Q>,
) -> Result<(), End<CoreRefusal>>
    requires version { IsVersion version }
    requires one { IsOfOneNamespace (map R.value snapshot.now) }
    requires ready { IsReady (map R.value snapshot.now) work.old }
    requires prints { HasPrints (item_value Q.value item.now) }
    requires order { IsOrderOf order.old (map R.value snapshot.now) }
    ensures order { IsOrderOf order.new (map R.value snapshot.now) }
    ensures does { Does (doing_of (map R.value snapshot.now) work.old) (doing_of (map R.value snapshot.now) work.new)
        (next_heard version area.now (map R.value snapshot.now) (doing_of (map R.value snapshot.now) work.old) (item_value Q.value item.now)) result }
    ensures ready { IsReady (map R.value snapshot.now) work.new }
{
    match work.phase {
        Phase::Beginning => first(alloc, area, work, item),
        Phase::Hearing if work.ear.due.is_some() => row_due(alloc, &mut work.ear, item),
        Phase::Hearing if work.ear.owed.is_empty() => {
            end_of_turn(alloc, version, snapshot, order, work, item)
        }
        Phase::Hearing => head(alloc, version, &mut work.ear, item),
        Phase::Parting => farewell(work, item),
        _ => Err(End::Refused(CoreRefusal::ItemMismatch)),
    }
}

// The first item that the side reads that does not begin.
fn first<Q: Row>(
    alloc: Global,
    area: &Option<Box3>,
    work: &mut Work,
    item: &Item<Q>,
) -> Result<(), End<CoreRefusal>>
    ensures does { (rows : List RowValue) → Does (doing_of rows work.old) (doing_of rows work.new) (first_heard area.now (item_value Q.value item.now)) result }
    ensures ready { (rows : List RowValue) → IsReady rows work.old → IsReady rows work.new }
{
    match (area, item) {
        (None, Item::Bye) => {
            work.phase = Phase::Replying;
            Ok(())
        }
        (Some(area), Item::First { print }) => {
            let mut opens = Vec::new(alloc);
            opens.push(Ask::Print {
                area: area.copy()?,
                print: *print,
            })?;
            work.ear = Ear {
                owed: VecDeque::new(alloc),
                opens,
                due: None,
            };
            work.phase = Phase::Hearing;
            Ok(())
        }
        _ => Err(End::Refused(CoreRefusal::ItemMismatch)),
    }
}

// The end of a turn whose asks are all answered.
fn end_of_turn<R: Row, Q: Row>(
    alloc: Global,
    version: u8,
    snapshot: &Snapshot<R>,
    order: &mut Option<TimeOrder>,
    work: &mut Work,
    item: &Item<Q>,
) -> Result<(), End<CoreRefusal>>
    requires version { IsVersion version }
    requires one { IsOfOneNamespace (map R.value snapshot.now) }
    requires ready { IsReady (map R.value snapshot.now) work.old }
    requires order { IsOrderOf order.old (map R.value snapshot.now) }
    ensures order { IsOrderOf order.new (map R.value snapshot.now) }
    ensures does { Does (doing_of (map R.value snapshot.now) work.old) (doing_of (map R.value snapshot.now) work.new)
        (end_heard version (map R.value snapshot.now) (map ask_value work.old.ear.opens.items) (item_value Q.value item.now)) result }
    ensures ready { IsReady (map R.value snapshot.now) work.new }
{
    match item {
        Item::Bye if work.ear.opens.is_empty() => {
            work.phase = Phase::Replying;
            Ok(())
        }
        Item::EndTurn if !work.ear.opens.is_empty() => {
            let turn = turn_of(alloc, version, snapshot, order, &work.ear.opens)?;
            work.items = VecDeque::from_vec(turn.items);
            work.ear.owed = VecDeque::from_vec(turn.opens);
            work.phase = Phase::Saying;
            Ok(())
        }
        _ => Err(End::Refused(CoreRefusal::ItemMismatch)),
    }
}

// The peer's farewell, where it is due.
fn farewell<Q: Row>(work: &mut Work, item: &Item<Q>) -> Result<(), End<CoreRefusal>>
    ensures does { (rows : List RowValue) → Does (doing_of rows work.old) (doing_of rows work.new) (bye_heard (item_value Q.value item.now)) result }
    ensures ready { (rows : List RowValue) → IsReady rows work.old → IsReady rows work.new }
{
    match item {
        Item::Bye => {
            work.phase = Phase::Finished;
            Ok(())
        }
        _ => Err(End::Refused(CoreRefusal::ItemMismatch)),
    }
}
