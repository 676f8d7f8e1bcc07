//! A side of an exchange, item by item.

ghost use Rattle.std.specs.Prelude.{◌≡◌, ◌≤◌, length, map, slice_get, option_map, Some, IsOk, IfOk, IfErr, MatchOption};
ghost use Rattle.willow_area.specs.AreaBox.{area_box};
ghost use Rattle.block_store.specs.BoxKinds.{IsOfOneNamespace};
ghost use Rattle.sync_msg.specs.Items.{HasPrints, item_value};
ghost use Rattle.sync_core.specs.SyncRules.{IsVersion};
ghost use Rattle.sync_core.specs.Flat.{row_in};
ghost use Rattle.sync_core.specs.Place.{first_place, most_items, refusal_of, rows_of_area, stage_of};
ghost use Rattle.sync_core.specs.Steps.{said};
ghost use Rattle.sync_core.specs.Held.{item_at};
ghost use Rattle.sync_core.specs.Hears.{Hears, within};
ghost use Rattle.sync_core.specs.declared.stage.Stage.TheVariants.{Reading, Writing};

use crate::hear::hear;
use crate::out_item::OutItem;
use crate::say::say;
use crate::stage::{SNAPSHOT_MAX, Stage};
use crate::start::first_work;
use crate::work::{Phase, Work};
use block_store::{Snapshot, TimeOrder};
use std::alloc::Global;
use std::marker::Model;
use sync_msg::{CoreRefusal, Item, Role};
use willow_area::{Area, Box3, box_of};
use willow_entry::Row;
use willow_path::{End, NoMemory};

/// One side of an exchange over the rows of a snapshot. A contract sees its place: how it stands in the exchange.
#[derive(Drop)]
pub struct SyncCore<R: Row> {
    alloc: Global,
    version: u8,
    role: Role,
    snapshot: Snapshot<R>,
    // The order of the rows by time, once a box was cut by time.
    order: Option<TimeOrder>,
    area: Option<Box3>,
    most: u32,
    sent: u32,
    read: u32,
    work: Work,
}

impl<R: Row> Model for SyncCore<R> {
    ghost use Rattle.std.specs.Prelude.{◌≡◌, ◌≤◌, map, length};
    ghost use Rattle.sync_core.specs.Place.{Place};

    ghost Value = { Place };

    ghost use Rattle.sync_core.specs.Place.{most_items};
    ghost use Rattle.sync_core.specs.Held.{IsReady, IsSteady, doing_of};
    ghost use Rattle.sync_core.specs.Orders.{IsOrderOf};

    ghost view = { λ s. record { version = s.version; role = s.role; rows = map R.value s.snapshot; area = s.area; sent = s.sent; read = s.read; doing = doing_of (map R.value s.snapshot) s.work } };

    ghost invariant = { λ s. IsSteady (record { version = s.version; role = s.role; rows = map R.value s.snapshot; area = s.area; sent = s.sent; read = s.read; doing = doing_of (map R.value s.snapshot) s.work }) s.most s.work × IsOrderOf s.order (map R.value s.snapshot) };
}

impl<R: Row> SyncCore<R> {
    /// A side at the beginning of a session of version 1 or 2, over the box of the area that both peers read, if there is
    /// one. The caller begins: with its fingerprint of the box, or without an area with its farewell. The snapshot has at
    /// most `SNAPSHOT_MAX` rows, of one namespace.
    pub fn begin(
        alloc: Global,
        version: u8,
        role: Role,
        snapshot: Snapshot<R>,
        area: Option<Area>,
    ) -> Result<SyncCore<R>, NoMemory>
        requires version { IsVersion version }
        requires few { length snapshot ≤ SNAPSHOT_MAX }
        requires one { IsOfOneNamespace (map R.value snapshot) }
        ensures { IfOk result (λ side. side ≡ first_place version role (map R.value snapshot) (option_map area_box area)) }
    {
        let area = match area {
            None => None,
            Some(area) => Some(box_of(alloc, &area)?),
        };
        let most = most_of(&snapshot, &area);
        let work = first_work(alloc, version, role, &snapshot, &area)?;
        Ok(SyncCore {
            alloc,
            version,
            role,
            snapshot,
            order: None,
            area,
            most,
            sent: 0,
            read: 0,
            work,
        })
    }

    /// What the side does next.
    pub fn stage(&self) -> Stage
        ensures { result ≡ stage_of self.now.doing }
    {
        match self.work.phase {
            Phase::Saying | Phase::Replying => Stage::Writing,
            Phase::Beginning | Phase::Hearing | Phase::Parting => Stage::Reading,
            Phase::Finished => Stage::Done,
            Phase::Refused(_) => Stage::Refused,
        }
    }

    /// How many counted items it sent, and how many it read.
    pub fn items(&self) -> (u32, u32)
        ensures sent { result.0 ≡ self.now.sent }
        ensures read { result.1 ≡ self.now.read }
    {
        (self.sent, self.read)
    }

    /// Why it refused an item, if it did.
    pub fn refusal(&self) -> Option<CoreRefusal>
        ensures { result ≡ refusal_of self.now.doing }
    {
        match self.work.phase {
            Phase::Refused(cause) => Some(cause),
            _ => None,
        }
    }

    /// The row at the position; None exactly from the number of rows on.
    pub fn row_of(&self, position: u32) -> Option<&R>
        ensures { MatchOption result (length self.now.rows ≤ position) (λ row. slice_get self.now.rows position ≡ Some (R.value row.now)) }
    {
        self.snapshot.get(position)
    }

    /// Says the next item, at stage Writing. A row is named by its position. Without memory the side stands as it did.
    pub fn take_item(&mut self) -> Result<OutItem, NoMemory>
        requires { stage_of self.old.doing ≡ Writing }
        ensures item { IfOk result (λ item. item_at self.old.rows item ≡ option_map (λ step. step.0) (said self.old)) }
        ensures place { IfOk result (λ item. option_map (λ step. step.1) (said self.old) ≡ Some self.new) }
        ensures no_memory { IfErr result (λ _. self.new ≡ self.old) }
        ensures sure { IsOk result }
    {
        let item = say(&mut self.work);
        self.sent += u32::from(item.is_counted());
        Ok(item)
    }

    /// Takes in an item, at stage Reading, and hands back its row, if it is one. An item is refused exactly by the
    /// first of these causes: `ItemMismatch` where no such item may come, `TooManyItems` where with it more items count
    /// than may, `BadCut` at a cut outside the asked box or at points that do not rise, `EntryOutside` at a row outside
    /// the asked box, `RowsOutOfOrder` at a row that is not above the one before it for that box. Then the stage is
    /// Refused, and `refusal` keeps the cause. Without memory the side stands as it did; want of memory comes only where
    /// nothing is against the item. A cut in parts has one to three points, and one fingerprint more.
    pub fn give_item<Q: Row>(&mut self, item: Item<Q>) -> Result<Option<Q>, End<CoreRefusal>>
        requires reads { stage_of self.old.doing ≡ Reading }
        requires prints { HasPrints (item_value Q.value item) }
        ensures hears { Hears self.old self.new (item_value Q.value item) result }
        ensures row { IfOk result (λ row. row ≡ row_in item) }
    {
        let counted = u32::from(item.is_counted());
        let items = self.sent + self.read + counted;
        let outcome = hear(
            self.alloc,
            self.version,
            &self.snapshot,
            &mut self.order,
            &self.area,
            &mut self.work,
            &item,
        );
        match within(outcome, items, self.most) {
            Ok(()) => {
                self.read += counted;
                Ok(row_of_item(item))
            }
            Err(End::Refused(cause)) => {
                self.work.phase = Phase::Refused(cause);
                Err(End::Refused(cause))
            }
            Err(End::NoMemory) => Err(End::NoMemory),
        }
    }
}

// The most counted items of an exchange over the rows of the area.
fn most_of<R: Row>(snapshot: &Snapshot<R>, area: &Option<Box3>) -> u32
    requires { length snapshot.now ≤ SNAPSHOT_MAX }
    ensures { result ≡ most_items area.now (map R.value snapshot.now) }
{
    3 * (own_rows(snapshot, area) + SNAPSHOT_MAX)
}

// The number of own rows in the area.
fn own_rows<R: Row>(snapshot: &Snapshot<R>, area: &Option<Box3>) -> u32
    ensures number { result ≡ length (rows_of_area area.now (map R.value snapshot.now)) }
    ensures within { result ≤ length snapshot.now }
{
    match area {
        None => 0,
        Some(area) => snapshot.count_in(area),
    }
}

// The outcome of an item that may come, where not too many were counted with it; too many are told even where memory
// was wanting.
fn within(
    outcome: Result<(), End<CoreRefusal>>,
    items: u32,
    most: u32,
) -> Result<(), End<CoreRefusal>>
    ensures { result ≡ within outcome items most }
{
    match outcome {
        Err(End::Refused(CoreRefusal::ItemMismatch)) => {
            Err(End::Refused(CoreRefusal::ItemMismatch))
        }
        _ if items > most => Err(End::Refused(CoreRefusal::TooManyItems { items })),
        outcome => outcome,
    }
}

// The row of the item.
fn row_of_item<Q>(item: Item<Q>) -> Option<Q>
    ensures { result ≡ row_in item }
{
    match item {
        Item::Row(row) => Some(row),
        _ => None,
    }
}
