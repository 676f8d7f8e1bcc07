//! A side of an exchange in memory, with the rows that it got.

ghost use Rattle.std.specs.Prelude.{◌≡◌, ◌≤◌, ◌↔◌, ◌++◌, [], length, map, option_map, Some, IsOk, IsSome, IsTrue, IfOk, OnOk};
ghost use Rattle.std.specs.Option.{option_copied, option_to_list};
ghost use Rattle.willow_area.specs.AreaBox.{area_box};
ghost use Rattle.willow_entry.specs.Row.{AreLive};
ghost use Rattle.block_store.specs.BoxKinds.{IsOfOneNamespace};
ghost use Rattle.sync_msg.specs.Items.{HasPrints, item_value};
ghost use Rattle.sync_core.specs.Flat.{row_in};
ghost use Rattle.sync_core.specs.Held.{item_at};
ghost use Rattle.sync_core.specs.Place.{first_place, stage_of};
ghost use Rattle.sync_core.specs.Steps.{heard, said};
ghost use Rattle.sync_core.specs.SyncRules.{IsVersion};

use block_store::Snapshot;
use std::alloc::Global;
use sync_core::{Item, OutItem, Role, SNAPSHOT_MAX, Stage, SyncCore};
use willow_area::Area;
use willow_entry::Row;
use willow_path::{End, NoMemory};

// A side, with the rows that it got from the other.
#[derive(Drop)]
pub(crate) struct Peer<R: Row> {
    pub(crate) side: SyncCore<R>,
    pub(crate) got: Vec<R>,
}

impl<R: Row> Peer<R> {
    // A side at the beginning of a session of the version, over the box of the area if there is one.
    pub(crate) fn begin(
        alloc: Global,
        version: u8,
        role: Role,
        rows: &Snapshot<R>,
        area: Option<&Area>,
    ) -> Result<Peer<R>, NoMemory>
        requires version { IsVersion version }
        requires few { length rows.now ≤ SNAPSHOT_MAX }
        requires one { IsOfOneNamespace (map R.value rows.now) }
        ensures side { IfOk result (λ peer. peer.side ≡ first_place version role (map R.value rows.now) (option_map area_box (option_copied area.entry))) }
        ensures got { IfOk result (λ peer. peer.got.items ≡ []) }
        ensures live { OnOk result (AreLive (map R.value rows.now)) }
    {
        let area = match area {
            None => None,
            Some(area) => Some(area.copy()?),
        };
        let rows = rows.share()?;
        Ok(Peer {
            side: SyncCore::begin(alloc, version, role, rows, area)?,
            got: Vec::new(alloc),
        })
    }

    // Whether the side is to say an item.
    pub(crate) fn is_writing(&self) -> bool
        ensures { IsTrue result ↔ (stage_of self.now.side.doing ≡ Stage.Writing) }
    {
        self.side.stage() == Stage::Writing
    }

    // Whether both sides have said farewell.
    pub(crate) fn is_done(&self) -> bool
        ensures { IsTrue result ↔ (stage_of self.now.side.doing ≡ Stage.Done) }
    {
        self.side.stage() == Stage::Done
    }

    // Says the next item, a row in place of its position.
    pub(crate) fn say(&mut self) -> Result<Item<R>, NoMemory>
        requires { stage_of self.old.side.doing ≡ Stage.Writing }
        ensures said { IfOk result (λ item. said self.old.side ≡ Some (item_value R.value item, self.new.side)) }
        ensures got { self.new.got ≡ self.old.got }
    {
        let item = self.side.take_item()?;
        item_of(&self.side, item)
    }

    // Hears an item that may come, and keeps its row, if it is one.
    pub(crate) fn hear(&mut self, item: Item<R>) -> Result<(), NoMemory>
        requires comes { IsOk (heard self.old.side (item_value R.value item)) }
        requires prints { HasPrints (item_value R.value item) }
        ensures heard { OnOk result (heard self.old.side (item_value R.value item) ≡ Ok self.new.side) }
        ensures got { OnOk result (self.new.got.items ≡ self.old.got.items ++ option_to_list (row_in item)) }
    {
        match self.side.give_item(item) {
            Ok(None) => Ok(()),
            Ok(Some(row)) => {
                self.got.push(row)?;
                Ok(())
            }
            Err(End::Refused(_)) => unreachable!(),
            Err(End::NoMemory) => Err(NoMemory),
        }
    }
}

// The item that a side says, a row in place of its position.
fn item_of<R: Row>(side: &SyncCore<R>, item: OutItem) -> Result<Item<R>, NoMemory>
    requires { IsSome (item_at side.now.rows item) }
    ensures { IfOk result (λ made. item_at side.now.rows item ≡ Some (item_value R.value made)) }
{
    Ok(match item {
        OutItem::First { print } => Item::First { print },
        OutItem::Agree => Item::Agree,
        OutItem::Split { at, lower, upper } => Item::Split { at, lower, upper },
        OutItem::Parts { points, prints } => Item::Parts { points, prints },
        OutItem::Entries { count } => Item::Entries { count },
        OutItem::Rest { count } => Item::Rest { count },
        OutItem::Row(at) => match side.row_of(at) {
            None => unreachable!(),
            Some(row) => Item::Row(row.copy()?),
        },
        OutItem::EndTurn => Item::EndTurn,
        OutItem::Bye => Item::Bye,
    })
}
