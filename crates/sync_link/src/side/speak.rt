//! What a side of an exchange says until it reads, as bytes.

ghost use Rattle.std.specs.Prelude.{◌≡◌, ◌++◌, IsSomeAnd, OnOk, OnErr, Some};
ghost use Rattle.sync_msg.specs.Items.{ItemValue, HasSpelling, item_spelling};
ghost use Rattle.sync_core.specs.Held.{item_at};
ghost use Rattle.sync_core.specs.Place.{stage_of};
ghost use Rattle.sync_link.specs.Sound.{IsSound};
ghost use Rattle.sync_link.specs.Speaking.{SaysAll, SaysOn};

use spelling::NoMemory;
use sync_core::{Item, OutItem, Stage, SyncCore};
use sync_msg::encode_item;
use willow_entry::{Row, encode_row_frame};

// Says all items up to the next that the side reads, and appends their bytes.
pub(crate) fn speak<R: Row>(core: &mut SyncCore<R>, out: &mut Vec<u8>) -> Result<(), NoMemory>
    requires { IsSound core.old }
    ensures said { OnOk result (SaysAll core.old core.new out.old.items out.new.items) }
    ensures silent { OnOk result (stage_of core.new.doing ≡ Stage.Writing → ⊥) }
{
    while core.stage() == Stage::Writing {
        say(core, out)?;
    }
    Ok(())
}

// Says the next item, and appends its bytes.
fn say<R: Row>(core: &mut SyncCore<R>, out: &mut Vec<u8>) -> Result<(), NoMemory>
    requires writes { stage_of core.old.doing ≡ Stage.Writing }
    requires sound { IsSound core.old }
    ensures { OnOk result (SaysOn core.old core.new out.old.items out.new.items) }
{
    let item = core.take_item()?;
    write_item(core, item, out)
}

// Appends the bytes of an item, of a row as it stands in the snapshot.
fn write_item<R: Row>(core: &SyncCore<R>, item: OutItem, out: &mut Vec<u8>) -> Result<(), NoMemory>
    requires { IsSomeAnd (item_at core.now.rows item) HasSpelling }
    ensures { OnOk result ((said : ItemValue) → item_at core.now.rows item ≡ Some said → out.new.items ≡ out.old.items ++ item_spelling said) }
{
    let head: Item<R> = match item {
        OutItem::First { print } => Item::First { print },
        OutItem::Agree => Item::Agree,
        OutItem::Split { at, lower, upper } => Item::Split { at, lower, upper },
        OutItem::Parts { points, prints } => Item::Parts { points, prints },
        OutItem::Entries { count } => Item::Entries { count },
        OutItem::Rest { count } => Item::Rest { count },
        OutItem::Row(at) => {
            return match core.row_of(at) {
                None => unreachable!(),
                Some(row) => encode_row_frame(row, out),
            };
        }
        OutItem::EndTurn => Item::EndTurn,
        OutItem::Bye => Item::Bye,
    };
    encode_item(&head, out)
}
