//! What comes of an item that a side of an exchange reads.

ghost use Rattle.std.specs.Prelude.{◌≡◌, ◌++◌, map, None, IfOk, OnOk};
ghost use Rattle.std.specs.Option.{option_to_list};
ghost use Rattle.cap_codec.specs.Rows.{row_of};
ghost use Rattle.sync_msg.specs.Items.{HasPrints, item_value};
ghost use Rattle.sync_core.specs.Place.{stage_of};
ghost use Rattle.sync_link.specs.Hearing.{TakesIn, counts_announced, rows_announced};
ghost use Rattle.sync_link.specs.Sound.{IsSound};

use crate::side::lists::Lists;
use crate::side::speak::speak;
use cap_codec::RawRow;
use spelling::{End, NoMemory};
use sync_core::{CoreRefusal, Item, Stage, SyncCore};
use willow_entry::Row;

// Takes in an item: notes the list that it announces, or puts its row behind the others, and appends the bytes of what is
// said to it. Answers why the item is refused, where it is.
pub(crate) fn hear<R: Row>(
    core: &mut SyncCore<R>,
    item: Item<RawRow>,
    out: &mut Vec<u8>,
    lists: &mut Lists,
) -> Result<Option<CoreRefusal>, NoMemory>
    requires reads { stage_of core.old.doing ≡ Stage.Reading }
    requires sound { IsSound core.old }
    requires prints { HasPrints (item_value row_of item) }
    ensures takes { IfOk result (λ refusal. TakesIn core.old core.new (item_value row_of item) refusal out.old.items out.new.items (map row_of lists.old.rows.items) (map row_of lists.new.rows.items)) }
    ensures announces { IfOk result (λ refusal. lists.new.counts.items ≡ counts_announced lists.old.counts.items item refusal) }
    ensures silent { IfOk result (λ refusal. refusal ≡ None → stage_of core.new.doing ≡ Stage.Writing → ⊥) }
{
    let count = announced(&item);
    match core.give_item(item) {
        Ok(row) => {
            lists.announce(count)?;
            keep(lists, row)?;
            speak(core, out)?;
            Ok(None)
        }
        Err(End::Refused(cause)) => Ok(Some(cause)),
        Err(End::NoMemory) => Err(NoMemory),
    }
}

// How many rows follow an item as its list.
fn announced<R>(item: &Item<R>) -> u32
    ensures { result ≡ rows_announced item.now }
{
    match item {
        Item::Entries { count } => u32::from(*count),
        Item::Rest { count } => *count,
        Item::First { .. }
        | Item::Agree
        | Item::Split { .. }
        | Item::Parts { .. }
        | Item::Row(_)
        | Item::EndTurn
        | Item::Bye => 0,
    }
}

// Puts the row, if there is one, behind the others.
fn keep(lists: &mut Lists, row: Option<RawRow>) -> Result<(), NoMemory>
    ensures rows { OnOk result (lists.new.rows.items ≡ lists.old.rows.items ++ option_to_list row) }
    ensures counts { lists.new.counts.items ≡ lists.old.counts.items }
{
    if let Some(row) = row {
        lists.rows.push(row)?;
    }
    Ok(())
}
