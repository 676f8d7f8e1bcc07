//! The own rows of a box that a peer did not send.

ghost use Rattle.std.specs.Prelude.{◌≡◌, ℕ, ◌^◌, ◌<◌, [], ◌∷◌, ◌++◌, map, slice_get, Some, IfOk, OnOk, vec_len, if◌then◌else◌};
ghost use Rattle.std.specs.List.{list_any};
ghost use Rattle.willow_entry.specs.Row.{same_row};
ghost use Rattle.exchange_rules.specs.Answer.{lacking};
ghost use Rattle.sync_core.specs.SyncRules.{sync_rules};
ghost use Rattle.sync_core.specs.Orders.{IsOrderOf};
ghost use Rattle.sync_msg.specs.declared.item.Item.TheVariants as out;

use crate::boxes::found_in;
use crate::out_item::OutItem;
use block_store::{Snapshot, TimeOrder};
use range_split::row_at;
use std::alloc::Global;
use willow_area::Box3;
use willow_entry::{BareRow, Row, same};
use willow_path::NoMemory;

// Whether the row is among those sent.
fn is_among<R: Row>(row: &R, sent: &[BareRow]) -> bool
    ensures { result ≡ list_any (same_row (R.value row.now)) sent.now }
{
    sent.iter().any(|other| same(row, other))
}

// The positions of the rows of a box that are not among those sent.
pub(crate) fn positions_lacking<R: Row>(
    alloc: Global,
    snapshot: &Snapshot<R>,
    order: &Option<TimeOrder>,
    area: &Box3,
    sent: &[BareRow],
) -> Result<Vec<u32>, NoMemory>
    requires { IsOrderOf order.now (map R.value snapshot.now) }
    ensures few { IfOk result (λ positions. vec_len positions < 2 ^ 32) }
    ensures rows { (version : ℕ) → IfOk result (λ positions. map (slice_get (map R.value snapshot.now)) positions.items ≡ map (λ row. Some row) (lacking (sync_rules version) (map R.value snapshot.now) area.now sent.now)) }
{
    let _rows = snapshot.len();
    let found = found_in(snapshot, order, area)?;
    let mut positions = Vec::new(alloc);
    for at in &found {
        push_lacking(row_at(snapshot, *at), *at, sent, &mut positions)?;
    }
    Ok(positions)
}

// Adds the row's position where the row is not among those sent.
fn push_lacking<R: Row>(
    row: &R,
    at: u32,
    sent: &[BareRow],
    positions: &mut Vec<u32>,
) -> Result<(), NoMemory>
    ensures { OnOk result (positions.new.items ≡ positions.old.items ++ (if list_any (same_row (R.value row.now)) sent.now then [] else at ∷ [])) }
{
    if !is_among(row, sent) {
        positions.push(at)?;
    }
    Ok(())
}

// Names the rows at the positions.
pub(crate) fn push_rows(positions: &[u32], items: &mut Vec<OutItem>) -> Result<(), NoMemory>
    ensures { OnOk result (items.new.items ≡ items.old.items ++ map (λ at. out.Row at) positions.now) }
{
    for at in positions {
        items.push(OutItem::Row(*at))?;
    }
    Ok(())
}
