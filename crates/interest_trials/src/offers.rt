//! What is offered, told in numbers.

use crate::checks::are_of;
use crate::rows::{Made, Place, area_of, namespace, numbers, snapshot_of};
use area_interest::{Interest, offered};
use block_store::Snapshot;
use std::alloc::Global;
use willow_area::Area;
use willow_entry::{BareRow, Row};

// The limits on the number of rows and on the sum of their payloads' lengths.
pub(crate) type Limits = (Option<u32>, Option<u64>);

// What is offered of the rows, where they may be.
fn offered_of<R: Row>(
    alloc: Global,
    rows: &Snapshot<R>,
    area: &Area,
    limits: &Interest,
) -> Option<Snapshot<R>> {
    if are_of(rows, &namespace()?) {
        offered(alloc, rows, area, limits).ok()
    } else {
        None
    }
}

// Its numbers, where the rows and the area could be made.
fn told(
    alloc: Global,
    rows: Option<&Snapshot<BareRow>>,
    area: Option<&Area>,
    limits: &Interest,
) -> Option<u64> {
    let kept = offered_of(alloc, rows?, area?, limits)?;
    Some(numbers(&kept))
}

// The numbers of what is offered of a store of these rows.
pub(crate) fn offers(alloc: Global, rows: &[Made], place: &Place, limits: &Limits) -> Option<u64> {
    let (newest, bytes) = *limits;
    told(
        alloc,
        snapshot_of(alloc, rows).as_ref(),
        area_of(alloc, place).as_ref(),
        &Interest { newest, bytes },
    )
}
