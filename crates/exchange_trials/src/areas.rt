//! Areas of all paths.

use crate::keys::user;
use std::alloc::Global;
use willow_area::{Area, TimeRange};
use willow_path::Path;

// An area of all paths: its subspace, the start and the end of its times.
pub(crate) type Place = (Option<u8>, u64, Option<u64>);

// The area, if it is one.
pub(crate) fn area(alloc: Global, place: &Place) -> Option<Area> {
    let (byte, start, end) = *place;
    let subspace = match byte {
        None => None,
        Some(byte) => Some(user(byte)?),
    };
    Some(Area {
        subspace,
        path: Path::empty(alloc),
        times: TimeRange::new(start, end)?,
    })
}
