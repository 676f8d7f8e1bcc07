//! The places and names that an object in memory was asked for.

ghost use Rattle.std.specs.Prelude.{◌≡◌, ◌+◌, ◌^◌, ◌<◌, ◌≤◌, Some, OnOk, map, vec_len, vec_capacity};
ghost use Rattle.std.specs.String.{string_bytes};
ghost use Rattle.willow_outside.specs.Links.{AsksPlace};

use crate::returns::Returns;
use std::alloc::{AllocError, Global};

/// Takes down what was asked for, or without memory does not.
pub(crate) fn take_down(
    alloc: Global,
    places: &mut Vec<String>,
    place: &str,
) -> Result<(), AllocError>
    ensures { AsksPlace (Some (map string_bytes places.old.items)) (Some (map string_bytes places.new.items)) place.now result }
{
    let place = String::from_str(alloc, place)?;
    places.push(place)?;
    Ok(())
}

/// Makes room for one more to come back, and takes down what was asked for, or without memory does not.
pub(crate) fn expect_back<T: Drop>(
    alloc: Global,
    returns: &mut Returns<T>,
    places: &mut Vec<String>,
    place: &str,
) -> Result<(), AllocError>
    ensures asked { AsksPlace (Some (map string_bytes places.old.items)) (Some (map string_bytes places.new.items)) place.now result }
    ensures room { OnOk result (vec_len returns.new.back + returns.new.out + 1 ≤ vec_capacity returns.new.back) }
    ensures fits { OnOk result (returns.new.out + 1 < 2 ^ 64) }
    ensures back { returns.new.back.items ≡ returns.old.back.items }
    ensures out { returns.new.out ≡ returns.old.out }
{
    returns.make_room()?;
    take_down(alloc, places, place)
}
