//! The messages of a feed, taken from the front of the bytes.

ghost use Rattle.std.specs.Prelude.{◌≡◌, ◌<◌, IfOk, OnOk};
ghost use Rattle.ns_state.specs.declared.live_log.TheConstants.{LOG_LIMIT};
ghost use Rattle.sync_follow.specs.Hearing.{TakesAll, TakesMessage, TakesRow};

use crate::find::{Found, find};
use crate::place::{Due, Place, is_due};
use cap_codec::RawRow;
use spelling::NoMemory;
use std::alloc::Global;
use willow_area::Area;
use willow_entry::Row;

// Takes all whole messages from the front of the bytes, up to a part of one, to what is none, to the end or to a row outside
// of the area. Answers how many bytes they have.
pub(crate) fn take_all(
    alloc: Global,
    area: &Area,
    place: &mut Place,
    bytes: &[u8],
    came: &mut Vec<RawRow>,
) -> Result<usize, NoMemory>
    ensures { IfOk result (λ taken. TakesAll area.now place.old place.new bytes.now taken came.old.items came.new.items) }
{
    let mut taken = 0;
    'taking: while is_due(place.due) {
        match take(alloc, area, place, &bytes[taken..], came) {
            Ok(Some(more)) => taken += more,
            Ok(None) => return Ok(taken),
            Err(e) => return Err(e),
        }
    }
    Ok(taken)
}

// Takes the message from the front of the bytes, and answers how many bytes it has. None is answered where the bytes are only
// a part of one, or are none; then they are all read.
fn take(
    alloc: Global,
    area: &Area,
    place: &mut Place,
    bytes: &[u8],
    came: &mut Vec<RawRow>,
) -> Result<Option<usize>, NoMemory>
    requires { place.old.due ≡ Due.Message }
    ensures { IfOk result (λ taken. TakesMessage area.now place.old place.new bytes.now taken came.old.items came.new.items) }
{
    match find(alloc, place.count, bytes)? {
        Found::More => Ok(None),
        Found::Bad => {
            place.due = Due::Bad;
            Ok(None)
        }
        Found::Stop(taken) => {
            place.due = Due::Nothing;
            Ok(Some(taken))
        }
        Found::Row(row, taken) => {
            take_row(area, place, row, came)?;
            Ok(Some(taken))
        }
    }
}

// Takes a row: it comes where the area includes its entry.
fn take_row(
    area: &Area,
    place: &mut Place,
    row: RawRow,
    came: &mut Vec<RawRow>,
) -> Result<(), NoMemory>
    requires { place.old.count < LOG_LIMIT }
    ensures { OnOk result (TakesRow area.now place.old place.new row came.old.items came.new.items) }
{
    let entry = row.entry();
    let inside = area.includes(&entry.subspace, &entry.path, entry.timestamp);
    if inside {
        came.push(row)?;
        place.count += 1;
    } else {
        place.due = Due::Outside;
    }
    Ok(())
}
