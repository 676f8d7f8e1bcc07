//! What one watcher is told of a slice.

ghost use Rattle.std.specs.Prelude.{◌≡◌, ◌+◌, ◌^◌, ◌<◌, length};
ghost use Rattle.sub_hub.specs.Heard.{in_both, note_of, notes_from, slice_rows};
ghost use Rattle.sub_hub.specs.Watchers.{HearsNotes};

use crate::watcher::{Watcher, Wish};
use willow_area::Area;
use willow_entry::{Entry, LogRow, Row};

/// Gives a watcher one note for each row of the slice that both areas include, up to one for which it leaves. The first row
/// stands in the log at the front.
pub(crate) fn tell<R: Row>(
    watcher: &mut dyn Watcher,
    own: &Area,
    served: &Area,
    front: u32,
    slice: &[LogRow<R>],
) -> Wish
    requires { front + length slice.now < 2 ^ 32 }
    ensures { HearsNotes (told watcher.old) (told watcher.new) (notes_from own.now served.now front (slice_rows R.value slice.now)) result }
{
    for i in 0..slice.len() {
        let entry = slice[i].row.entry();
        if let Wish::Leave = tell_entry(watcher, own, served, front + i as u32, entry) {
            return Wish::Leave;
        }
    }
    Wish::Stay
}

/// Gives a watcher the note of one entry, where both areas include it.
#[tactic(auto, using(crate::proofs::Hearing::hears_note, crate::proofs::Hearing::hears_no_note))]
pub(crate) fn tell_entry(
    watcher: &mut dyn Watcher,
    own: &Area,
    served: &Area,
    at: u32,
    entry: &Entry,
) -> Wish
    ensures { HearsNotes (told watcher.old) (told watcher.new) (note_of own.now served.now at entry.now) result }
{
    if in_both(own, served, entry) {
        watcher.note(at, entry)
    } else {
        Wish::Stay
    }
}

/// Whether both areas include the entry.
#[tactic(auto, unfolding(crate::specs::Heard::in_both))]
pub(crate) fn in_both(own: &Area, served: &Area, e: &Entry) -> bool
    ensures { result ≡ in_both own.now served.now e.now }
{
    own.includes(&e.subspace, &e.path, e.timestamp)
        && served.includes(&e.subspace, &e.path, e.timestamp)
}
