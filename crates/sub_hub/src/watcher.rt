//! Those who hear of rows.

ghost use Rattle.sub_hub.specs.Watchers.{WatcherFacts, KeepsNote, CountsLeave};

use willow_entry::Entry;

/// Whether a watcher hears of further rows.
#[derive(Clone, Copy, Debug, PartialEq, Eq)]
pub enum Wish {
    /// It does.
    Stay,
    /// It does not: its hub gives it no further note.
    Leave,
}

/// One who hears of rows that come into a log. It tells of itself the notes that it kept, or that it does not tell them, and
/// how often it answered Leave.
pub trait Watcher: Drop {
    ghost told: { Self → WatcherFacts };

    /// Tells of the entry of the row at this position of the log. The count of answers that are Leave rises with each of
    /// these, or stands at the last value of a u64, and stays with each other answer. One that tells what it heard keeps a
    /// note for which it stays, and may keep one for which it leaves. It may take memory from an allocator of its own, and
    /// answers Leave where it finds none.
    fn note(&mut self, at: u32, entry: &Entry) -> Wish
        ensures leaves { CountsLeave (told self.old).leaves (told self.new).leaves result }
        ensures heard { KeepsNote (told self.old).heard (told self.new).heard (record { at = at; entry = entry.now }) result };
}
