//! One who watches, and prints what it hears of.

ghost use Rattle.std.specs.Prelude.{◌≡◌};
ghost use Rattle.peer_listing.specs.Listing.{listing_line};
ghost use Rattle.sub_hub.specs.Watchers.{CountsLeave, KeepsNote};
ghost use Rattle.willow_peer.specs.Printing.{PrintsLine, PrintsOrLeaves};

use peer_listing::listing_line;
use std::alloc::Global;
use sub_hub::{Watcher, Wish};
use willow_entry::Entry;
use willow_outside::{Sink, write_whole};

/// Writes the line of a listing for each note. It leaves where writing one failed, or no memory was found for it.
#[derive(Drop)]
pub(crate) struct Printer<S> {
    alloc: Global,
    output: S,
    leaves: u64,
}

impl<S: Sink + Drop> Printer<S> {
    /// One that prints to this output, and never left.
    pub(crate) fn new(alloc: Global, output: S) -> Printer<S>
        ensures output { result.output ≡ output }
        ensures alloc { result.alloc ≡ alloc }
        ensures leaves { result.leaves ≡ 0 }
    {
        Printer {
            alloc,
            output,
            leaves: 0,
        }
    }
}

impl<S: Sink + Drop> Watcher for Printer<S> {
    ghost use Rattle.std.specs.Prelude.{None};

    ghost told = { λ p. record { heard = None; leaves = p.leaves } };

    fn note(&mut self, at: u32, entry: &Entry) -> Wish
        ensures leaves { CountsLeave self.old.leaves self.new.leaves result }
        ensures heard { KeepsNote None None (record { at = at; entry = entry.now }) result }
        ensures prints { PrintsOrLeaves (S.facts self.old.output) (S.facts self.new.output) (listing_line entry.now) result }
    {
        let _ = at;
        if prints(self.alloc, &mut self.output, entry) {
            return Wish::Stay;
        }
        self.leaves = self.leaves.saturating_add(1);
        Wish::Leave
    }
}

// Writes the line of an entry. Answers whether all of it is written; else a front of it may stand there.
fn prints<S: Sink>(alloc: Global, output: &mut S, entry: &Entry) -> bool
    ensures { PrintsLine (S.facts output.old) (S.facts output.new) (listing_line entry.now) result }
{
    let mut line = Vec::new(alloc);
    listing_line(entry, &mut line).is_ok() && write_whole(output, &line).is_ok()
}
