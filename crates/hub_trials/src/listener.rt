//! A watcher that tells what it heard.

ghost use Rattle.std.specs.Prelude.{◌≡◌, ◌∷◌, ◌++◌, [], if◌then◌else◌};

use std::alloc::Global;
use std::sync::Arc;
use std::sync::atomic::{AtomicU64, Ordering};
use sub_hub::{Watcher, Wish};
use willow_entry::Entry;

// A note that was kept.
#[derive(Drop)]
pub(crate) struct KeptNote {
    at: u32,
    entry: Entry,
}

// It keeps its notes, leaves at the one behind so many, and shows others the numbers of the rows of which it heard.
#[derive(Drop)]
pub(crate) struct Listener {
    kept: Vec<KeptNote>,
    stays: usize,
    leaves: u64,
    heard: Arc<AtomicU64>,
}

impl Listener {
    // One that heard of nothing, stays for so many notes and shows them in this word.
    pub(crate) fn new(alloc: Global, stays: usize, heard: &Arc<AtomicU64>) -> Option<Listener> {
        Some(Listener {
            kept: Vec::new(alloc),
            stays,
            leaves: 0,
            heard: heard.clone().ok()?,
        })
    }
}

impl Watcher for Listener {
    ghost use Rattle.std.specs.Prelude.{map, Some};

    ghost told = { λ l. record { heard = Some (map (λ k. record { at = k.at; entry = k.entry }) l.kept.items); leaves = l.leaves } };

    fn note(&mut self, at: u32, entry: &Entry) -> Wish {
        show(&self.heard, at);
        let is_last = self.kept.len() >= self.stays;
        if keep(&mut self.kept, at, entry) && !is_last {
            return Wish::Stay;
        }
        self.leaves = self.leaves.saturating_add(1);
        Wish::Leave
    }
}

// Keeps a note. Answers whether there was memory for it.
fn keep(kept: &mut Vec<KeptNote>, at: u32, entry: &Entry) -> bool
    ensures { kept.new.items ≡ (if result then kept.old.items ++ record { at = at; entry = entry.now } ∷ [] else kept.old.items) }
{
    match entry.copy() {
        Ok(entry) => kept.push(KeptNote { at, entry }).is_ok(),
        Err(_) => false,
    }
}

// Puts the number of a row, which counts from 1 and is below 10, behind the digits that the word has.
fn show(heard: &AtomicU64, at: u32) {
    let digits = heard.load(Ordering::SeqCst).wrapping_mul(10);
    heard.store(digits.wrapping_add(u64::from(at) + 1), Ordering::SeqCst);
}
