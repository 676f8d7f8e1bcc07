//! A watcher that shows of which rows it heard.

use std::sync::Arc;
use std::sync::atomic::{AtomicU64, Ordering};
use sub_hub::{Watcher, Wish};
use willow_entry::Entry;

// It stays for so many notes, leaves at the next one, and shows others the positions of the rows of which it heard.
#[derive(Drop)]
pub(crate) struct Listener {
    stays: u32,
    leaves: u64,
    heard: Arc<AtomicU64>,
}

impl Listener {
    // One that heard of nothing, stays for so many notes and shows them in this word.
    pub(crate) fn new(stays: u32, heard: &Arc<AtomicU64>) -> Option<Listener> {
        Some(Listener {
            stays,
            leaves: 0,
            heard: heard.clone().ok()?,
        })
    }
}

impl Watcher for Listener {
    ghost use Rattle.std.specs.Prelude.{None};

    ghost told = { λ l. record { heard = None; leaves = l.leaves } };

    fn note(&mut self, at: u32, _entry: &Entry) -> Wish {
        show(&self.heard, at);
        if self.stays > 0 {
            self.stays -= 1;
            return Wish::Stay;
        }
        self.leaves = self.leaves.saturating_add(1);
        Wish::Leave
    }
}

// Puts the position of a row, which counts from 1, behind the digits that the word has.
fn show(heard: &AtomicU64, at: u32) {
    let digits = heard.load(Ordering::SeqCst).wrapping_mul(10);
    heard.store(digits.wrapping_add(u64::from(at) + 1), Ordering::SeqCst);
}
