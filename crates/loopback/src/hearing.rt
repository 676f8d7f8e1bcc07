//! One who watches, and shows which rows it heard of.

use std::alloc::Global;
use std::sync::Arc;
use std::sync::atomic::{AtomicU64, Ordering};
use sub_hub::{Watcher, Wish};
use willow_entry::Entry;

/// How many rows can be told apart in what is shown: the place of the first one stands in front of these digits.
pub(crate) const MOST: u64 = 1_000_000;

// What is shown where the rows that were heard of do not follow one another.
const OUT_OF_ORDER: u64 = u64::MAX;

/// The rows that were heard of: the place of the first one in the log, how many, and whether each follows the one before. It
/// stays to the end.
#[derive(Drop)]
pub(crate) struct Listener {
    first: Option<u32>,
    count: u32,
    follow: bool,
    shown: Arc<AtomicU64>,
}

impl Listener {
    /// One that heard of nothing yet, and shows in this word how many it heard of.
    pub(crate) fn new(shown: Arc<AtomicU64>) -> Listener {
        Listener {
            first: None,
            count: 0,
            follow: true,
            shown,
        }
    }
}

impl Watcher for Listener {
    ghost use Rattle.std.specs.Prelude.{None};

    ghost told = { λ l. record { heard = None; leaves = 0 } };

    fn note(&mut self, at: u32, _entry: &Entry) -> Wish {
        let first = *self.first.get_or_insert(at);
        self.follow = self.follow && at.checked_sub(first) == Some(self.count);
        self.count = self.count.saturating_add(1);
        let shown = u64::from(first) * MOST + u64::from(self.count);
        let shown = if self.follow { shown } else { OUT_OF_ORDER };
        self.shown.store(shown, Ordering::SeqCst);
        Wish::Stay
    }
}
