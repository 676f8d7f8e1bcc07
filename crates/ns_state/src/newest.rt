//! The newest rows of a log, of a listing that is made once: the live rows are sorted, and no index of them is built.

ghost use Rattle.std.specs.Prelude.{◌≡◌, map, take, IfOk};
ghost use Rattle.willow_entry.specs.Row.{live};
ghost use Rattle.ns_state.specs.Log.{IsLog, values};
ghost use Rattle.recency_index.specs.Rows.{row_recency_cmp, newest_rows};

use crate::live_log::LiveLog;
use recency_index::by_recency;
use std::cmp::Ordering;
use willow_entry::Row;
use willow_path::NoMemory;

// How two rows are ordered by recency.
fn rows_by_recency<R: Row>(a: &R, b: &R) -> Ordering
    ensures { result ≡ row_recency_cmp (R.value a.now) (R.value b.now) }
{
    by_recency(a.entry(), b.entry())
}

impl<R: Row> LiveLog<R> {
    // The live rows, by rising place.
    fn live_rows(&self) -> Result<Vec<&R>, NoMemory>
        ensures live { IfOk result (λ rows. map (λ r. R.value r.now) rows.items ≡ live (values R.value self.now.log)) }
        ensures log { IsLog R.value self.now.namespace self.now.log }
    {
        let mut rows = Vec::new(self.allocator());
        let mut left = self.store().rows();
        'rows: while let Some(row) = left.next() {
            rows.push(row)?;
        }
        Ok(rows)
    }

    /// The first `most` of the live rows by recency, or all where there are fewer. No row is copied. They are sorted at
    /// each call, in about n log n steps for n live rows.
    pub fn newest(&self, most: u32) -> Result<Vec<&R>, NoMemory>
        ensures { IfOk result (λ rows. map (λ r. R.value r.now) rows.items ≡ take most (newest_rows (live (values R.value self.now.log)))) }
    {
        let mut rows = self.live_rows()?;
        rows.sort_unstable_by(|a, b| rows_by_recency(*a, *b));
        rows.truncate(most as usize);
        Ok(rows)
    }
}
