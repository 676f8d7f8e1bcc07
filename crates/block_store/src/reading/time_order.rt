//! The rows of a snapshot by the time at which they were written, for those who cut boxes by time.
//!
//! Rows stand in blocks by place. Where times have nothing to do with places, each block has rows of all times, and a box
//! of few times is told only by a look at each row. An order by time is then the shorter way: a list of positions, four
//! bytes a row, in which the rows of a box's times stand in one run. It is a value beside the snapshot and no part of it,
//! so whoever never cuts by time pays nothing for it, and who does makes it once, at the first cut, and keeps it as long
//! as the snapshot. Each call here says what the snapshot's own call says, and takes whichever way has fewer rows to look
//! at: along the blocks, where those that lie in the box or outside its times cost one look, or along the order. What is
//! found along the order is put in order by position.

ghost use Rattle.std.specs.Prelude.{◌≡◌, ◌+◌, ◌≤◌, length, map, slice_get, IfOk};
ghost use Rattle.block_store.specs.BoxKinds.{IsOfOneNamespace, IsOneRun};
ghost use Rattle.block_store.specs.ByTime.{IsTimeOrder};
ghost use Rattle.block_store.specs.Fingerprint.{fingerprint_of};
ghost use Rattle.block_store.specs.InBox.{is_in, rows_in};
ghost use Rattle.block_store.specs.Positions.{positions};

use crate::reading::by_time::{count_at, fewer_by_time, found_at, order_of, total_at};
use crate::reading::snapshot::Snapshot;
use std::alloc::Global;
use std::marker::Model;
use std::sync::ledger::Ledger;
use step_count::Steps;
use willow_area::Box3;
use willow_entry::Row;
use willow_path::NoMemory;

/// The positions of a snapshot's rows by rising time, and among rows of one time by rising position: four bytes a row.
/// A contract sees the list of these positions.
#[derive(Drop)]
pub struct TimeOrder {
    positions: Vec<u32>,
}

impl Model for TimeOrder {
    ghost use Rattle.std.specs.Prelude.{ℕ, List};

    ghost Value = { List ℕ };

    ghost view = { λ o. o.positions.items };
}

impl TimeOrder {
    /// The order of the snapshot's rows. It takes about n log n steps for n rows, and sixteen bytes a row until it is made.
    pub fn of<R: Row>(alloc: Global, snapshot: &Snapshot<R>) -> Result<TimeOrder, NoMemory>
        ensures { IfOk result (λ order. IsTimeOrder order (map R.value snapshot.now)) }
    {
        let positions = order_of(alloc, snapshot.listing())?;
        Ok(TimeOrder { positions })
    }

    /// The number of rows of its snapshot that the box includes.
    pub fn count_in<R: Row>(&self, snapshot: &Snapshot<R>, area: &Box3) -> u32
        requires { IsTimeOrder self.now (map R.value snapshot.now) }
        ensures { result ≡ length (rows_in area.now (map R.value snapshot.now)) }
    {
        let listing = snapshot.listing();
        match fewer_by_time(listing, &self.positions, area) {
            Some(ats) => count_at(listing, area, ats),
            None => snapshot.count_in(area),
        }
    }

    /// The positions, rising, of the rows of its snapshot that the box includes.
    pub fn positions_in<R: Row>(
        &self,
        snapshot: &Snapshot<R>,
        area: &Box3,
    ) -> Result<Vec<u32>, NoMemory>
        requires { IsTimeOrder self.now (map R.value snapshot.now) }
        ensures { IfOk result (λ found. found.items ≡ positions (is_in area.now) (map R.value snapshot.now)) }
    {
        let listing = snapshot.listing();
        match fewer_by_time(listing, &self.positions, area) {
            Some(ats) => {
                let mut found = found_at(*self.positions.allocator(), listing, area, ats)?;
                found.sort_unstable();
                Ok(found)
            }
            None => snapshot.positions_in(area),
        }
    }

    /// The fingerprint of the rows of its snapshot that the box includes, in the form of the snapshot's own call, and
    /// within its bounds. To take a leaf for this is a step.
    pub fn fingerprint<R: Row, L: Ledger>(
        &self,
        snapshot: &Snapshot<R>,
        area: &Box3,
        steps: &mut Steps<L>,
    ) -> [u8; 32]
        requires { IsTimeOrder self.now (map R.value snapshot.now) }
        ensures fingerprint { result ≡ fingerprint_of (rows_in area.now (map R.value snapshot.now)) }
        ensures steps { steps.new ≤ steps.old + length snapshot.now }
        ensures few { IsOneRun area.now → IsOfOneNamespace (map R.value snapshot.now) → steps.new ≤ steps.old + 128 }
    {
        let listing = snapshot.listing();
        match fewer_by_time(listing, &self.positions, area) {
            Some(ats) => total_at(listing, area, ats, steps).finish(),
            None => snapshot.fingerprint(area, steps),
        }
    }
}
