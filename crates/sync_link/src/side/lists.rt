//! The rows that come with a piece, list by list.

ghost use Rattle.std.specs.Prelude.{◌≡◌, [], OnOk};
ghost use Rattle.sync_link.specs.Hearing.{with_list};

use cap_codec::RawRow;
use spelling::NoMemory;
use std::alloc::Global;

// Rows that came and are not judged yet. Those of one list, which an Entries or a Rest announces, are judged together.
#[derive(Drop)]
pub(crate) struct Lists {
    // The rows, in order.
    pub(crate) rows: Vec<RawRow>,
    // How many rows each list has that is begun, or is due yet. Of the last some may be yet to come.
    pub(crate) counts: Vec<u32>,
}

impl Lists {
    // No row came.
    pub(crate) fn new(alloc: Global) -> Lists
        ensures rows { result.rows.items ≡ [] }
        ensures counts { result.counts.items ≡ [] }
    {
        Lists {
            rows: Vec::new(alloc),
            counts: Vec::new(alloc),
        }
    }

    // A list of so many rows is announced. One of no row is left out, since there is nothing to judge.
    pub(crate) fn announce(&mut self, count: u32) -> Result<(), NoMemory>
        ensures rows { self.new.rows.items ≡ self.old.rows.items }
        ensures counts { OnOk result (self.new.counts.items ≡ with_list self.old.counts.items count) }
    {
        if count > 0 {
            self.counts.push(count)?;
        }
        Ok(())
    }

    // No row came, and no list is announced.
    pub(crate) fn clear(&mut self)
        ensures rows { self.new.rows.items ≡ [] }
        ensures counts { self.new.counts.items ≡ [] }
    {
        self.rows.clear();
        self.counts.clear();
    }
}
