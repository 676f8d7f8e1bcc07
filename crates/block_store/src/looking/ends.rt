//! Tests by which the rows of a box are found: whether a row stands below an end.

ghost use Rattle.std.specs.Prelude.{◌≡◌, Option};
ghost use Rattle.willow_path.specs.Path.{part_cmp, path_cmp};
ghost use Rattle.willow_area.specs.Range.{is_before_end};
ghost use Rattle.std.specs.Option.{option_copied};
ghost use Rattle.block_store.specs.Ends.{is_before_key, is_before_path};

use crate::looking::search::Test;
use std::cmp::Ordering;
use willow_entry::Row;
use willow_path::{Path, UserKey};

// Whether the row's subspace is below the end, where there is one.
#[derive(Clone, Copy)]
pub(crate) struct BeforeKey<'a> {
    pub(crate) end: Option<&'a UserKey>,
}

impl<'a, R: Row> Test<R> for BeforeKey<'a> {
    ghost test = { λ t row. is_before_key (option_copied t.end) row };

    fn passes(&self, row: &R) -> bool {
        match self.end {
            None => true,
            Some(end) => row.entry().subspace.cmp(end).is_lt(),
        }
    }
}

// Whether the row's subspace is below the key, or it is the key and the row's path is below the end, where there is
// one.
#[derive(Clone, Copy)]
pub(crate) struct BeforePath<'a> {
    pub(crate) key: &'a UserKey,
    pub(crate) end: Option<&'a Path>,
}

impl<'a, R: Row> Test<R> for BeforePath<'a> {
    ghost test = { λ t row. is_before_path t.key.now (option_copied t.end) row };

    fn passes(&self, row: &R) -> bool {
        let entry = row.entry();
        match entry.subspace.cmp(self.key) {
            Ordering::Less => true,
            Ordering::Equal => is_below(&entry.path, self.end),
            Ordering::Greater => false,
        }
    }
}

// Whether the path is below the end, where there is one.
fn is_below(path: &Path, end: Option<&Path>) -> bool
    ensures { result ≡ is_before_end path_cmp path.now (option_copied end.entry) }
{
    match end {
        None => true,
        Some(end) => path < end,
    }
}
