//! The three tables, and how many of their lines agree.

use crate::item_case::ItemCase;
use crate::{hello_case, signature_case};
use std::alloc::Global;

/// How many lines of a table were read, and for how many of them all answers are those of the crate.
#[derive(Clone, Copy)]
pub(crate) struct Count {
    pub(crate) agreed: u64,
    pub(crate) lines: u64,
}

impl Count {
    // No line.
    const NONE: Count = Count {
        agreed: 0,
        lines: 0,
    };

    // Counts a line, which agrees or not, and answers whether it does.
    fn add(&mut self, agrees: bool) -> bool {
        self.lines = self.lines.saturating_add(1);
        if agrees {
            self.agreed = self.agreed.saturating_add(1);
        }
        agrees
    }
}

/// The counts of the tables, and the case of the table of items that is being read.
#[derive(Drop)]
pub(crate) struct Tables {
    case: ItemCase,
    pub(crate) items: Count,
    pub(crate) hellos: Count,
    pub(crate) signatures: Count,
}

impl Tables {
    /// No line of any table.
    pub(crate) fn new(alloc: Global) -> Tables {
        Tables {
            case: ItemCase::none(alloc),
            items: Count::NONE,
            hellos: Count::NONE,
            signatures: Count::NONE,
        }
    }

    /// Reads the next line and counts it in its table: whether all its answers are those of the crate. A line of no
    /// table does not agree.
    pub(crate) fn agree(&mut self, alloc: Global, line: &str) -> bool {
        let Some((kind, fields)) = line.split_once(' ') else {
            return false;
        };
        match kind {
            "item" | "at" => {
                let agrees = self.case.agrees(alloc, kind, fields) == Some(true);
                self.items.add(agrees)
            }
            "read" | "check" | "proof" | "common" => {
                self.hellos
                    .add(hello_case::agrees(alloc, kind, fields) == Some(true))
            }
            "signature" => self
                .signatures
                .add(signature_case::agrees(alloc, fields) == Some(true)),
            _ => false,
        }
    }
}
