//! The summary of a drill.

ghost use Rattle.std.specs.Prelude.{◌≡◌, ◌++◌, IfOk, OnErr, OnOk};
ghost use Rattle.peer_listing.specs.Summary.{drill_summary, exchange_line, number_line};

use spelling::{NoMemory, put_bytes};
use std::alloc::Global;

/// The numbers of a drill: the rows that were generated, the live rows of both sides before they met and after, and
/// the counted items and the turns of the exchange.
#[derive(Clone, Copy)]
pub struct DrillCounts {
    /// Generated rows.
    pub rows: u32,
    /// Live rows of the left side before.
    pub left: u32,
    /// Live rows of the right side before.
    pub right: u32,
    /// Live rows of the left side after.
    pub left_after: u32,
    /// Live rows of the right side after.
    pub right_after: u32,
    /// Counted items of both sides.
    pub items: u32,
    /// Turns of both sides.
    pub turns: u64,
}

/// Appends six lines to `out`: `rows`, `left`, `right`, `left after` and `right after`, each with its number behind it,
/// and `items` and `turns` with theirs; numbers are decimal. Without memory `out` stays as it was.
pub fn drill_summary(counts: &DrillCounts, out: &mut Vec<u8>) -> Result<(), NoMemory>
    ensures appended { OnOk result (out.new.items ≡ out.old.items ++ drill_summary counts.now) }
    ensures kept { OnErr result (out.new.items ≡ out.old.items) }
{
    let text = summary_of(*out.allocator(), counts)?;
    put_bytes(out, &text)
}

// The lines of a drill.
fn summary_of(alloc: Global, counts: &DrillCounts) -> Result<Vec<u8>, NoMemory>
    ensures { IfOk result (λ text. text.items ≡ drill_summary counts.now) }
{
    let mut text = Vec::new(alloc);
    put_number(alloc, &mut text, "rows", counts.rows)?;
    put_number(alloc, &mut text, "left", counts.left)?;
    put_number(alloc, &mut text, "right", counts.right)?;
    put_number(alloc, &mut text, "left after", counts.left_after)?;
    put_number(alloc, &mut text, "right after", counts.right_after)?;
    put_exchange(alloc, &mut text, counts.items, counts.turns)?;
    Ok(text)
}

// Appends the line of a number.
fn put_number(alloc: Global, text: &mut Vec<u8>, name: &str, number: u32) -> Result<(), NoMemory>
    ensures { OnOk result (text.new.items ≡ text.old.items ++ number_line name.now number) }
{
    let line = format!(in alloc; "{name} {number}\n")?;
    put_bytes(text, line.as_bytes())
}

// Appends the line of an exchange.
fn put_exchange(alloc: Global, text: &mut Vec<u8>, items: u32, turns: u64) -> Result<(), NoMemory>
    ensures { OnOk result (text.new.items ≡ text.old.items ++ exchange_line items turns) }
{
    let line = format!(in alloc; "items {items} turns {turns}\n")?;
    put_bytes(text, line.as_bytes())
}
