//! Many rows of the generator.

ghost use Rattle.std.specs.Prelude.{◌≡◌, ◌≤◌, map, IfOk};
ghost use Rattle.std.specs.List.{All};
ghost use Rattle.willow_entry.specs.Frame.{HasFrame};
ghost use Rattle.cap_codec.specs.Rows.{row_of};
ghost use Rattle.peer_listing.specs.Generator.{generated, generated_entry};
ghost use Rattle.peer_listing.specs.Ranges.{entries_between, generated_between};
ghost use Rattle.peer_listing.specs.Signing.{own_signature};

use crate::generator::GENERATED_ROWS;
use crate::signing::{digests, entries_between, messages, signed_bytes};
use crate::writers::Generator;
use cap_codec::{RawRow, WriteToken};
use mc_cap::Signature;
use spelling::NoMemory;
use std::alloc::Global;
use willow_entry::Entry;

impl Generator {
    /// The generator's rows from one to before another, in order, as `generated_row` has each. The last is at most
    /// `GENERATED_ROWS`. They are signed together, four at a time, so several dozen by one call serve best.
    pub fn rows(&self, alloc: Global, from: u32, to: u32) -> Result<Vec<RawRow>, NoMemory>
        requires order { from ≤ to }
        requires within { to ≤ GENERATED_ROWS }
        ensures rows { IfOk result (λ rows. rows.items ≡ generated_between from to) }
        ensures fit { IfOk result (λ rows. All (λ row. HasFrame (row_of row)) rows.items) }
    {
        let entries = entries_between(alloc, from, to)?;
        let signatures = own_signatures(alloc, &entries)?;
        let rows = self.rows_of(alloc, from, to, entries, &signatures)?;
        Ok(rows)
    }

    // The rows from one to before another, which have these entries and signatures.
    fn rows_of(
        &self,
        alloc: Global,
        from: u32,
        to: u32,
        entries: Vec<Entry>,
        signatures: &[[u8; 32]],
    ) -> Result<Vec<RawRow>, NoMemory>
        requires order { from ≤ to }
        requires within { to ≤ GENERATED_ROWS }
        requires entries { entries.items ≡ entries_between from to }
        requires signatures { signatures.now ≡ map own_signature (entries_between from to) }
        ensures { IfOk result (λ rows. rows.items ≡ generated_between from to) }
    {
        let mut rows = Vec::with_capacity(alloc, entries.len())?;
        let mut i = from;
        'entries: for entry in entries {
            let signature = &signatures[(i - from) as usize];
            rows.push(self.row(alloc, i, entry, signature)?)?;
            i += 1;
        }
        Ok(rows)
    }

    // Row i, which has this entry and this signature.
    fn row(
        &self,
        alloc: Global,
        i: u32,
        entry: Entry,
        signature: &[u8; 32],
    ) -> Result<RawRow, NoMemory>
        requires entry { entry ≡ generated_entry i }
        requires signature { signature.now ≡ own_signature (generated_entry i) }
        ensures { IfOk result (λ row. row ≡ generated i) }
    {
        let token = WriteToken {
            capability: self.capability((i % 8) as u8).copy()?,
            signature: Signature::short(Vec::from_slice(alloc, signature)?),
        };
        Ok(RawRow::new(alloc, entry, token)?)
    }
}

// The open signature of each entry by the key of its subspace.
fn own_signatures(alloc: Global, entries: &[Entry]) -> Result<Vec<[u8; 32]>, NoMemory>
    ensures { IfOk result (λ made. made.items ≡ map own_signature entries.now) }
{
    let bytes = signed_bytes(alloc, entries)?;
    let messages = messages(alloc, entries, &bytes)?;
    digests(alloc, &messages)
}
