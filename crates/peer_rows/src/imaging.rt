//! The image of a store, written a piece at a time.

ghost use Rattle.std.specs.Prelude.{◌≡◌, ℕ, ◌<◌, ◌≤◌, ◌^◌, ◌++◌, [], List, length, map};
ghost use Rattle.std.specs.List.{AllByRecursion, flat_map};
ghost use Rattle.std.specs.List.Sorted.{IsStrictlySortedBy};
ghost use Rattle.willow_outside.specs.Facts.{SinkFacts};
ghost use Rattle.willow_entry.specs.Entry.{bytes_cmp};
ghost use Rattle.willow_entry.specs.Frame.{HasFrame};
ghost use Rattle.willow_entry.specs.declared.frame.TheConstants.{MAX_FRAME};
ghost use Rattle.peer_image.specs.Image.{bytes_frame, capabilities, image, placed_frame};
ghost use Rattle.peer_stage.specs.Faults.{CountsStep};
ghost use Rattle.peer_stage.specs.Stages.{WritesOutput};
ghost use Rattle.peer_rows.specs.Writing.{GoesOnWriting, IsWritingOut};

use block_store::{BlockStore, Rows};
use cap_codec::TokenRow;
use peer_image::{
    capabilities_of, place_from, put_capability, put_head_two, put_row_two, put_trailer,
};
use peer_stage::{Stop, write_output};
use std::alloc::Global;
use willow_outside::Sink;
use willow_path::NamespaceKey;

/// A piece is written as soon as it has so many bytes.
pub(crate) const PIECE: usize = 65_536;

// Writes the image of the store's rows, as `write_store_image` makes it, straight from the store: no more of it than a
// piece and a frame stands in memory, beside a list of where the capabilities are.
pub(crate) fn write_image_of<R: TokenRow, O: Sink>(
    alloc: Global,
    namespace: &NamespaceKey,
    store: &BlockStore<R>,
    output: &mut O,
) -> Result<(), Stop>
    requires { AllByRecursion HasFrame (map R.value store.now) }
    ensures writes { WritesOutput (O.facts output.old) (O.facts output.new) (image namespace.now (map R.value store.now)) result }
    ensures faults { CountsStep (O.facts output.old).faults (O.facts output.new).faults result }
{
    let told = capabilities_of(alloc, store.rows())?;
    let mut piece = Vec::new(alloc);
    write_told(namespace, store, &told, &mut piece, output)
}

// The same, where these are the capabilities, in an empty piece.
fn write_told<R: TokenRow, O: Sink>(
    namespace: &NamespaceKey,
    store: &BlockStore<R>,
    told: &[&[u8]],
    piece: &mut Vec<u8>,
    output: &mut O,
) -> Result<(), Stop>
    requires frames { AllByRecursion HasFrame (map R.value store.now) }
    requires told { map (λ c. c.now) told.now ≡ capabilities (map R.value store.now) }
    requires up { IsStrictlySortedBy (λ c d. bytes_cmp c.now d.now) told.now }
    requires short { AllByRecursion (λ c. length c ≤ MAX_FRAME) (map (λ c. c.now) told.now) }
    requires empty { piece.old.items ≡ [] }
    ensures writes { WritesOutput (O.facts output.old) (O.facts output.new) (image namespace.now (map R.value store.now)) result }
    ensures faults { CountsStep (O.facts output.old).faults (O.facts output.new).faults result }
{
    let count = store.len();
    put_head_two(piece, namespace, told.len() as u32)?;
    write_capabilities(told, piece, output)?;
    write_rows(store.rows(), told, piece, output)?;
    put_trailer(piece, count)?;
    write_output(output, piece)
}

// Writes the capabilities behind the piece, a piece at a time. What is left of them stands in the piece then.
fn write_capabilities<O: Sink>(
    told: &[&[u8]],
    piece: &mut Vec<u8>,
    output: &mut O,
) -> Result<(), Stop>
    requires { AllByRecursion (λ c. length c ≤ MAX_FRAME) (map (λ c. c.now) told.now) }
    ensures writes { (begun : SinkFacts) (whole behind : List ℕ) → IsWritingOut begun (O.facts output.old) whole piece.old.items (flat_map bytes_frame (map (λ c. c.now) told.now) ++ behind) → 0 < length behind
        → GoesOnWriting begun (O.facts output.new) whole piece.new.items behind result }
    ensures faults { CountsStep (O.facts output.old).faults (O.facts output.new).faults result }
{
    for capability in told {
        write_full(piece, output)?;
        put_capability(piece, capability)?;
    }
    Ok(())
}

// Writes the rows likewise, each with the place of its capability.
fn write_rows<R: TokenRow, O: Sink>(
    rows: Rows<'_, R>,
    told: &[&[u8]],
    piece: &mut Vec<u8>,
    output: &mut O,
) -> Result<(), Stop>
    requires frames { AllByRecursion HasFrame (map R.value rows) }
    requires up { IsStrictlySortedBy (λ c d. bytes_cmp c.now d.now) told.now }
    requires few { length told.now < 2 ^ 32 }
    ensures writes { (begun : SinkFacts) (whole behind : List ℕ) → IsWritingOut begun (O.facts output.old) whole piece.old.items (flat_map (placed_frame (map (λ c. c.now) told.now)) (map R.value rows.entry) ++ behind) → 0 < length behind
        → GoesOnWriting begun (O.facts output.new) whole piece.new.items behind result }
    ensures faults { CountsStep (O.facts output.old).faults (O.facts output.new).faults result }
{
    let mut left = rows;
    let mut place = 0;
    'rows: while let Some(row) = left.next() {
        write_full(piece, output)?;
        place = place_from(told, place, row);
        put_row_two(piece, row, place)?;
    }
    Ok(())
}

// Writes the piece where it is long enough, and empties it.
fn write_full<O: Sink>(piece: &mut Vec<u8>, output: &mut O) -> Result<(), Stop>
    ensures writes { (begun : SinkFacts) (whole rest : List ℕ) → IsWritingOut begun (O.facts output.old) whole piece.old.items rest
        → GoesOnWriting begun (O.facts output.new) whole piece.new.items rest result }
    ensures faults { CountsStep (O.facts output.old).faults (O.facts output.new).faults result }
{
    if piece.len() < PIECE {
        return Ok(());
    }
    write_output(output, piece)?;
    piece.clear();
    Ok(())
}
