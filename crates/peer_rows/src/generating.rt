//! `generate`: the frames of the generator's rows, made on all processors where they are many, and written a piece at a time.

ghost use Rattle.std.specs.Prelude.{◌≡◌, ℕ, ◌+◌, ◌*◌, ◌≤◌, IfOk, length};
ghost use Rattle.peer_listing.specs.Ranges.{frames_between};
ghost use Rattle.peer_stage.specs.Faults.{CountsStep};
ghost use Rattle.peer_stage.specs.Stages.{WritesOutput};
ghost use Rattle.peer_stage.specs.World.{World};
ghost use Rattle.peer_rows.specs.Generate.{AreFrameShares, generated_frames, Generates};

use crate::imaging::PIECE;
use crate::shares::{SHARE, SHARES, is_worth_threads, write_shares};
use peer_listing::{GENERATED_ROWS, Generator};
use peer_stage::{Done, Stop, write_output};
use spelling::NoMemory;
use std::alloc::Global;
use std::thread::{Threads, map_indices};
use willow_outside::Sink;

// So many rows are made together: enough for all lanes, few enough that what is made of them stays near.
const TOGETHER: u32 = 64;

/// Writes the frames of the first `rows` rows of the generator, from row 0 on. There are at most `GENERATED_ROWS`. Where there
/// are many they are made on all processors.
pub fn generate<R: Threads + Sync, O: Sink>(
    rt: &R,
    alloc: Global,
    rows: u32,
    output: &mut O,
) -> Result<Done, Stop>
    requires { rows ≤ GENERATED_ROWS }
    ensures { (others : World) → Generates rows (record others { output = O.facts output.old }) (record others { output = O.facts output.new }) result }
{
    let generator = Generator::new(alloc)?;
    write_rows(rt, alloc, &generator, rows, output)?;
    Ok(Done::Made)
}

// Writes the frames of the first rows: on all processors as long as there are enough left for each.
fn write_rows<R: Threads + Sync, O: Sink>(
    rt: &R,
    alloc: Global,
    generator: &Generator,
    rows: u32,
    output: &mut O,
) -> Result<(), Stop>
    requires { rows ≤ GENERATED_ROWS }
    ensures writes { WritesOutput (O.facts output.old) (O.facts output.new) (generated_frames rows) result }
    ensures faults { CountsStep (O.facts output.old).faults (O.facts output.new).faults result }
{
    let mut made = 0;
    'rounds: while is_worth_threads(rt, rows - made) {
        let shares = make_shares(rt, alloc, generator, made)?;
        write_shares(&shares, output)?;
        made += SHARES * SHARE;
    }
    write_frames(alloc, generator, made, rows, output)
}

// The frames of the rows from one on, each share of them made on a thread of its own.
fn make_shares<R: Threads + Sync>(
    rt: &R,
    alloc: Global,
    generator: &Generator,
    from: u32,
) -> Result<Vec<Result<Vec<u8>, NoMemory>>, NoMemory>
    requires { from + SHARES * SHARE ≤ GENERATED_ROWS }
    ensures shares { IfOk result (λ shares. AreFrameShares from shares.items) }
    ensures count { IfOk result (λ shares. length shares.items ≡ SHARES) }
{
    let shares = map_indices(
        rt,
        alloc,
        SHARES as usize,
        &|k: usize| -> Result<Vec<u8>, NoMemory>
            requires { from + (k * SHARE + SHARE) ≤ GENERATED_ROWS }
            ensures { IfOk result (λ bytes. bytes.items ≡ frames_between (from + k * SHARE) (from + (k * SHARE + SHARE))) }
        {
            let begin = from + k as u32 * SHARE;
            make_share(alloc, generator, begin, begin + SHARE)
        },
    )?;
    Ok(shares)
}

// The frames of the rows from one to before another.
fn make_share(alloc: Global, generator: &Generator, from: u32, to: u32) -> Result<Vec<u8>, NoMemory>
    requires order { from ≤ to }
    requires within { to ≤ GENERATED_ROWS }
    ensures { IfOk result (λ bytes. bytes.items ≡ frames_between from to) }
{
    let mut bytes = Vec::new(alloc);
    let mut made = from;
    'rows: while made < to {
        let next = to.min(made + TOGETHER);
        generator.put_frames(alloc, made, next, &mut bytes)?;
        made = next;
    }
    Ok(bytes)
}

// Writes the frames of the rows from one on: no more of them than a piece and those made together stand in memory.
fn write_frames<O: Sink>(
    alloc: Global,
    generator: &Generator,
    from: u32,
    rows: u32,
    output: &mut O,
) -> Result<(), Stop>
    requires order { from ≤ rows }
    requires within { rows ≤ GENERATED_ROWS }
    ensures writes { WritesOutput (O.facts output.old) (O.facts output.new) (frames_between from rows) result }
    ensures faults { CountsStep (O.facts output.old).faults (O.facts output.new).faults result }
{
    let mut piece = Vec::new(alloc);
    let mut made = from;
    'rows: while made < rows {
        if piece.len() >= PIECE {
            write_output(output, &piece)?;
            piece.clear();
        }
        let to = rows.min(made + TOGETHER);
        generator.put_frames(alloc, made, to, &mut piece)?;
        made = to;
    }
    write_output(output, &piece)
}
