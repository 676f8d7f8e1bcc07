//! Shares of rows: what is made of each share may be made on a thread of its own, and is written in order.

ghost use Rattle.std.specs.Prelude.{ℕ, ◌*◌, ◌≤◌, List, IsTrue};
ghost use Rattle.peer_stage.specs.Faults.{CountsStep};
ghost use Rattle.peer_stage.specs.Stages.{WritesOutput};
ghost use Rattle.peer_rows.specs.Shares.{AreShares};

use peer_stage::{Stop, write_output};
use spelling::NoMemory;
use std::thread::{Threads, available_parallelism};
use willow_outside::Sink;

/// A share has so many rows: their work takes some ten times as long as to start a thread for it.
pub(crate) const SHARE: u32 = 1_024;

/// So many threads work on shares at once, and what they made then stands in memory.
pub(crate) const SHARES: u32 = 4;

/// Whether so many rows are worth a round of threads.
pub(crate) fn is_worth_threads(rt: &impl Threads, rows: u32) -> bool
    ensures { IsTrue result → SHARES * SHARE ≤ rows }
{
    rows >= SHARES * SHARE && has_processors(rt)
}

/// Whether there is more than one processor.
pub(crate) fn has_processors(rt: &impl Threads) -> bool {
    match available_parallelism(rt) {
        Ok(count) => count.get() > 1,
        Err(_) => false,
    }
}

/// Writes what was made of shares, in order. That there was no memory for a share is told when its turn comes.
pub(crate) fn write_shares<O: Sink>(
    shares: &[Result<Vec<u8>, NoMemory>],
    output: &mut O,
) -> Result<(), Stop>
    ensures writes { (left : ℕ → List ℕ) → AreShares left shares.now → WritesOutput (O.facts output.old) (O.facts output.new) (left 0) result }
    ensures faults { CountsStep (O.facts output.old).faults (O.facts output.new).faults result }
{
    'shares: for k in 0..shares.len() {
        match &shares[k] {
            Ok(bytes) => write_output(output, bytes)?,
            Err(NoMemory) => return Err(Stop::NoMemory),
        }
    }
    Ok(())
}
