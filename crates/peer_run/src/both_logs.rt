//! The logs of the rows of two images, which are read side by side.

ghost use Rattle.std.specs.Prelude.{◌≡◌, ◌^◌, ◌<◌, ◌⊎◌, length, Err, IfErr, IfOk};
ghost use Rattle.std.specs.Thread.{IsSync};
ghost use Rattle.auth_entry.specs.Rows.{entry_row};
ghost use Rattle.peer_rows.specs.Images.{LogsImage};
ghost use Rattle.peer_rows.specs.Logged.{authorised_rows, AreCounts};
ghost use Rattle.peer_rows.specs.RowLogs.{HasTaken};
ghost use Rattle.peer_run.specs.ImagesMet.{LogsOne};

use crate::judging::RowChecker;
use peer_image::Image;
use peer_rows::{EntryLog, log_image};
use peer_stage::{JoinCounts, Stop};
use std::alloc::Global;
use std::thread::{Threads, join};

// So many rows of each image are worth a thread: to judge and store them takes some fifty times as long as to start it.
const WORTH_A_THREAD: usize = 1_024;

// The log of an image's rows, and their numbers.
type Logged = (EntryLog, JoinCounts);

/// The logs of the authorised rows of two images, and the numbers of all their rows. Where both images have many rows a thread of
/// its own reads one of them. What is against the left one is told first.
pub(crate) fn log_both<R: Threads + Sync>(
    rt: &R,
    alloc: Global,
    left: Image,
    right: Image,
) -> Result<(EntryLog, EntryLog, JoinCounts, JoinCounts), Stop>
    requires left { length left.rows.items < 2 ^ 32 }
    requires right { length right.rows.items < 2 ^ 32 }
    ensures left { IfOk result (λ x. HasTaken entry_row (authorised_rows left.namespace left.rows.items) x.0 × AreCounts left.namespace left.rows.items x.2) }
    ensures right { IfOk result (λ x. HasTaken entry_row (authorised_rows right.namespace right.rows.items) x.1 × AreCounts right.namespace right.rows.items x.3) }
    ensures namespaces { IfOk result (λ x. (x.0.namespace ≡ left.namespace) × (x.1.namespace ≡ right.namespace)) }
    ensures stops { IfErr result (λ e. LogsImage left.namespace left.rows.items (Err e) ⊎ LogsImage right.namespace right.rows.items (Err e)) }
{
    let (left, right) = log_each(rt, alloc, left, right);
    let (left, left_counts) = left?;
    let (right, right_counts) = right?;
    Ok((left, right, left_counts, right_counts))
}

// The log of each, or how it stops.
fn log_each<R: Threads + Sync>(
    rt: &R,
    alloc: Global,
    left: Image,
    right: Image,
) -> (Result<Logged, Stop>, Result<Logged, Stop>)
    requires left { length left.rows.items < 2 ^ 32 }
    requires right { length right.rows.items < 2 ^ 32 }
    ensures left { LogsOne left.namespace left.rows.items result.0 }
    ensures right { LogsOne right.namespace right.rows.items result.1 }
{
    if left.rows.len().min(right.rows.len()) < WORTH_A_THREAD {
        return (log_one(rt, alloc, left), log_one(rt, alloc, right));
    }
    join(
        rt,
        move || -> Result<Logged, Stop>
            requires { IsSync R.row × (length left.rows.items < 2 ^ 32) }
            ensures { LogsOne left.namespace left.rows.items result }
        { log_one(rt, alloc, left) },
        move || -> Result<Logged, Stop>
            requires { IsSync R.row × (length right.rows.items < 2 ^ 32) }
            ensures { LogsOne right.namespace right.rows.items result }
        { log_one(rt, alloc, right) },
    )
}

// The log of one.
fn log_one<R: Threads + Sync>(rt: &R, alloc: Global, image: Image) -> Result<Logged, Stop>
    requires { length image.rows.items < 2 ^ 32 }
    ensures { LogsOne image.namespace image.rows.items result }
{
    log_image::<RowChecker, R>(rt, alloc, image)
}
