//! What stands behind a run with a log file: its disk is given back, and the end tells what the file keeps.

ghost use Rattle.std.specs.Prelude.{◌≡◌, ◌≤◌, IfSome, Ok, not};
ghost use Rattle.peer_run.specs.LogClosing.{GivesBack, end_told, filed_end};
ghost use Rattle.peer_run.specs.LogFiles.{FileState, file_states};

use crate::log_file::LogFile;
use peer_stage::{Done, Hosted, Stop, Stopped};
use willow_outside::{Bay, Disk};

/// Gives the disk of the log file back, where there is one, and tells what the file keeps beside what a run came to. A write of it
/// that failed is told as a failed put of the image.
pub(crate) fn close_file<K: Disk, B: Bay<D = K>>(
    bay: &mut B,
    file: Option<LogFile<K>>,
    end: Result<Done, Stop>,
) -> Result<Done, Stop>
    requires out { IfSome (file_states K.facts file) (λ f. 1 ≤ (B.facts bay.old).out) }
    ensures end { result ≡ end_told (file_states K.facts file) end }
    ensures back { GivesBack (file_states K.facts file) (B.facts bay.old) (B.facts bay.new) }
{
    match file {
        Some(LogFile { keeper, kept, .. }) => {
            let unbroken = !keeper.is_broken();
            bay.give_back(keeper.into_disk());
            Ok(with_kept(kept, unbroken, end))
        }
        None => end,
    }
}

// What a run came to with a file open that keeps so many rows.
fn with_kept(kept: u64, unbroken: bool, end: Result<Done, Stop>) -> Done
    ensures { (f : FileState) → kept ≡ f.kept → unbroken ≡ not f.broken → Ok result ≡ filed_end f end }
{
    match end {
        Ok(Done::Hosted(hosted)) => {
            let put = hosted.put && unbroken;
            Done::Hosted(Hosted {
                kept: Some(kept),
                put,
                ..hosted
            })
        }
        Ok(done) => done,
        Err(stop) => Done::Stopped(Stopped { stop, kept }),
    }
}
