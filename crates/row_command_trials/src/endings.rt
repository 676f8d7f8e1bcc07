//! How a command ended.

use mc_cap::RefusedRow;
use peer_stage::{Done, JoinCounts, Origin, ShowCounts, Stop, WatchCounts};

// How a command ended over the input.
#[derive(Clone, Copy, PartialEq, Eq)]
pub(crate) enum Ended {
    Joined(JoinCounts),
    Shown(ShowCounts),
    // the rows of the input, those stored, kept and refused, the watchers that left, and the first refused row
    Watched([u64; 4], u32, Option<RefusedRow>),
    Made,
    Bad(u64),
    NotRising(u32),
    Pruned(u32, u32),
    ReadFault,
    WriteFault,
    Otherwise,
}

pub(crate) fn ending_of(end: Result<Done, Stop>) -> Ended {
    match end {
        Ok(Done::Joined(counts)) => Ended::Joined(counts),
        Ok(Done::Shown(counts)) => Ended::Shown(counts),
        Ok(Done::Watched(counts)) => watched(counts),
        Ok(Done::Made) => Ended::Made,
        Err(
            Stop::BadInput {
                origin: Origin::Input,
                at,
            },
        ) => Ended::Bad(at),
        Err(
            Stop::NotRising {
                origin: Origin::Input,
                row,
            },
        ) => Ended::NotRising(row),
        Err(
            Stop::Pruned {
                origin: Origin::Input,
                row,
                by,
            },
        ) => Ended::Pruned(row, by),
        Err(Stop::ReadFault) => Ended::ReadFault,
        Err(Stop::WriteFault) => Ended::WriteFault,
        _ => Ended::Otherwise,
    }
}

fn watched(counts: WatchCounts) -> Ended {
    let numbers = [counts.rows, counts.stored, counts.kept, counts.refused];
    Ended::Watched(numbers, counts.left, counts.first)
}

pub(crate) fn shown(rows: u64, refused: u64, first: Option<RefusedRow>) -> Ended {
    Ended::Shown(ShowCounts {
        rows,
        refused,
        first,
    })
}
