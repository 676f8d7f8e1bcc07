//! What comes of it when the rows of two images meet.

ghost use Rattle.std.specs.Prelude.{◌≡◌, ◌^◌, ◌<◌, ◌≤◌, IfSome};
ghost use Rattle.peer_run.specs.ImagesMet.{IsImageOfRows, MeetsImages, first_of_both, meet_counts, side_counts};

use crate::both_logs::log_both;
use crate::exchanging::{Came, Exchanged, exchange, hash_logs};
use crate::transcript::transcript_of;
use area_interest::Interest;
use mc_cap::RefusedRow;
use peer_image::{Image, write_store_image};
use peer_rows::log_stop;
use peer_stage::{JoinCounts, MeetCounts, SideCounts, Stop};
use std::alloc::Global;
use std::thread::Threads;
use willow_area::Area;

/// The images of what both sides have then, what was said, and the numbers.
#[derive(Drop)]
pub(crate) struct Met {
    pub(crate) left: Vec<u8>,
    pub(crate) right: Vec<u8>,
    pub(crate) transcript: Vec<u8>,
    pub(crate) counts: MeetCounts,
}

/// Lets the authorised rows of two images of one namespace meet over the area that both sides may read, of which each offers as
/// much as the limits leave.
pub(crate) fn meet_images<R: Threads + Sync>(
    rt: &R,
    alloc: Global,
    left: Image,
    right: Image,
    area: &Option<Area>,
    limits: &Interest,
) -> Result<Met, Stop>
    requires left_image { IsImageOfRows left.rows.items }
    requires right_image { IsImageOfRows right.rows.items }
    requires one_namespace { right.namespace ≡ left.namespace }
    ensures { MeetsImages left.namespace left.rows.items right.rows.items area.now limits.now result }
{
    let namespace = left.namespace;
    let (mut left_log, mut right_log, left_counts, right_counts) = log_both(
        rt, alloc, left, right,
    )?;
    hash_logs(rt, alloc, &left_log, &right_log);
    let exchanged = match exchange(alloc, &mut left_log, &mut right_log, area, limits) {
        Ok(exchanged) => exchanged,
        Err(end) => return Err(log_stop(end)),
    };
    Ok(Met {
        left: write_store_image(alloc, &namespace, left_log.store())?,
        right: write_store_image(alloc, &namespace, right_log.store())?,
        transcript: transcript_of(alloc, &exchanged.turns)?,
        counts: counts_of(&left_counts, &right_counts, &exchanged),
    })
}

// The numbers of a meeting.
fn counts_of(left: &JoinCounts, right: &JoinCounts, exchanged: &Exchanged) -> MeetCounts
    requires left_some { left.now.refused ≤ left.now.rows }
    requires right_some { right.now.refused ≤ right.now.rows }
    requires left_few { left.now.rows < 2 ^ 32 }
    requires right_few { IfSome right.now.first (λ first. first.row < 2 ^ 32) }
    ensures { result ≡ meet_counts left.now right.now exchanged.now }
{
    MeetCounts {
        left: side_counts(left, exchanged.left),
        right: side_counts(right, exchanged.right),
        items: exchanged.items,
        turns: exchanged.turns.len() as u64,
        first: first_of_both(left, right),
    }
}

// The numbers of a side.
fn side_counts(image: &JoinCounts, came: Came) -> SideCounts
    requires { image.now.refused ≤ image.now.rows }
    ensures { result ≡ side_counts image.now came }
{
    SideCounts {
        rows: image.rows - image.refused,
        stored: came.stored,
        kept: came.kept,
    }
}

// The first refused row of both images, counted over the left one and then the right one.
fn first_of_both(left: &JoinCounts, right: &JoinCounts) -> Option<RefusedRow>
    requires left_few { left.now.rows < 2 ^ 32 }
    requires right_few { IfSome right.now.first (λ first. first.row < 2 ^ 32) }
    ensures { result ≡ first_of_both left.now right.now }
{
    match (left.first, right.first) {
        (Some(first), _) => Some(first),
        (None, Some(RefusedRow { row, refusal })) => Some(RefusedRow {
            row: left.rows + row,
            refusal,
        }),
        (None, None) => None,
    }
}
