//! The logs of images of version 2, taken a part at a time.

ghost use Rattle.std.specs.Prelude.{◌≡◌, ℕ, ◌<◌, ◌++◌, List, length, IfOk, IfSome, OnErr};
ghost use Rattle.willow_entry.specs.Frame.{FrameAsks};
ghost use Rattle.cap_codec.specs.Rows.{RawValue};
ghost use Rattle.peer_image.specs.ImageTwoReading.{AreToldInFront, IsImageHead, head_two_spelling};
ghost use Rattle.peer_rows.specs.Parts.{HasTakenPartTwo, HasTakenRows, IsLoggedImage, OpeningTwoAsks};

use crate::log::Log;
use crate::parts::{MOST, PART, TRAILER, Taken, take_rows};
use auth_entry::{Checker, NewChecker};
use lms_core::PeerScheme;
use peer_image::{
    ImageHead, KnownCapability, capabilities_in_front, image_two_head, is_end_two, no_marks,
    rows_among,
};
use spelling::NoMemory;
use std::alloc::Global;
use std::thread::Threads;

// As `log_in_parts`, of an image of version 2. Its capabilities stand in memory beside the log. Memory is asked for behind its
// head, where the first capability's frame is whole, or none is counted.
pub(crate) fn log_of_two<C: NewChecker<PeerScheme>, R: Threads + Sync>(
    rt: &R,
    alloc: Global,
    bytes: &[u8],
) -> Result<Option<Log>, NoMemory>
    ensures logs { IfOk result (λ found. IfSome found (λ log. IsLoggedImage bytes.now log)) }
    ensures asked { OnErr result (OpeningTwoAsks bytes.now) }
{
    let Some(front) = image_two_head(bytes) else {
        return Ok(None);
    };
    let (head, behind) = front;
    let (told, middle) = capabilities_in_front(alloc, behind, head.count)?;
    if told.len() < head.count as usize {
        return Ok(None);
    }
    log_behind_told::<C, R>(rt, alloc, bytes, behind, head, &told, middle)
}

// The log of the rows behind all capabilities.
fn log_behind_told<C: NewChecker<PeerScheme>, R: Threads + Sync>(
    rt: &R,
    alloc: Global,
    bytes: &[u8],
    behind: &[u8],
    head: ImageHead,
    told: &[KnownCapability],
    middle: &[u8],
) -> Result<Option<Log>, NoMemory>
    requires head { IsImageHead head }
    requires behind { bytes.now ≡ head_two_spelling head ++ behind.now }
    requires told { AreToldInFront behind.now head.count told.now middle.now }
    requires all { length told.now ≡ head.count }
    ensures { IfOk result (λ found. IfSome found (λ log. IsLoggedImage bytes.now log)) }
{
    let mut checker = C::begin(alloc, PeerScheme, head.namespace)?;
    let mut taken = Taken {
        log: Log::new(alloc, head.namespace),
        fronts: Vec::new(alloc),
    };
    let mut marks = no_marks(alloc, told)?;
    let mut left = middle;
    'parts: while left.len() > TRAILER && taken.log.counts.rows < MOST {
        match take_part_two(rt, alloc, &mut checker, &mut taken, told, &mut marks, left)? {
            Some(rest) => left = rest,
            None => return Ok(None),
        }
    }
    if is_end_two(left, taken.log.counts.rows as usize, &marks) {
        Ok(Some(taken.log))
    } else {
        Ok(None)
    }
}

// Takes the rows of the first frames in front of the bytes, marks the capabilities that they tell, and answers the bytes
// behind them; None where there are none, or they are not in order, or one finds no room. Memory is asked for where the
// first frame asks.
fn take_part_two<'a, C: Checker<PeerScheme>, R: Threads + Sync>(
    rt: &R,
    alloc: Global,
    checker: &mut C,
    taken: &mut Taken,
    told: &[KnownCapability],
    marks: &mut [bool],
    bytes: &'a [u8],
) -> Result<Option<&'a [u8]>, NoMemory>
    requires namespace { C.judged_in checker.old ≡ taken.old.log.kept.namespace }
    requires taken { (namespace : List ℕ) × (seen : List RawValue) × HasTakenRows namespace seen taken.old }
    requires few { taken.old.log.counts.rows < MOST }
    requires marks { length marks.old ≡ length told.now }
    ensures judged_in { C.judged_in checker.new ≡ C.judged_in checker.old }
    ensures takes { (namespace : List ℕ) (seen : List RawValue) → HasTakenRows namespace seen taken.old
        → IfOk result (λ found. IfSome found (λ left. HasTakenPartTwo told.now marks.old namespace seen bytes.now left.now marks.new taken.new)) }
    ensures asked { OnErr result (FrameAsks bytes.now) }
{
    let (rows, left) = rows_among(alloc, told, marks, bytes, PART)?;
    if take_rows(rt, alloc, checker, taken, rows)? {
        Ok(Some(left))
    } else {
        Ok(None)
    }
}
