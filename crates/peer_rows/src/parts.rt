//! The logs of images whose rows are in order, taken a part at a time: no list of all rows stands in memory beside the log.

ghost use Rattle.std.specs.Prelude.{◌≡◌, ℕ, ◌+◌, ◌<◌, ◌≤◌, ◌^◌, ◌++◌, List, length, IfOk, IfSome, IsTrue, OnErr};
ghost use Rattle.willow_entry.specs.Frame.{FrameAsks};
ghost use Rattle.cap_codec.specs.Rows.{RawValue};
ghost use Rattle.peer_image.specs.ImageReading.{raw_rows};
ghost use Rattle.peer_image.specs.Order.{IsInnerRising};
ghost use Rattle.peer_rows.specs.Parts.{HasTakenPart, HasTakenRows, HaveFronts, IsLoggedImage, OpeningAsks, OpeningOneAsks};
ghost use Rattle.peer_rows.specs.Stored.{LacksMemory};

use crate::log::Log;
use crate::offering::offer_all;
use crate::parts_two::log_of_two;
use auth_entry::{Checker, NewChecker};
use cap_codec::RawRow;
use lms_core::PeerScheme;
use ns_state::LogFull;
use peer_image::{
    are_in_order, image_head, is_of_version_two, is_trailer, last_fronts, rows_in_front,
};
use spelling::{End, NoMemory};
use std::alloc::Global;
use std::thread::Threads;

/// How many bytes an image has behind its frames.
pub(crate) const TRAILER: usize = 8;

/// How many rows are taken together at most: so few that what is made of them stays in the caches of a processor.
pub(crate) const PART: usize = 1_024;

/// Behind so many rows one part more may have more rows than the end of an image can count.
pub(crate) const MOST: u64 = (1 << 32) - PART as u64;

/// Rows of an image, in order: the log of them, and those that stand at prefixes of the last. By these alone it shows whether
/// further rows are in order behind all of them.
#[derive(Drop)]
pub(crate) struct Taken {
    pub(crate) log: Log,
    pub(crate) fronts: Vec<RawRow>,
}

/// The log of the authorised rows of the image that the bytes are, with the numbers of all its rows, where these are in order
/// and the log has room. Else the answer is None, at the first part with a row that is not so: why, that is for `image_from`
/// and `log_image` to tell. A checker of the given kind judges the rows. Memory is asked for as `OpeningAsks` tells.
pub(crate) fn log_in_parts<C: NewChecker<PeerScheme>, R: Threads + Sync>(
    rt: &R,
    alloc: Global,
    bytes: &[u8],
) -> Result<Option<Log>, NoMemory>
    ensures logs { IfOk result (λ found. IfSome found (λ log. IsLoggedImage bytes.now log)) }
    ensures asked { OnErr result (OpeningAsks bytes.now) }
{
    if is_of_version_two(bytes) {
        log_of_two::<C, R>(rt, alloc, bytes)
    } else {
        log_of_one::<C, R>(rt, alloc, bytes)
    }
}

// The same of an image of version 1. Memory is asked for behind its header.
fn log_of_one<C: NewChecker<PeerScheme>, R: Threads + Sync>(
    rt: &R,
    alloc: Global,
    bytes: &[u8],
) -> Result<Option<Log>, NoMemory>
    ensures logs { IfOk result (λ found. IfSome found (λ log. IsLoggedImage bytes.now log)) }
    ensures asked { OnErr result (OpeningOneAsks bytes.now) }
{
    let Some(head) = image_head(bytes) else {
        return Ok(None);
    };
    let (namespace, behind) = head;
    let mut checker = C::begin(alloc, PeerScheme, namespace)?;
    let mut taken = Taken {
        log: Log::new(alloc, namespace),
        fronts: Vec::new(alloc),
    };
    let mut left = behind;
    'parts: while left.len() > TRAILER && taken.log.counts.rows < MOST {
        match take_part(rt, alloc, &mut checker, &mut taken, left)? {
            Some(rest) => left = rest,
            None => return Ok(None),
        }
    }
    if is_trailer(left, taken.log.counts.rows as usize) {
        Ok(Some(taken.log))
    } else {
        Ok(None)
    }
}

// Takes the rows of the first frames in front of the bytes, and answers the bytes behind them; None where there are none, or
// they are not in order, or one finds no room. Memory is asked for where the first frame asks.
fn take_part<'a, C: Checker<PeerScheme>, R: Threads + Sync>(
    rt: &R,
    alloc: Global,
    checker: &mut C,
    taken: &mut Taken,
    bytes: &'a [u8],
) -> Result<Option<&'a [u8]>, NoMemory>
    requires namespace { C.judged_in checker.old ≡ taken.old.log.kept.namespace }
    requires taken { (namespace : List ℕ) × (seen : List RawValue) × HasTakenRows namespace seen taken.old }
    requires few { taken.old.log.counts.rows < MOST }
    ensures judged_in { C.judged_in checker.new ≡ C.judged_in checker.old }
    ensures takes { (namespace : List ℕ) (seen : List RawValue) → HasTakenRows namespace seen taken.old
        → IfOk result (λ found. IfSome found (λ left. HasTakenPart namespace seen bytes.now left.now taken.new)) }
    ensures asked { OnErr result (FrameAsks bytes.now) }
{
    let (rows, left) = rows_in_front(alloc, bytes, PART)?;
    if take_rows(rt, alloc, checker, taken, rows)? {
        Ok(Some(left))
    } else {
        Ok(None)
    }
}

/// Takes further rows, and answers whether there are some, they are in order and each finds room. Memory is asked for where
/// there are some and they rise, and no full log is told as want of it.
pub(crate) fn take_rows<C: Checker<PeerScheme>, R: Threads + Sync>(
    rt: &R,
    alloc: Global,
    checker: &mut C,
    taken: &mut Taken,
    rows: Vec<RawRow>,
) -> Result<bool, NoMemory>
    requires namespace { C.judged_in checker.old ≡ taken.old.log.kept.namespace }
    requires taken { (namespace : List ℕ) × (seen : List RawValue) × HasTakenRows namespace seen taken.old }
    requires few { taken.old.log.counts.rows < MOST }
    requires part { length rows.items ≤ PART }
    ensures judged_in { C.judged_in checker.new ≡ C.judged_in checker.old }
    ensures some { IfOk result (λ takes. IsTrue takes → 0 < length rows.items) }
    ensures takes { (namespace : List ℕ) (seen : List RawValue) → HasTakenRows namespace seen taken.old
        → IfOk result (λ takes. IsTrue takes → HasTakenRows namespace (seen ++ rows.items) taken.new) }
    ensures asked { OnErr result (0 < length rows.items) }
    ensures rising { OnErr result (IsInnerRising (raw_rows taken.old.fronts.items ++ raw_rows rows.items)) }
    ensures room { (namespace : List ℕ) (seen : List RawValue) → HasTakenRows namespace seen taken.old
        → OnErr result (LacksMemory namespace (seen ++ rows.items) taken.old.log taken.new.log) }
{
    if rows.is_empty() || !go_on(alloc, &mut taken.fronts, &rows)? {
        return Ok(false);
    }
    match offer_all(rt, alloc, checker, &mut taken.log, rows) {
        Ok(()) => Ok(true),
        Err(End::Refused(LogFull { front: _ })) => Ok(false),
        Err(End::NoMemory) => Err(NoMemory),
    }
}

// Whether the rows are in order behind others, of which these are the fronts. Where they are, the fronts of all are kept.
// Memory is asked for where the rows rise.
fn go_on(alloc: Global, fronts: &mut Vec<RawRow>, rows: &[RawRow]) -> Result<bool, NoMemory>
    requires { (seen : List RawValue) × HaveFronts seen fronts.old.items × (length seen + length rows.now < 2 ^ 32) }
    ensures goes { (seen : List RawValue) → HaveFronts seen fronts.old.items → IfOk result (λ goes. IsTrue goes → HaveFronts (seen ++ rows.now) fronts.new.items) }
    ensures rising { OnErr result (IsInnerRising (raw_rows fronts.old.items ++ raw_rows rows.now)) }
{
    if !are_in_order(alloc, fronts, rows)? {
        return Ok(false);
    }
    *fronts = last_fronts(alloc, fronts, rows)?;
    Ok(true)
}
