//! `watch`: the image of a name grows by the rows of the input, and those who watch are told of each that is new.

ghost use Rattle.std.specs.Prelude.{◌≡◌, ℕ, ◌+◌, ◌^◌, ◌<◌, ◌≤◌, ◌++◌, List, drop, length, false, IfOk, IfErr};
ghost use Rattle.std.specs.List.{AllByRecursion};
ghost use Rattle.std.specs.String.{string_bytes};
ghost use Rattle.willow_entry.specs.Frame.{HasFrame};
ghost use Rattle.cap_codec.specs.Rows.{RawValue};
ghost use Rattle.sub_hub.specs.Hubs.{IsPumped, count_left};
ghost use Rattle.sub_hub.specs.Seen.{hub_seen};
ghost use Rattle.peer_image.specs.Image.{image};
ghost use Rattle.peer_stage.specs.World.{World};
ghost use Rattle.peer_stage.specs.Faults.{CountsStep};
ghost use Rattle.peer_stage.specs.declared.outcome.Done.TheVariants as done;
ghost use Rattle.peer_stage.specs.declared.outcome.Origin.TheVariants as origin;
ghost use Rattle.peer_words.specs.Areas.{is_empty};
ghost use Rattle.peer_rows.specs.Logged.{AreCounts, kept_rows, live_rows};
ghost use Rattle.peer_rows.specs.Opened.{StopsOpening};
ghost use Rattle.peer_rows.specs.Parts.{IsLoggedImage};
ghost use Rattle.peer_rows.specs.Stored.{IsWholeLog};
ghost use Rattle.peer_rows.specs.Watch.{AreWatchCounts, Puts, Watches, hub_begun, watched_area};
ghost use Rattle.peer_rows.specs.Watching.{HearsInput, IsOpen, WatchesRows};

use crate::images::{EntryLog, log_bytes};
use crate::intake::Intake;
use crate::log::{Log, leave_to_exit};
use crate::reading::Reading;
use auth_entry::{Checker, NewChecker};
use lms_core::PeerScheme;
use peer_image::write_store_image;
use peer_stage::{Done, JoinCounts, Origin, Stop, WatchCounts, get_bytes, put_bytes};
use peer_words::AreaWords;
use spelling::NoMemory;
use std::alloc::Global;
use std::thread::Threads;
use sub_hub::Hub;
use willow_area::Area;
use willow_outside::{Shelf, Source};

/// Gets the image of a name and takes its authorised rows to a log; reads row frames from the input, and takes those that are
/// authorised in the image's namespace in behind them; and puts the image of what is live under the name. Those who watch hear
/// of each row of the area that comes into the log behind the image's: as a piece of the input is judged, and at the latest
/// before the image is put. Their hub's front is the length of the log then. A field of the area without a word is that of the
/// full area. A checker of the given kind judges the rows. Once the image is put the log is left to the end of the run.
pub fn watch<C: NewChecker<PeerScheme>, R: Threads + Sync, H: Shelf, I: Source>(
    rt: &R,
    alloc: Global,
    name: String,
    area: &AreaWords,
    shelf: &mut H,
    input: &mut I,
    hub: &mut Hub,
) -> Result<Done, Stop>
    requires { is_empty (watched_area area.now) ≡ false }
    ensures { (others : World) → Watches name area.now
        (record others { shelf = H.facts shelf.old; input = I.facts input.old; hub = hub_seen (λ w. told (w.vtable, w.value)) hub.old })
        (record others { shelf = H.facts shelf.new; input = I.facts input.new; hub = hub_seen (λ w. told (w.vtable, w.value)) hub.new }) result }
{
    let (name, bytes) = get_bytes(shelf, name)?;
    let area = whole_area(alloc, area)?;
    let (name, opening) = open_named::<C, R>(rt, alloc, name, bytes)?;
    let (log, counts) = watch_input::<C, R, I>(rt, alloc, opening, area, input, hub)?;
    let end = put_log(alloc, shelf, name.as_str(), &log.kept, counts);
    leave_to_exit(log);
    end
}

// The area of the words.
fn whole_area(alloc: Global, words: &AreaWords) -> Result<Area, NoMemory>
    requires { is_empty (watched_area words.now) ≡ false }
    ensures { IfOk result (λ area. area ≡ watched_area words.now) }
{
    match words.completed(Area::full(alloc))? {
        Some(area) => Ok(area),
        None => unreachable!(),
    }
}

// The log of the rows of the image under a name, which these bytes are to be, and the name.
fn open_named<C: NewChecker<PeerScheme>, R: Threads + Sync>(
    rt: &R,
    alloc: Global,
    name: String,
    bytes: Vec<u8>,
) -> Result<(String, Log), Stop>
    ensures named { IfOk result (λ x. string_bytes x.0 ≡ string_bytes name) }
    ensures opens { IfOk result (λ x. IsLoggedImage bytes.items x.1) }
    ensures stops { IfErr result (λ e. StopsOpening (origin.Name name) bytes.items e) }
{
    let same = copy_of(&name)?;
    let log = log_bytes::<C, R>(rt, alloc, &bytes, Origin::Name(name))?;
    Ok((same, log))
}

// The same name once more.
fn copy_of(name: &String) -> Result<String, NoMemory>
    ensures { IfOk result (λ copy. string_bytes copy ≡ string_bytes name.now) }
{
    Ok(name.clone()?)
}

// The log with the rows of the input behind those of an image, whose log this is, and the numbers. Those who watch are told of
// the new ones.
fn watch_input<C: NewChecker<PeerScheme>, R: Threads + Sync, I: Source>(
    rt: &R,
    alloc: Global,
    opening: Log,
    area: Area,
    input: &mut I,
    hub: &mut Hub,
) -> Result<(Log, WatchCounts), Stop>
    requires { (had : List RawValue) × IsWholeLog opening.kept.namespace had opening × (length had < 2 ^ 32) }
    ensures watches { (had : List RawValue) → IsWholeLog opening.kept.namespace had opening → length had < 2 ^ 32
        → WatchesRows opening.kept.namespace had (I.facts input.old) (I.facts input.new)
        (hub_begun (record { namespace = opening.kept.namespace; rows = had }) area (hub_seen (λ w. told (w.vtable, w.value)) hub.old))
        (hub_seen (λ w. told (w.vtable, w.value)) hub.new) result }
    ensures faults { CountsStep (I.facts input.old).faults (I.facts input.new).faults result }
    ensures ends { (I.facts input.old).ends ≤ (I.facts input.new).ends }
{
    hub.begin(opening.kept.front(), area);
    let before = opening.counts;
    let mut checker = C::begin(alloc, PeerScheme, opening.kept.namespace())?;
    let mut reading = Reading::begin(alloc)?;
    let mut intake = Intake::behind(alloc, opening);
    let left = hear_input(
        rt,
        alloc,
        &mut checker,
        &mut reading,
        &mut intake,
        input,
        hub,
    )?;
    let counts = counts_behind(&before, &intake.log.counts, left);
    Ok((intake.log, counts))
}

// Takes the input in up to its end, and tells those who watch of the rows that come into the log with each piece that is judged.
// Answers how many of them left.
fn hear_input<C: Checker<PeerScheme>, R: Threads + Sync, I: Source>(
    rt: &R,
    alloc: Global,
    checker: &mut C,
    reading: &mut Reading,
    intake: &mut Intake,
    input: &mut I,
    hub: &mut Hub,
) -> Result<u32, Stop>
    requires namespace { C.judged_in checker.old ≡ intake.old.log.kept.namespace }
    requires opened { (had : List RawValue) × IsOpen intake.old.log.kept.namespace had (I.facts input.old) reading.old intake.old }
    requires front { hub.old.front ≡ length intake.old.log.kept.log }
    ensures hears { (had : List RawValue) → IsOpen intake.old.log.kept.namespace had (I.facts input.old) reading.old intake.old
        → HearsInput intake.old.log.kept.namespace had (I.facts input.old) (I.facts input.new)
        (hub_seen (λ w. told (w.vtable, w.value)) hub.old) (hub_seen (λ w. told (w.vtable, w.value)) hub.new) intake.new.log result }
    ensures faults { CountsStep (I.facts input.old).faults (I.facts input.new).faults result }
    ensures ends { (I.facts input.old).ends ≤ (I.facts input.new).ends }
{
    let mut left = 0;
    'pieces: loop {
        let came = reading.next(rt, alloc, checker, intake, input)?;
        left += tell(hub, &intake.log.kept);
        if !came {
            return Ok(left);
        }
    }
}

// Tells those who watch of the rows of the log from the hub's front on. Answers how many of them leave.
fn tell(hub: &mut Hub, log: &EntryLog) -> u32
    requires { hub.old.front ≤ length log.now.log }
    ensures told { IsPumped (hub_seen (λ w. told (w.vtable, w.value)) hub.old) (hub_seen (λ w. told (w.vtable, w.value)) hub.new)
        (drop hub.old.front (kept_rows log.now)) result }
    // so what all that is told answers can be added up
    ensures few { count_left (hub_seen (λ w. told (w.vtable, w.value)) hub.new).members < 2 ^ 32 }
{
    // no more rows than the log's limit, and no more watchers than were added
    let _front = log.front();
    let left = hub.pump(log.rows_from(hub.front()));
    let _added = hub.added();
    left
}

// The numbers of the rows behind those that were counted before, and of those who watched and left.
fn counts_behind(before: &JoinCounts, counts: &JoinCounts, left: u32) -> WatchCounts
    requires { (namespace : List ℕ) × (had : List RawValue) × (rows : List RawValue) × AreCounts namespace had before.now × AreCounts namespace (had ++ rows) counts.now }
    ensures counted { (namespace : List ℕ) (had rows : List RawValue) → AreCounts namespace had before.now → AreCounts namespace (had ++ rows) counts.now
        → AreWatchCounts namespace had rows result }
    ensures left { result.left ≡ left }
{
    WatchCounts {
        rows: counts.rows - before.rows,
        stored: counts.stored - before.stored,
        kept: counts.kept - before.kept,
        refused: counts.refused - before.refused,
        first: counts.first,
        left,
    }
}

// Puts the image of what is live of the log under the name.
fn put_log<H: Shelf>(
    alloc: Global,
    shelf: &mut H,
    name: &str,
    log: &EntryLog,
    counts: WatchCounts,
) -> Result<Done, Stop>
    requires { AllByRecursion HasFrame (live_rows log.now) }
    ensures puts { Puts name.now (image log.now.namespace (live_rows log.now)) (done.Watched counts) (H.facts shelf.old) (H.facts shelf.new) result }
    ensures read_faults { (H.facts shelf.new).read_faults ≡ (H.facts shelf.old).read_faults }
    ensures write_faults { CountsStep (H.facts shelf.old).write_faults (H.facts shelf.new).write_faults result }
{
    let image = write_store_image(alloc, &log.namespace(), log.store())?;
    put_bytes(shelf, name, &image)?;
    Ok(Done::Watched(counts))
}
