//! `sync` and `serve`: sessions of an image over a link that is called for, or over links that are waited for.

ghost use Rattle.std.specs.Prelude.{◌≡◌, ◌<◌, ◌≤◌, ◌^◌, ◌+◌, ◌-◌, ℕ, List, All, None, length, min, false, IfOk, IfErr, IfSome, Ok, Err, map, vec_len};
ghost use Rattle.std.specs.String.{string_bytes};
ghost use Rattle.spelling.specs.Answers.{or_else};
ghost use Rattle.log_rule.specs.Views.{AreOf};
ghost use Rattle.lms_core.specs.Use.{peer_rules};
ghost use Rattle.ns_cell.specs.declared.limits.TheConstants.{PASS_LIMIT};
ghost use Rattle.sync_hello.specs.Checked.{hello_refusal};
ghost use Rattle.sync_core.specs.SyncRules.{IsVersion};
ghost use Rattle.sync_link.specs.Plans.{own_hello, planned};
ghost use Rattle.sub_hub.specs.Seen.{hub_seen};
ghost use Rattle.peer_make.specs.KeySigners.{left_of};
ghost use Rattle.peer_stage.specs.World.{World};
ghost use Rattle.peer_words.specs.Signers.{IsSigner};
ghost use Rattle.peer_words.specs.declared.limits.TheConstants.{MOST_LINKS};
ghost use Rattle.peer_run.specs.Hosting.{DoesHost, HostsFile, OpensHouse, PutsImage, Tells, own_role};
ghost use Rattle.peer_run.specs.LogFiles.{EndsKeeping, HasRoom, IsLowIf, KeepsRest, KeepsSeenIf, StopsFile, file_states};
ghost use Rattle.peer_run.specs.LogOpening.{IsFileOpened};
ghost use Rattle.peer_run.specs.Preparing.{nonce_of};
ghost use Rattle.peer_run.specs.Telling.{TellsHosted, first_of_links, told_behind, told_of};
ghost use Rattle.peer_run.specs.Visiting.{Attends};

use crate::calling::call;
use crate::closing::{counts_of, image_of, put_image, wants_memory};
use crate::hosting::{Attended, attend};
use crate::log_closing::close_file;
use crate::log_file::LogFile;
use crate::log_keeping::keep_rest;
use crate::opening::Opening;
use crate::preparing::{Prepared, copy_of, plan_of, prepare, stop_without_copy};
use crate::tails::{first_with_tails, tail_wants_memory, told_tails};
use auth_entry::AuthorisedEntry;
use lms_core::PeerScheme;
use mc_cap::RefusedRow;
use ns_state::NsState;
use peer_make::{KeySigner, draw_all, reserve_signers};
use peer_stage::{Done, Hosted, SessionCounts, Stop};
use peer_words::{AreaWords, SignerWord};
use spelling::NoMemory;
use std::alloc::Global;
use std::sync::Wait;
use std::thread::Threads;
use sub_hub::Hub;
use sync_link::{Interest, SessionEnd, SessionPlan, SessionReport};
use sync_msg::Role;
use willow_outside::{Bay, Disk, Door, Noise, Shelf};

/// What the words of a call or of a server name: whether links are waited for, or one is called for; the image, the
/// capability, the signer, the place, how many links are to come, the area, how much of it is offered, whether a feed follows each
/// session, and the log file of a server, where there is one.
#[derive(Drop)]
pub(crate) struct HostWords {
    pub(crate) awaited: bool,
    pub(crate) image: String,
    pub(crate) cap: String,
    pub(crate) key: SignerWord,
    pub(crate) place: String,
    pub(crate) links: u32,
    pub(crate) area: AreaWords,
    pub(crate) limits: Interest,
    pub(crate) follow: bool,
    pub(crate) log: Option<String>,
}

/// What a side brings: the log of its image, what it says of itself, and what signs its proofs, one for each link.
#[derive(Drop)]
pub(crate) struct House {
    opening: Opening,
    plan: SessionPlan<PeerScheme>,
    signers: Vec<KeySigner>,
}

/// Gets an image and a capability, runs a session over the link to a place, or over each that comes there on a thread of its
/// own, and puts the image of what is live behind all of them, whatever the sessions answered, but for want of memory. The
/// nonce of a session is the first 16 bytes of its draw. A server tells those who watch of the rows that come into its log, and
/// keeps them in its log file, where one is named: its rows stand behind the image's in the opening log, and its disk is given back
/// however the run ends. Where the words say so, a caller follows behind its session what came into the other's log since, and a
/// server feeds all who called.
pub(crate) fn host<R: Wait + Threads + Sync, H: Shelf, D: Door, N: Noise, B: Bay>(
    rt: &R,
    alloc: Global,
    words: HostWords,
    shelf: &mut H,
    door: &mut D,
    noise: &mut N,
    bay: &mut B,
    hub: &mut Hub,
) -> Result<Done, Stop>
    requires signer { IsSigner words.key }
    requires links { (1 ≤ words.links) × (words.links ≤ MOST_LINKS) }
    requires call { words.awaited ≡ false → (words.links ≡ 1) × (words.log ≡ None) }
    ensures { (others : World) → DoesHost words
        (record others { shelf = H.facts shelf.old; door = D.facts door.old; noise = N.facts noise.old; bay = B.facts bay.old; hub = hub_seen (λ w. told (w.vtable, w.value)) hub.old })
        (record others { shelf = H.facts shelf.new; door = D.facts door.new; noise = N.facts noise.new; bay = B.facts bay.new; hub = hub_seen (λ w. told (w.vtable, w.value)) hub.new }) result }
{
    let mut file = None;
    let end = host_links(rt, alloc, words, shelf, door, noise, bay, hub, &mut file);
    close_file(bay, file, end)
}

// The same, where the log file that is opened stays open behind it.
fn host_links<R: Wait + Threads + Sync, H: Shelf, D: Door, N: Noise, K: Disk, B: Bay<D = K>>(
    rt: &R,
    alloc: Global,
    words: HostWords,
    shelf: &mut H,
    door: &mut D,
    noise: &mut N,
    bay: &mut B,
    hub: &mut Hub,
    file: &mut Option<LogFile<K>>,
) -> Result<Done, Stop>
    requires signer { IsSigner words.key }
    requires links { (1 ≤ words.links) × (words.links ≤ MOST_LINKS) }
    requires call { words.awaited ≡ false → (words.links ≡ 1) × (words.log ≡ None) }
    requires none { file.old ≡ None }
    ensures { (others : World) → HostsFile words (file_states K.facts file.new)
        (record others { shelf = H.facts shelf.old; door = D.facts door.old; noise = N.facts noise.old; bay = B.facts bay.old; hub = hub_seen (λ w. told (w.vtable, w.value)) hub.old })
        (record others { shelf = H.facts shelf.new; door = D.facts door.new; noise = N.facts noise.new; bay = B.facts bay.new; hub = hub_seen (λ w. told (w.vtable, w.value)) hub.new }) result }
{
    let HostWords {
        awaited,
        image,
        cap,
        key,
        place,
        links,
        area,
        limits,
        follow,
        log,
    } = words;
    let (name, house) = open_named(
        rt, alloc, shelf, awaited, image, cap, key, links, &area, limits, log, bay, file,
    )?;
    let House {
        opening,
        plan,
        signers,
    } = house;
    let draws = draw_all(alloc, noise, links)?;
    let Opening { state, rows, first } = opening;
    let attended = run_sessions(
        rt,
        alloc,
        awaited,
        follow,
        state,
        plan,
        place.as_str(),
        signers,
        &draws,
        door,
        hub,
        file,
    )?;
    keep_and_close(alloc, shelf, &name, awaited, rows, first, &attended, file)
}

// The same as `open_house`, and the name of the image once more.
fn open_named<R: Threads + Sync, H: Shelf, K: Disk, B: Bay<D = K>>(
    rt: &R,
    alloc: Global,
    shelf: &mut H,
    awaited: bool,
    image: String,
    cap: String,
    key: SignerWord,
    links: u32,
    area: &AreaWords,
    limits: Interest,
    log: Option<String>,
    bay: &mut B,
    file: &mut Option<LogFile<K>>,
) -> Result<(String, House), Stop>
    requires signer { IsSigner key }
    requires links { 1 ≤ links }
    requires none { file.old ≡ None }
    ensures opened { IfSome (file_states K.facts file.new) (IsFileOpened log (B.facts bay.old) (B.facts bay.new)) }
    ensures name { IfOk result (λ x. string_bytes x.0 ≡ string_bytes image) }
    ensures opens { IfOk result (λ x. (others : World) → OpensHouse (own_role awaited) image cap key links area.now limits log (file_states K.facts file.new)
        (record others { shelf = H.facts shelf.old; bay = B.facts bay.old }) (record others { shelf = H.facts shelf.new; bay = B.facts bay.new }) (Ok x.1)) }
    ensures stops { IfErr result (λ e. (others : World) → OpensHouse (own_role awaited) image cap key links area.now limits log (file_states K.facts file.new)
        (record others { shelf = H.facts shelf.old; bay = B.facts bay.old }) (record others { shelf = H.facts shelf.new; bay = B.facts bay.new }) (Err e)) }
{
    let Ok(name) = copy_of(&image) else {
        return Err(stop_without_copy(alloc, shelf, image));
    };
    let house = open_house(
        rt, alloc, shelf, awaited, image, cap, key, links, area, limits, log, bay, file,
    )?;
    Ok((name, house))
}

// Gets the image, opens the log file where one is named, gets the capability, judges the own hello, and reserves what signs.
fn open_house<R: Threads + Sync, H: Shelf, K: Disk, B: Bay<D = K>>(
    rt: &R,
    alloc: Global,
    shelf: &mut H,
    awaited: bool,
    image: String,
    cap: String,
    key: SignerWord,
    links: u32,
    area: &AreaWords,
    limits: Interest,
    log: Option<String>,
    bay: &mut B,
    file: &mut Option<LogFile<K>>,
) -> Result<House, Stop>
    requires signer { IsSigner key }
    requires links { 1 ≤ links }
    requires none { file.old ≡ None }
    ensures opened { IfSome (file_states K.facts file.new) (IsFileOpened log (B.facts bay.old) (B.facts bay.new)) }
    ensures house { (others : World) → OpensHouse (own_role awaited) image cap key links area.now limits log (file_states K.facts file.new)
        (record others { shelf = H.facts shelf.old; bay = B.facts bay.old }) (record others { shelf = H.facts shelf.new; bay = B.facts bay.new }) result }
{
    let Prepared { opening, hello } = prepare(rt, alloc, shelf, image, cap, area, log, bay, file)?;
    let signers = reserve_signers(rt, alloc, shelf, key, links)?;
    Ok(House {
        opening,
        plan: plan_of(own_role(awaited), hello, limits),
        signers,
    })
}

// The role of a side: that of who calls for a link, or of who waits for links.
fn own_role(awaited: bool) -> Role
    ensures { result ≡ own_role awaited }
{
    if awaited {
        Role::Answerer
    } else {
        Role::Caller
    }
}

// Runs a session over the link to the place, or over each that comes there, where those who watch are told of what comes, and the
// log file, where there is one, keeps it.
fn run_sessions<R: Wait + Threads + Sync, D: Door, K: Disk>(
    rt: &R,
    alloc: Global,
    awaited: bool,
    follow: bool,
    state: NsState<AuthorisedEntry<PeerScheme>>,
    plan: SessionPlan<PeerScheme>,
    place: &str,
    signers: Vec<KeySigner>,
    draws: &[[u8; 32]],
    door: &mut D,
    hub: &mut Hub,
    file: &mut Option<LogFile<K>>,
) -> Result<Attended, Stop>
    requires opening { AreOf 0 state.log }
    requires hello { (draw : List ℕ) → hello_refusal peer_rules state.namespace (own_hello plan (nonce_of draw)) ≡ None }
    requires version { IsVersion plan.version }
    requires sign { All (λ signer. 1 ≤ left_of signer) signers.items }
    requires draws { length draws.now ≡ vec_len signers }
    requires few { vec_len signers < PASS_LIMIT }
    requires call { awaited ≡ false → (vec_len signers ≡ 1) × (file.old ≡ None) }
    requires file { IsLowIf (file_states K.facts file.old) }
    ensures attends { Attends (record { awaited = awaited; follows = follow; place = place.now }) plan.ask (λ draw. planned peer_rules state.namespace plan (nonce_of draw)) signers.items draws.now state
        (D.facts door.old) (D.facts door.new) (hub_seen (λ w. told (w.vtable, w.value)) hub.old) (hub_seen (λ w. told (w.vtable, w.value)) hub.new) result }
    ensures kept { IfOk result (λ x. KeepsSeenIf state.log x.state.log (file_states K.facts file.old) (file_states K.facts file.new)) }
    ensures stopped { IfErr result (λ e. StopsFile e (file_states K.facts file.old) (file_states K.facts file.new)) }
{
    if awaited {
        attend(
            rt, alloc, follow, state, plan, place, signers, draws, door, hub, file,
        )
    } else {
        call(rt, alloc, follow, state, plan, place, signers, draws, door)
    }
}

// Keeps in the log file, where there is one, what it does not hold yet, and only then puts the image: for want of memory there is
// none, so no image is put in front of a log file that wants some of its rows.
fn keep_and_close<H: Shelf, K: Disk>(
    alloc: Global,
    shelf: &mut H,
    name: &String,
    awaited: bool,
    rows: u64,
    first: Option<RefusedRow>,
    attended: &Attended,
    file: &mut Option<LogFile<K>>,
) -> Result<Done, Stop>
    requires room { IfSome (file_states K.facts file.old) (λ f. HasRoom (length attended.now.state.log - f.front) f × (f.front ≤ length attended.now.state.log)) }
    ensures told { (others : World) → Tells (PutsImage (string_bytes name.now)) (told_behind rows first attended.now) (TellsHosted awaited) (record others { shelf = H.facts shelf.old }) (record others { shelf = H.facts shelf.new }) result }
    ensures kept { IfOk result (λ d. KeepsRest attended.now.state.log (file_states K.facts file.old) (file_states K.facts file.new)) }
    ensures stops { IfErr result (λ e. EndsKeeping attended.now.state.log (file_states K.facts file.old) (file_states K.facts file.new)) }
{
    keep_rest(file, &attended.state)?;
    close_house(alloc, shelf, name, awaited, rows, first, attended)
}

// Puts the image of what is live behind all sessions, unless memory was wanting in one of them or in what followed it.
fn close_house<H: Shelf>(
    alloc: Global,
    shelf: &mut H,
    name: &String,
    awaited: bool,
    rows: u64,
    first: Option<RefusedRow>,
    attended: &Attended,
) -> Result<Done, Stop>
    ensures { (others : World) → Tells (PutsImage (string_bytes name.now)) (told_behind rows first attended.now) (TellsHosted awaited) (record others { shelf = H.facts shelf.old }) (record others { shelf = H.facts shelf.new }) result }
{
    if attended.ends.iter().any(wants_memory) {
        return Err(Stop::NoMemory);
    }
    if attended.tails.iter().any(tail_wants_memory) {
        return Err(Stop::NoMemory);
    }
    let first = first_with_tails(rows, first, &attended.ends, &attended.tails);
    let sessions = told_of_all(alloc, &attended.ends)?;
    let tails = told_tails(alloc, &attended.tails)?;
    let image = image_of(alloc, &attended.state)?;
    let put = put_image(shelf, name.as_str(), &image)?;
    Ok(Done::Hosted(Hosted {
        awaited,
        sessions,
        tails,
        all_came: attended.all_came,
        first,
        left: attended.left,
        kept: None,
        put,
    }))
}

// What is told of each session.
fn told_of_all(
    alloc: Global,
    ends: &[Result<SessionReport, SessionEnd>],
) -> Result<Vec<Result<SessionCounts, SessionEnd>>, NoMemory>
    ensures { IfOk result (λ told. told.items ≡ map told_of ends.now) }
{
    Ok(ends.iter().map(told_of).collect(alloc)?)
}

// The numbers of a session, or how else it ended.
fn told_of(end: &Result<SessionReport, SessionEnd>) -> Result<SessionCounts, SessionEnd>
    ensures { result ≡ told_of end.now }
{
    match end {
        Ok(report) => Ok(counts_of(report)),
        Err(end) => Err(*end),
    }
}

/// The first refused row, counted over the rows of the image and then those that came, link by link.
pub(crate) fn first_of_all(
    rows: u64,
    first: Option<RefusedRow>,
    ends: &[Result<SessionReport, SessionEnd>],
) -> Option<RefusedRow>
    ensures { result ≡ or_else first (first_of_links rows ends.now) }
{
    if first.is_some() {
        return first;
    }
    let mut before = rows;
    for end in ends {
        if let Ok(report) = end {
            if let Some(RefusedRow { row, refusal }) = report.first {
                return Some(RefusedRow {
                    row: before.saturating_add(row),
                    refusal,
                });
            }
            before = behind(before, report);
        }
    }
    None
}

/// So many rows and then those of a session, up to the last number of a u64.
pub(crate) fn behind(before: u64, report: &SessionReport) -> u64
    ensures { result ≡ min (before + (report.now.stored + (report.now.kept + report.now.refused))) (2 ^ 64 - 1) }
{
    before
        .saturating_add(u64::from(report.stored))
        .saturating_add(report.kept)
        .saturating_add(report.refused)
}
