//! Sessions with those who come to a place.

ghost use Rattle.std.specs.Prelude.{◌≡◌, ◌≤◌, ◌<◌, ◌+◌, true, List, ℕ, ◌∷◌, ◌++◌, None, Some, All, Contains, IfOk, IfErr, OnErr, [], length, map, drop, vec_len, vec_capacity};
ghost use Rattle.std.specs.Option.{option_map};
ghost use Rattle.log_rule.specs.Views.{AreOf};
ghost use Rattle.lms_core.specs.Use.{peer_rules};
ghost use Rattle.ns_cell.specs.declared.limits.TheConstants.{PASS_LIMIT};
ghost use Rattle.peer_make.specs.KeySigners.{left_of};
ghost use Rattle.sync_hello.specs.Checked.{hello_refusal};
ghost use Rattle.sync_core.specs.SyncRules.{IsVersion};
ghost use Rattle.sync_link.specs.Plans.{own_hello, planned};
ghost use Rattle.auth_entry.specs.Authorised.{AuthorisedValue};
ghost use Rattle.ns_cell.specs.Passes.{IsPassOf, PassValue};
ghost use Rattle.sync_link.specs.Kept.{log_rows};
ghost use Rattle.sub_hub.specs.Hubs.{IsPumped, count_left};
ghost use Rattle.sub_hub.specs.Seen.{hub_seen};
ghost use Rattle.willow_outside.specs.declared.fault.Fault.TheVariants as fault;
ghost use Rattle.peer_run.specs.Hall.{IsAccepted, IsRoom, Leaves, Listens};
ghost use Rattle.peer_run.specs.Behind.{AreEmpty};
ghost use Rattle.peer_run.specs.Hearing.{rows_behind};
ghost use Rattle.peer_run.specs.LogFiles.{IsLowIf, KeepsSeenIf, StopsFile, begun_at, file_states};
ghost use Rattle.peer_run.specs.Visiting.{Attends};
ghost use Rattle.peer_run.specs.Preparing.{nonce_of};

use crate::accepting::receive;
use crate::behind::{Behind, Lists, end_visits};
use crate::hall::{Guest, Hall};
use crate::hearing::tell_rest;
use crate::log_file::LogFile;
use crate::preparing::nonce_of;
use crate::tails::Tail;
use auth_entry::AuthorisedEntry;
use link_host::Workers;
use lms_core::PeerScheme;
use ns_cell::{NsCell, Pass};
use ns_state::NsState;
use peer_make::KeySigner;
use peer_stage::Stop;
use spelling::NoMemory;
use std::alloc::Global;
use std::sync::Wait;
use std::thread::Threads;
use sub_hub::Hub;
use sync_link::{SessionEnd, SessionPlan, SessionReport};
use willow_outside::{Disk, Door, Fault};

/// What stands ready before the first link: what all sessions share, the pass that stays behind, a guest for each session, and
/// the lists that are filled behind all visits. So nothing that came is lost for want of their memory.
#[derive(Drop)]
struct Room {
    hall: Hall,
    own: Pass<AuthorisedEntry<PeerScheme>>,
    guests: Vec<Guest>,
    lists: Lists,
}

/// How the sessions ended and what followed each, in the order in which the links came; whether as many came as were asked for;
/// the log behind all sessions; and how many of those who watch left.
#[derive(Drop)]
pub(crate) struct Attended {
    pub(crate) ends: Vec<Result<SessionReport, SessionEnd>>,
    pub(crate) tails: Vec<Tail>,
    pub(crate) all_came: bool,
    pub(crate) state: NsState<AuthorisedEntry<PeerScheme>>,
    pub(crate) left: u32,
}

/// Listens at the place, and runs a session over each link that comes, on a thread of its own where one starts: up to as many
/// as there are signers, each with a draw. All are joined; then, where `feeds` is set, each link whose session was done is fed the
/// rows that came into the log since that began; then the links are given back, in the order in which they came.
/// The rows that come are stored in the one log. Behind each link that is accepted those that have come are kept in the log file,
/// where there is one, and those who watch the area that is asked for are told of them, these once more behind all sessions.
pub(crate) fn attend<R: Wait + Threads + Sync, D: Door, K: Disk>(
    rt: &R,
    alloc: Global,
    feeds: bool,
    state: NsState<AuthorisedEntry<PeerScheme>>,
    plan: SessionPlan<PeerScheme>,
    place: &str,
    signers: Vec<KeySigner>,
    draws: &[[u8; 32]],
    door: &mut D,
    hub: &mut Hub,
    file: &mut Option<LogFile<K>>,
) -> Result<Attended, Stop>
    requires opening { AreOf 0 state.log }
    requires hello { (draw : List ℕ) → hello_refusal peer_rules state.namespace (own_hello plan (nonce_of draw)) ≡ None }
    requires version { IsVersion plan.version }
    requires sign { All (λ signer. 1 ≤ left_of signer) signers.items }
    requires draws { length draws.now ≡ vec_len signers }
    requires few { vec_len signers < PASS_LIMIT }
    requires file { IsLowIf (file_states K.facts file.old) }
    ensures attends { Attends (record { awaited = true; follows = feeds; place = place.now }) plan.ask (λ draw. planned peer_rules state.namespace plan (nonce_of draw)) signers.items draws.now state
        (D.facts door.old) (D.facts door.new) (hub_seen (λ w. told (w.vtable, w.value)) hub.old) (hub_seen (λ w. told (w.vtable, w.value)) hub.new) result }
    ensures kept { IfOk result (λ x. KeepsSeenIf state.log x.state.log (file_states K.facts file.old) (file_states K.facts file.new)) }
    ensures stopped { IfErr result (λ e. StopsFile e (file_states K.facts file.old) (file_states K.facts file.new)) }
{
    let front = state.front();
    let area = plan.ask.copy()?;
    let room = room_for(alloc, state, plan, signers, draws)?;
    let workers = Workers::with_room(alloc, &room.hall, room.guests.len())?;
    listen(door, place)?;
    hub.begin(front, area);
    keep_from(file, front);
    let Room {
        hall,
        own,
        guests,
        lists,
    } = room;
    let received = receive(rt, alloc, &hall, guests, door, hub, file, workers, own);
    let behind = end_visits(rt, alloc, feeds, &hall.cell, received, lists, door);
    leave(rt, hall, behind, hub)
}

// The file, where there is one, is kept on from this row of the log.
fn keep_from<K: Disk>(file: &mut Option<LogFile<K>>, front: u32)
    ensures { file_states K.facts file.new ≡ option_map (begun_at front) (file_states K.facts file.old) }
{
    if let Some(file) = file {
        file.front = front;
    }
}

// The room of a plan, with a guest for each signer.
fn room_for(
    alloc: Global,
    state: NsState<AuthorisedEntry<PeerScheme>>,
    plan: SessionPlan<PeerScheme>,
    signers: Vec<KeySigner>,
    draws: &[[u8; 32]],
) -> Result<Room, NoMemory>
    requires opening { AreOf 0 state.log }
    requires draws { length draws.now ≡ vec_len signers }
    requires few { vec_len signers < PASS_LIMIT }
    ensures room { IfOk result (IsRoom state plan signers.items draws.now) }
    ensures lists { IfOk result (λ room. AreEmpty (vec_len room.guests) room.lists) }
{
    let namespace = state.namespace();
    let (cell, passes) = NsCell::new(alloc, state, 1 + signers.len() as u32)?;
    let (own, guests) = guests_of(alloc, passes, signers, draws)?;
    let lists = lists_for(alloc, guests.len())?;
    Ok(Room {
        hall: Hall {
            namespace,
            cell,
            plan,
        },
        own,
        guests,
        lists,
    })
}

// The lists that are filled behind all visits, for so many guests.
fn lists_for(alloc: Global, guests: usize) -> Result<Lists, NoMemory>
    requires { guests < PASS_LIMIT }
    ensures { IfOk result (AreEmpty guests) }
{
    let passes = Vec::with_capacity(alloc, 1 + guests)?;
    let others = Vec::with_capacity(alloc, guests)?;
    let ends = ends_for(alloc, guests)?;
    let tails = tails_for(alloc, guests)?;
    Ok(Lists {
        passes,
        others,
        ends,
        tails,
    })
}

/// The list that is filled with the ends of so many sessions.
pub(crate) fn ends_for(
    alloc: Global,
    sessions: usize,
) -> Result<Vec<Result<SessionReport, SessionEnd>>, NoMemory>
    requires { sessions < PASS_LIMIT }
    ensures { IfOk result (λ ends. (ends.items ≡ []) × (sessions ≤ vec_capacity ends)) }
{
    Ok(Vec::with_capacity(alloc, sessions)?)
}

/// The list that is filled with what followed so many sessions.
pub(crate) fn tails_for(alloc: Global, sessions: usize) -> Result<Vec<Tail>, NoMemory>
    requires { sessions < PASS_LIMIT }
    ensures { IfOk result (λ tails. (tails.items ≡ []) × (sessions ≤ vec_capacity tails)) }
{
    Ok(Vec::with_capacity(alloc, sessions)?)
}

// The first pass, and a guest for each of the others, with a signer and the nonce of a draw.
fn guests_of(
    alloc: Global,
    passes: Vec<Pass<AuthorisedEntry<PeerScheme>>>,
    signers: Vec<KeySigner>,
    draws: &[[u8; 32]],
) -> Result<(Pass<AuthorisedEntry<PeerScheme>>, Vec<Guest>), NoMemory>
    requires passes { vec_len passes ≡ 1 + vec_len signers }
    requires draws { length draws.now ≡ vec_len signers }
    requires few { vec_len signers < PASS_LIMIT }
    ensures passes { IfOk result (λ r. r.0 ∷ map (λ guest. guest.pass) r.1.items ≡ passes.items) }
    ensures signers { IfOk result (λ r. map (λ guest. guest.signer) r.1.items ≡ signers.items) }
    ensures nonces { IfOk result (λ r. map (λ guest. guest.nonce) r.1.items ≡ map nonce_of draws.now) }
{
    let mut passes = passes.into_iter();
    let Some(own) = passes.next() else {
        unreachable!()
    };
    let mut guests = Vec::with_capacity(alloc, signers.len())?;
    for signer in signers {
        let Some(pass) = passes.next() else {
            unreachable!()
        };
        let nonce = nonce_of(&draws[guests.len()]);
        guests.push(Guest {
            pass,
            signer,
            nonce,
        })?;
    }
    Ok((own, guests))
}

// Listens at the place.
fn listen<D: Door>(door: &mut D, place: &str) -> Result<(), Stop>
    ensures { Listens place.now (D.facts door.old) (D.facts door.new) result }
{
    match door.listen(place) {
        Ok(()) => Ok(()),
        Err(Fault::Failed) => Err(Stop::ReadFault),
        Err(Fault::NoMemory) => Err(Stop::NoMemory),
    }
}

// Closes the cell with all passes, tells those who watch of what they have not heard of its log, and tells how the sessions
// ended and what followed them.
fn leave<R: Wait>(rt: &R, hall: Hall, behind: Behind, hub: &mut Hub) -> Result<Attended, Stop>
    requires passes { All (IsPassOf hall.cell) behind.passes.items }
    requires all { vec_len behind.passes ≡ hall.cell.passes }
    requires front { (behind.stopped ≡ Some fault.NoMemory → ⊥) → (pass : PassValue AuthorisedValue) × Contains behind.passes.items pass × (hub.old.front ≤ length pass.seen) }
    requires few { behind.left ≤ count_left (hub_seen (λ w. told (w.vtable, w.value)) hub.old).members }
    ensures leaves { Leaves hall behind result }
    ensures told { IfOk result (λ x. (more : ℕ) × (x.left ≡ behind.left + more) × IsPumped (hub_seen (λ w. told (w.vtable, w.value)) hub.old)
        (hub_seen (λ w. told (w.vtable, w.value)) hub.new) (log_rows (drop hub.old.front x.state.log)) more) }
    ensures untold { IfErr result (λ e. hub_seen (λ w. told (w.vtable, w.value)) hub.new ≡ hub_seen (λ w. told (w.vtable, w.value)) hub.old) }
{
    let Behind {
        passes,
        ends,
        tails,
        stopped,
        left,
    } = behind;
    let all_came = all_came(stopped)?;
    let Hall { cell, .. } = hall;
    let state = cell.close(rt, passes);
    let more = tell_rest(hub, &state);
    let left = left + more;
    Ok(Attended {
        ends,
        tails,
        all_came,
        state,
        left,
    })
}

// Whether each guest had its link.
fn all_came(stopped: Option<Fault>) -> Result<bool, NoMemory>
    ensures accepted { IfOk result (IsAccepted stopped) }
    ensures memory { OnErr result (stopped ≡ Some fault.NoMemory) }
{
    match stopped {
        None => Ok(true),
        Some(Fault::Failed) => Ok(false),
        Some(Fault::NoMemory) => Err(NoMemory),
    }
}
