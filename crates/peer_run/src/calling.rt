//! A session with the one at a place.

ghost use Rattle.std.specs.Prelude.{◌≡◌, ◌≤◌, ℕ, List, [], ◌∷◌, All, None, false, length, vec_len};
ghost use Rattle.log_rule.specs.Views.{AreOf};
ghost use Rattle.lms_core.specs.Use.{peer_rules};
ghost use Rattle.peer_make.specs.KeySigners.{gives_of, left_of};
ghost use Rattle.sync_hello.specs.Checked.{hello_refusal};
ghost use Rattle.sync_core.specs.SyncRules.{IsVersion};
ghost use Rattle.ns_cell.specs.Passes.{IsPassOf};
ghost use Rattle.sync_link.specs.Plans.{own_hello, planned};
ghost use Rattle.sync_link.specs.Run.{ActsInTime, Runs};
ghost use Rattle.sub_hub.specs.Hubs.{HubValue};
ghost use Rattle.peer_run.specs.Calling.{Connects};
ghost use Rattle.peer_run.specs.Preparing.{nonce_of};
ghost use Rattle.peer_run.specs.Visiting.{Attends};

use crate::following::{Talked, converse};
use crate::hosting::{Attended, ends_for, tails_for};
use crate::judging::RowChecker;
use crate::preparing::nonce_of;
use auth_entry::{AuthorisedEntry, NewChecker};
use lms_core::PeerScheme;
use ns_cell::{NsCell, Pass};
use ns_state::NsState;
use peer_make::KeySigner;
use peer_stage::Stop;
use std::alloc::Global;
use std::sync::Wait;
use std::thread::Threads;
use sync_link::{SessionEnd, SessionPlan, SessionReport, known_plan, run_session};
use willow_outside::{Door, Fault, Link};
use willow_path::NamespaceKey;

/// Connects to the place, runs one session over the link, follows the feed behind it where `follows` is set, and gives the link
/// back, however both ended. The rows that come are stored in the log. Those who watch are told nothing.
pub(crate) fn call<R: Wait + Threads + Sync, D: Door>(
    rt: &R,
    alloc: Global,
    follows: bool,
    state: NsState<AuthorisedEntry<PeerScheme>>,
    plan: SessionPlan<PeerScheme>,
    place: &str,
    signers: Vec<KeySigner>,
    draws: &[[u8; 32]],
    door: &mut D,
) -> Result<Attended, Stop>
    requires opening { AreOf 0 state.log }
    requires hello { (draw : List ℕ) → hello_refusal peer_rules state.namespace (own_hello plan (nonce_of draw)) ≡ None }
    requires version { IsVersion plan.version }
    requires sign { All (λ signer. 1 ≤ left_of signer) signers.items }
    requires draws { length draws.now ≡ vec_len signers }
    requires one { vec_len signers ≡ 1 }
    ensures { (hub : HubValue) → Attends (record { awaited = false; follows = follows; place = place.now }) plan.ask (λ draw. planned peer_rules state.namespace plan (nonce_of draw)) signers.items draws.now state
        (D.facts door.old) (D.facts door.new) hub hub result }
{
    let namespace = state.namespace();
    let (cell, mut passes) = NsCell::new(alloc, state, 1)?;
    let (signer, nonce) = only_of(signers, draws);
    let mut ends = ends_for(alloc, 1)?;
    let mut tails = tails_for(alloc, 1)?;
    let link = connect(door, place)?;
    let Talked { link, end, tail } = converse(
        rt,
        alloc,
        follows,
        namespace,
        &cell,
        &mut passes[0],
        &plan,
        signer,
        nonce,
        link,
    );
    door.give_back(link);
    ends.push_reserved(end);
    tails.push_reserved(tail);
    Ok(Attended {
        ends,
        tails,
        all_came: true,
        state: cell.close(rt, passes),
        left: 0,
    })
}

// The one signer, and the nonce of the one draw.
fn only_of(signers: Vec<KeySigner>, draws: &[[u8; 32]]) -> (KeySigner, [u8; 16])
    requires signers { vec_len signers ≡ 1 }
    requires draws { length draws.now ≡ 1 }
    ensures signer { signers.items ≡ result.0 ∷ [] }
    ensures nonce { (draw : List ℕ) × (draws.now ≡ draw ∷ []) × (result.1 ≡ nonce_of draw) }
{
    let mut signers = signers.into_iter();
    let Some(signer) = signers.next() else {
        unreachable!()
    };
    (signer, nonce_of(&draws[0]))
}

/// Runs one session over the link, in which the rows of a list that come with a piece are judged together. It does each thing in
/// its time; the signer is gone with it.
pub(crate) fn talk<R: Wait + Threads + Sync, L: Link>(
    rt: &R,
    alloc: Global,
    namespace: NamespaceKey,
    cell: &NsCell<AuthorisedEntry<PeerScheme>>,
    pass: &mut Pass<AuthorisedEntry<PeerScheme>>,
    plan: &SessionPlan<PeerScheme>,
    signer: KeySigner,
    nonce: [u8; 16],
    link: &mut L,
) -> Result<SessionReport, SessionEnd>
    requires pass { IsPassOf cell.now pass.old }
    requires namespace { namespace ≡ cell.now.namespace }
    requires hello { hello_refusal peer_rules cell.now.namespace (own_hello plan.now nonce) ≡ None }
    requires version { IsVersion plan.now.version }
    requires signs { 1 ≤ left_of signer }
    ensures runs { Runs (planned peer_rules cell.now.namespace plan.now nonce) (gives_of signer) pass.old pass.new (L.facts link.old) (L.facts link.new) 0 0 result }
    ensures in_time { ActsInTime (Unit {0}) (L.most link.old) (planned peer_rules cell.now.namespace plan.now nonce) (gives_of signer)
        pass.old pass.new (L.facts link.old) (L.facts link.new) 0 0 result }
    ensures pass { IsPassOf cell.now pass.new }
{
    known_plan(plan, nonce);
    let Ok(mut checker) = RowChecker::begin(alloc, PeerScheme, namespace) else {
        return Err(SessionEnd::NoMemory);
    };
    let mut signer = signer;
    run_session(
        rt,
        alloc,
        cell,
        pass,
        plan,
        &mut checker,
        &mut signer,
        nonce,
        link,
    )
}

// A link to the place.
fn connect<D: Door>(door: &mut D, place: &str) -> Result<D::L, Stop>
    ensures { Connects D.L.facts place.now (D.facts door.old) (D.facts door.new) result }
{
    match door.connect(place) {
        Ok(link) => Ok(link),
        Err(Fault::Failed) => Err(Stop::ReadFault),
        Err(Fault::NoMemory) => Err(Stop::NoMemory),
    }
}
