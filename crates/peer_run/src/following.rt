//! A session with the one at a place, and what follows it on the same link.

ghost use Rattle.std.specs.Prelude.{◌≡◌, ◌≤◌, None, true, false};
ghost use Rattle.lms_core.specs.Use.{peer_rules};
ghost use Rattle.peer_make.specs.KeySigners.{gives_of, left_of};
ghost use Rattle.sync_hello.specs.Checked.{hello_refusal};
ghost use Rattle.sync_core.specs.SyncRules.{IsVersion};
ghost use Rattle.ns_cell.specs.Passes.{IsPassOf};
ghost use Rattle.sync_follow.specs.Follows.{Follows};
ghost use Rattle.sync_link.specs.Plans.{own_hello, planned};
ghost use Rattle.peer_run.specs.Following.{FollowsBehind, TalksOverLink, area_to_follow};

use crate::calling::talk;
use crate::judging::RowChecker;
use crate::tails::Tail;
use auth_entry::{AuthorisedEntry, NewChecker};
use lms_core::PeerScheme;
use ns_cell::{NsCell, Pass};
use peer_make::KeySigner;
use std::alloc::Global;
use std::sync::Wait;
use std::thread::Threads;
use sync_follow::{FollowReport, follow};
use sync_link::{SessionEnd, SessionPlan, SessionReport};
use willow_area::Area;
use willow_outside::{ByteLink, Link};
use willow_path::NamespaceKey;

/// A link behind all that was done over it: how the session ended, and what followed it.
#[derive(Drop)]
pub(crate) struct Talked<L: Link> {
    pub(crate) link: L,
    pub(crate) end: Result<SessionReport, SessionEnd>,
    pub(crate) tail: Tail,
}

/// Runs one session over the link, and where `follows` is set, that was done and both sides may read an area, follows the feed of
/// that area which stands behind it. A session that is followed reads the link a byte at a time, so that nothing behind its end is
/// taken.
pub(crate) fn converse<R: Wait + Threads + Sync, L: Link>(
    rt: &R,
    alloc: Global,
    follows: bool,
    namespace: NamespaceKey,
    cell: &NsCell<AuthorisedEntry<PeerScheme>>,
    pass: &mut Pass<AuthorisedEntry<PeerScheme>>,
    plan: &SessionPlan<PeerScheme>,
    signer: KeySigner,
    nonce: [u8; 16],
    link: L,
) -> Talked<L>
    requires pass { IsPassOf cell.now pass.old }
    requires namespace { namespace ≡ cell.now.namespace }
    requires hello { hello_refusal peer_rules cell.now.namespace (own_hello plan.now nonce) ≡ None }
    requires version { IsVersion plan.now.version }
    requires signs { 1 ≤ left_of signer }
    ensures talks { TalksOverLink follows (planned peer_rules cell.now.namespace plan.now nonce) (gives_of signer) pass.old pass.new (L.facts link) (L.facts result.link) result.end result.tail }
    ensures pass { IsPassOf cell.now pass.new }
{
    if follows {
        talk_on(rt, alloc, namespace, cell, pass, plan, signer, nonce, link)
    } else {
        talk_alone(rt, alloc, namespace, cell, pass, plan, signer, nonce, link)
    }
}

// Runs one session over the link.
fn talk_alone<R: Wait + Threads + Sync, L: Link>(
    rt: &R,
    alloc: Global,
    namespace: NamespaceKey,
    cell: &NsCell<AuthorisedEntry<PeerScheme>>,
    pass: &mut Pass<AuthorisedEntry<PeerScheme>>,
    plan: &SessionPlan<PeerScheme>,
    signer: KeySigner,
    nonce: [u8; 16],
    link: L,
) -> Talked<L>
    requires pass { IsPassOf cell.now pass.old }
    requires namespace { namespace ≡ cell.now.namespace }
    requires hello { hello_refusal peer_rules cell.now.namespace (own_hello plan.now nonce) ≡ None }
    requires version { IsVersion plan.now.version }
    requires signs { 1 ≤ left_of signer }
    ensures talks { TalksOverLink false (planned peer_rules cell.now.namespace plan.now nonce) (gives_of signer) pass.old pass.new (L.facts link) (L.facts result.link) result.end result.tail }
    ensures pass { IsPassOf cell.now pass.new }
{
    let mut link = link;
    let end = talk(
        rt, alloc, namespace, cell, pass, plan, signer, nonce, &mut link,
    );
    Talked {
        link,
        end,
        tail: Tail::Nothing,
    }
}

// Runs one session over the link, a byte at a time, and follows the feed behind it.
fn talk_on<R: Wait + Threads + Sync, L: Link>(
    rt: &R,
    alloc: Global,
    namespace: NamespaceKey,
    cell: &NsCell<AuthorisedEntry<PeerScheme>>,
    pass: &mut Pass<AuthorisedEntry<PeerScheme>>,
    plan: &SessionPlan<PeerScheme>,
    signer: KeySigner,
    nonce: [u8; 16],
    link: L,
) -> Talked<L>
    requires pass { IsPassOf cell.now pass.old }
    requires namespace { namespace ≡ cell.now.namespace }
    requires hello { hello_refusal peer_rules cell.now.namespace (own_hello plan.now nonce) ≡ None }
    requires version { IsVersion plan.now.version }
    requires signs { 1 ≤ left_of signer }
    ensures talks { TalksOverLink true (planned peer_rules cell.now.namespace plan.now nonce) (gives_of signer) pass.old pass.new (L.facts link) (L.facts result.link) result.end result.tail }
    ensures pass { IsPassOf cell.now pass.new }
{
    let mut bytes = ByteLink::new(link);
    let end = talk(
        rt, alloc, namespace, cell, pass, plan, signer, nonce, &mut bytes,
    );
    let mut link = bytes.into_inner();
    let tail = follow_behind(rt, alloc, namespace, cell, pass, &end, &mut link);
    Talked { link, end, tail }
}

// Follows the feed of the area of a session that was done, where there is one.
fn follow_behind<R: Wait + Threads + Sync, L: Link>(
    rt: &R,
    alloc: Global,
    namespace: NamespaceKey,
    cell: &NsCell<AuthorisedEntry<PeerScheme>>,
    pass: &mut Pass<AuthorisedEntry<PeerScheme>>,
    end: &Result<SessionReport, SessionEnd>,
    link: &mut L,
) -> Tail
    requires pass { IsPassOf cell.now pass.old }
    requires namespace { namespace ≡ cell.now.namespace }
    ensures follows { FollowsBehind peer_rules cell.now.namespace (area_to_follow true end.now) pass.old pass.new (L.facts link.old) (L.facts link.new) result }
    ensures pass { IsPassOf cell.now pass.new }
{
    let Ok(report) = end else {
        return Tail::Nothing;
    };
    match &report.area {
        None => Tail::Nothing,
        Some(area) => { Tail::Followed(follow_area(rt, alloc, namespace, cell, pass, area, link)) }
    }
}

// Follows the feed of an area.
fn follow_area<R: Wait + Threads + Sync, L: Link>(
    rt: &R,
    alloc: Global,
    namespace: NamespaceKey,
    cell: &NsCell<AuthorisedEntry<PeerScheme>>,
    pass: &mut Pass<AuthorisedEntry<PeerScheme>>,
    area: &Area,
    link: &mut L,
) -> Result<FollowReport, SessionEnd>
    requires pass { IsPassOf cell.now pass.old }
    requires namespace { namespace ≡ cell.now.namespace }
    ensures follows { Follows peer_rules cell.now.namespace area.now (L.most link.old) pass.old pass.new (L.facts link.old) (L.facts link.new) result }
    ensures pass { IsPassOf cell.now pass.new }
{
    let _number = pass.number();
    let Ok(mut checker) = RowChecker::begin(alloc, PeerScheme, namespace) else {
        return Err(SessionEnd::NoMemory);
    };
    follow(rt, alloc, cell, pass, area, &mut checker, link)
}
