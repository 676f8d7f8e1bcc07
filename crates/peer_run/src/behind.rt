//! What is done behind all visits of a server, before it is left: the links are fed, and given back.

ghost use Rattle.std.specs.Prelude.{◌≡◌, ◌≤◌, ◌<◌, ◌+◌, ◌∷◌, ◌++◌, [], All, length, map, vec_len, vec_capacity};
ghost use Rattle.ns_cell.specs.declared.limits.TheConstants.{PASS_LIMIT};
ghost use Rattle.ns_cell.specs.Passes.{IsPassOf};
ghost use Rattle.peer_run.specs.Behind.{AreBehind, AreEmpty, HasSeenOwn};

use crate::accepting::Received;
use crate::feeding::{feed_links, meet_all};
use crate::hall::{Guest, Parting};
use crate::tails::Tail;
use auth_entry::AuthorisedEntry;
use link_host::give_back_all;
use lms_core::PeerScheme;
use ns_cell::{NsCell, Pass};
use std::alloc::Global;
use std::sync::Wait;
use sync_link::{SessionEnd, SessionReport};
use willow_outside::{Door, Fault, Link};

/// The lists that are filled behind all visits: with all passes, those but the own one, how the sessions ended, and what followed
/// each.
#[derive(Drop)]
pub(crate) struct Lists {
    pub(crate) passes: Vec<Pass<AuthorisedEntry<PeerScheme>>>,
    pub(crate) others: Vec<Pass<AuthorisedEntry<PeerScheme>>>,
    pub(crate) ends: Vec<Result<SessionReport, SessionEnd>>,
    pub(crate) tails: Vec<Tail>,
}

/// What is left behind all visits: all passes, the own one first, how the sessions ended and what followed each, in the order in
/// which the links came, why no further link was accepted, and how many of those who watch left.
#[derive(Drop)]
pub(crate) struct Behind {
    pub(crate) passes: Vec<Pass<AuthorisedEntry<PeerScheme>>>,
    pub(crate) ends: Vec<Result<SessionReport, SessionEnd>>,
    pub(crate) tails: Vec<Tail>,
    pub(crate) stopped: Option<Fault>,
    pub(crate) left: u32,
}

/// Feeds the link of each session that was done, in order, where `feeds` is set; and gives all links back. The own pass has then
/// seen all that the sessions stored.
pub(crate) fn end_visits<W: Wait, L: Link + Send, D: Door<L = L>>(
    rt: &W,
    alloc: Global,
    feeds: bool,
    cell: &NsCell<AuthorisedEntry<PeerScheme>>,
    received: Received<L>,
    lists: Lists,
    door: &mut D,
) -> Behind
    requires own { IsPassOf cell.now received.own }
    requires partings { All (λ parting. IsPassOf cell.now parting.pass) received.partings.items }
    requires unused { All (λ guest. IsPassOf cell.now guest.pass) received.unused.items }
    requires opened { All HasSeenOwn received.partings.items }
    requires many { vec_len received.links ≡ vec_len received.partings }
    requires few { vec_len received.partings + vec_len received.unused < PASS_LIMIT }
    requires out { vec_len received.links ≤ (D.facts door.old).out }
    requires lists { AreEmpty (vec_len received.partings + vec_len received.unused) lists }
    ensures behind { AreBehind feeds received.own received.partings.items received.unused.items (map L.facts received.links.items) (D.facts door.old) (D.facts door.new) result }
    ensures stopped { result.stopped ≡ received.stopped }
    ensures left { result.left ≡ received.left }
{
    let Received {
        partings,
        links,
        unused,
        stopped,
        own,
        left,
    } = received;
    let Lists {
        passes,
        others,
        ends,
        tails,
    } = lists;
    let mut own = own;
    let mut links = links;
    let (mut others, ends) = part(partings, unused, others, ends);
    meet_all(cell, &mut own, &mut others);
    let tails = feed_links(
        rt, alloc, cell, &mut own, feeds, 1, &ends, &mut links, tails,
    );
    give_back_all(door, links);
    Behind {
        passes: gather(own, others, passes),
        ends,
        tails,
        stopped,
        left,
    }
}

// The passes that the visits handed on and those of the guests that had none, and how the sessions ended, in lists that have room
// for them.
fn part(
    partings: Vec<Parting>,
    unused: Vec<Guest>,
    mut others: Vec<Pass<AuthorisedEntry<PeerScheme>>>,
    mut ends: Vec<Result<SessionReport, SessionEnd>>,
) -> (
    Vec<Pass<AuthorisedEntry<PeerScheme>>>,
    Vec<Result<SessionReport, SessionEnd>>,
)
    requires others { (others.items ≡ []) × (vec_len partings + vec_len unused ≤ vec_capacity others) }
    requires ends { (ends.items ≡ []) × (vec_len partings ≤ vec_capacity ends) }
    ensures others { result.0.items ≡ map (λ parting. parting.pass) partings.items ++ map (λ guest. guest.pass) unused.items }
    ensures ends { result.1.items ≡ map (λ parting. parting.end) partings.items }
{
    for parting in partings {
        let Parting { pass, end } = parting;
        others.push_reserved(pass);
        ends.push_reserved(end);
    }
    for guest in unused {
        let Guest { pass, .. } = guest;
        others.push_reserved(pass);
    }
    (others, ends)
}

// All passes, the own one first, in a list that has room for them.
fn gather(
    own: Pass<AuthorisedEntry<PeerScheme>>,
    others: Vec<Pass<AuthorisedEntry<PeerScheme>>>,
    mut passes: Vec<Pass<AuthorisedEntry<PeerScheme>>>,
) -> Vec<Pass<AuthorisedEntry<PeerScheme>>>
    requires { (passes.items ≡ []) × (vec_len others < vec_capacity passes) }
    ensures { result.items ≡ own ∷ others.items }
{
    passes.push_reserved(own);
    for pass in others {
        passes.push_reserved(pass);
    }
    passes
}
