//! Feeds behind all sessions of a server, over links that are not given back yet.

ghost use Rattle.std.specs.Prelude.{◌≡◌, ◌≤◌, ◌<◌, ◌^◌, ◌+◌, [], All, IfOk, length, map, vec_capacity};
ghost use Rattle.ns_cell.specs.Passes.{IsLater, IsPassOf};
ghost use Rattle.peer_run.specs.Feeding.{FeedsAll, FeedsBehind, HasSeenOpening};
ghost use Rattle.peer_run.specs.MetPasses.{HasMetAll};

use crate::tails::Tail;
use auth_entry::AuthorisedEntry;
use lms_core::PeerScheme;
use ns_cell::{NsCell, Pass};
use std::alloc::Global;
use std::sync::Wait;
use sync_follow::feed;
use sync_link::{SessionEnd, SessionReport};
use willow_outside::Link;

/// Lets a pass meet all of these: it has then seen all that they have. No turn is taken.
pub(crate) fn meet_all(
    cell: &NsCell<AuthorisedEntry<PeerScheme>>,
    own: &mut Pass<AuthorisedEntry<PeerScheme>>,
    passes: &mut [Pass<AuthorisedEntry<PeerScheme>>],
)
    requires own { IsPassOf cell.now own.old }
    requires passes { All (IsPassOf cell.now) passes.old }
    ensures met { HasMetAll own.old own.new passes.old passes.new }
{
    for at in 0..passes.len() {
        cell.meet(own, &mut passes[at]);
    }
}

/// Feeds, in order, each link whose session was done and came to an area that both sides may read: the rows that came into the log
/// since that session began, but for its own. Where `feeds` is not set nothing is done. The sessions have the numbers from `from`
/// on. The list has room for all tails.
pub(crate) fn feed_links<W: Wait, L: Link>(
    rt: &W,
    alloc: Global,
    cell: &NsCell<AuthorisedEntry<PeerScheme>>,
    own: &mut Pass<AuthorisedEntry<PeerScheme>>,
    feeds: bool,
    from: u32,
    ends: &[Result<SessionReport, SessionEnd>],
    links: &mut [L],
    mut tails: Vec<Tail>,
) -> Vec<Tail>
    requires pass { IsPassOf cell.now own.old }
    requires opened { All (HasSeenOpening own.old) ends.now }
    requires many { length ends.now ≡ length links.old }
    requires numbers { from + length links.old < 2 ^ 32 }
    requires room { (tails.items ≡ []) × (length links.old ≤ vec_capacity tails) }
    ensures feeds { FeedsAll feeds from own.old own.new ends.now (map L.facts links.old) (map L.facts links.new) result.items }
{
    let _number = own.number();
    for at in 0..links.len() {
        let number = from + at as u32;
        let tail = feed_link(
            rt,
            alloc,
            cell,
            own,
            feeds,
            number,
            &ends[at],
            &mut links[at],
        );
        tails.push_reserved(tail);
    }
    tails
}

// Feeds the link behind the session of this number, where that came to an area.
fn feed_link<W: Wait, L: Link>(
    rt: &W,
    alloc: Global,
    cell: &NsCell<AuthorisedEntry<PeerScheme>>,
    own: &mut Pass<AuthorisedEntry<PeerScheme>>,
    feeds: bool,
    number: u32,
    end: &Result<SessionReport, SessionEnd>,
    link: &mut L,
) -> Tail
    requires pass { IsPassOf cell.now own.old }
    requires opened { HasSeenOpening own.old end.now }
    ensures later { IsLater own.old own.new }
    ensures own { own.new.own ≡ own.old.own }
    ensures feeds { FeedsBehind feeds own.new.seen number end.now (L.facts link.old) (L.facts link.new) result }
{
    if !feeds {
        return Tail::Nothing;
    }
    let Ok(report) = end else {
        return Tail::Nothing;
    };
    match &report.area {
        None => Tail::Nothing,
        Some(area) => Tail::Fed(feed(rt, alloc, cell, own, number, area, report.opened, link)),
    }
}
