//! What one visit of a server is: a session over its link.

use crate::calling::talk;
use auth_entry::AuthorisedEntry;
use link_host::Host;
use lms_core::PeerScheme;
use ns_cell::{NsCell, Pass};
use peer_make::KeySigner;
use std::alloc::Global;
use std::sync::Wait;
use std::thread::Threads;
use sync_link::{SessionEnd, SessionPlan, SessionReport};
use willow_outside::Link;
use willow_path::NamespaceKey;

/// What all sessions of a server share: the cell of its rows, and what it says of itself.
#[derive(Drop)]
pub(crate) struct Hall {
    pub(crate) namespace: NamespaceKey,
    pub(crate) cell: NsCell<AuthorisedEntry<PeerScheme>>,
    pub(crate) plan: SessionPlan<PeerScheme>,
}

/// What one session has of its own: its pass, its signer, and its nonce.
#[derive(Drop)]
pub(crate) struct Guest {
    pub(crate) pass: Pass<AuthorisedEntry<PeerScheme>>,
    pub(crate) signer: KeySigner,
    pub(crate) nonce: [u8; 16],
}

/// What a session hands on: its pass, and how it ended.
#[derive(Drop)]
pub(crate) struct Parting {
    pub(crate) pass: Pass<AuthorisedEntry<PeerScheme>>,
    pub(crate) end: Result<SessionReport, SessionEnd>,
}

impl<L: Link + Send> Host<L> for Hall {
    type Job = Guest;

    type Parting = Parting;

    ghost use Rattle.peer_run.specs.Hall.{DoesVisit, MayVisit};

    ghost may = { MayVisit };

    ghost does = { DoesVisit };

    fn visit<R: Wait + Threads + Sync>(
        &self,
        rt: &R,
        alloc: Global,
        job: Guest,
        link: &mut L,
    ) -> Parting {
        let Guest {
            mut pass,
            signer,
            nonce,
        } = job;
        let end = talk(
            rt,
            alloc,
            self.namespace,
            &self.cell,
            &mut pass,
            &self.plan,
            signer,
            nonce,
            link,
        );
        Parting { pass, end }
    }
}
