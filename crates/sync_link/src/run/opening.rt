//! How a session begins.

ghost use Rattle.std.specs.Prelude.{◌≡◌, ◌<◌, ◌^◌, ℕ, List, map, IfOk, None};
ghost use Rattle.scheme_core.specs.Rules.{Rules};
ghost use Rattle.spelling.specs.Spelling.{AreSoManyBytes};
ghost use Rattle.auth_entry.specs.Authorised.{AuthorisedValue};
ghost use Rattle.auth_entry.specs.Rows.{entry_row};
ghost use Rattle.ns_cell.specs.Passes.{PassValue};
ghost use Rattle.sync_hello.specs.Checked.{hello_refusal};
ghost use Rattle.sync_hello.specs.HelloForm.{HasSpelling, IsHello};
ghost use Rattle.row_intake.specs.Links.{ReadsNothing};
ghost use Rattle.sync_link.specs.Progress.{first_bytes};
ghost use Rattle.sync_link.specs.Plans.{own_hello, planned};
ghost use Rattle.sync_link.specs.Settling.{IsOpening};
ghost use Rattle.sync_link.specs.Writing.{CountsWrite, WritesFront};
ghost use Rattle.sync_link.specs.UnderWay.{AreTold, Start, IsCounted, IsReady, Opens, brought};

use crate::plan::{SessionPlan, own_hello};
use crate::run::piece::Session;
use crate::run::writing::write_all;
use crate::side::own_side::OwnSide;
use auth_entry::AuthorisedEntry;
use block_store::Snapshot;
use row_intake::Tally;
use scheme_core::Scheme;
use session_end::SessionEnd;
use std::alloc::Global;
use sync_hello::Hello;
use sync_msg::Role;
use willow_outside::Link;
use willow_path::NamespaceKey;

// Begins a session over the rows of the snapshot, and writes what is due first.
pub(crate) fn open_session<S: Scheme, L: Link>(
    alloc: Global,
    namespace: NamespaceKey,
    plan: &SessionPlan<S>,
    nonce: [u8; 16],
    snapshot: Snapshot<AuthorisedEntry<S>>,
    link: &mut L,
) -> Result<Session<S>, SessionEnd>
    requires passes { hello_refusal S.rules namespace (own_hello plan.now nonce) ≡ None }
    requires rows { IsOpening namespace (map entry_row snapshot) }
    ensures counted { IfOk result (λ session. IsCounted session) }
    ensures most { L.most link.new ≡ L.most link.old }
    ensures opens { (start : Start) (pass : PassValue AuthorisedValue)
        → (brought start) ≡ planned S.rules namespace plan.now nonce → start.link ≡ L.facts link.old
        → IsReady start (map entry_row snapshot) pass → Opens start pass (L.facts link.new) result }
{
    let hello = match own_hello(plan, nonce) {
        Ok(hello) => hello,
        Err(_) => return Err(SessionEnd::NoMemory),
    };
    known_hello(&hello);
    match write_first(alloc, plan.role, &hello, link) {
        Ok(()) => Ok(Session {
            side: OwnSide::begin(
                alloc,
                plan.scheme,
                namespace,
                plan.role,
                hello,
                plan.interest,
                snapshot,
            ),
            due: 0,
            tally: Tally::new(),
            count: 0,
        }),
        Err(end) => Err(end),
    }
}

// Writes what a side says before it reads: the caller's hello.
fn write_first<L: Link>(
    alloc: Global,
    role: Role,
    hello: &Hello,
    link: &mut L,
) -> Result<(), SessionEnd>
    requires { HasSpelling hello.now }
    ensures held { WritesFront (L.facts link.old).held (L.facts link.new).held (first_bytes role hello.now) result }
    ensures counts { CountsWrite (L.facts link.old).write_faults (L.facts link.new).write_faults result }
    ensures rest { ReadsNothing (L.facts link.old) (L.facts link.new) }
    ensures most { L.most link.new ≡ L.most link.old }
{
    match role {
        Role::Answerer => Ok(()),
        Role::Caller => {
            let mut out = Vec::new(alloc);
            match hello.encode(&mut out) {
                Ok(()) => write_all(link, &out),
                Err(_) => Err(SessionEnd::NoMemory),
            }
        }
    }
}

// Does nothing: it is called for its clause, that the rows can be told to the other side.
pub(crate) fn known_rows<S: Scheme>(rows: &Snapshot<AuthorisedEntry<S>>)
    ensures { AreTold (map entry_row rows.now) }
{
    for at in 0..rows.len() {
        match rows.get(at) {
            None => unreachable!(),
            Some(row) => {
                let _row = row.row();
            }
        }
    }
}

// Does nothing: it is called for its clause, that a hello which passes has a spelling.
fn known_hello(hello: &Hello)
    ensures { (rules : Rules) (namespace : List ℕ) → hello_refusal rules namespace hello.now ≡ None → HasSpelling hello.now }
{
    hello.capability.known();
}

/// Does nothing: it is called for its clause, that the hello of a plan is in the grammar where it passes.
pub fn known_plan<S: Scheme>(plan: &SessionPlan<S>, nonce: [u8; 16])
    ensures { (rules : Rules) (namespace : List ℕ) → hello_refusal rules namespace (own_hello plan.now nonce) ≡ None → IsHello (own_hello plan.now nonce) }
{
    known_version(plan.version);
    known_nonce(&nonce);
    plan.ask.known();
    plan.capability.known();
}

// Does nothing: it is called for its clause, that a version is one byte.
fn known_version(version: u8)
    ensures { version < 2 ^ 8 }
{
    let _ = version;
}

// Does nothing: it is called for its clause, that a nonce has 16 bytes.
fn known_nonce(nonce: &[u8; 16])
    ensures { AreSoManyBytes 16 nonce.now }
{
    let _bytes = nonce.as_slice();
}
