//! What a side brings to a session.

ghost use Rattle.std.specs.Prelude.{◌≡◌, None, IsTrue, IfOk, IfSome};
ghost use Rattle.scheme_core.specs.Open.{open_rules};
ghost use Rattle.sync_hello.specs.Checked.{hello_refusal};
ghost use Rattle.sync_core.specs.SyncRules.{IsVersion};
ghost use Rattle.sync_link.specs.Plans.{own_hello};

use crate::rows::{Rows, ask, capability};
use mc_cap::Mode;
use scheme_core::OpenScheme;
use spelling::NoMemory;
use std::alloc::Global;
use sync_hello::{HIGHEST_VERSION, Hello, check_hello};
use sync_link::{Interest, SessionPlan};
use sync_msg::Role;
use willow_path::NamespaceKey;

// A side: the highest version that it speaks, and which rows it has.
#[derive(Clone, Copy)]
pub(crate) struct Side {
    pub(crate) version: u8,
    pub(crate) rows: Rows,
}

// The nonce of a side.
pub(crate) fn nonce(role: Role) -> [u8; 16] {
    match role {
        Role::Caller => [1; 16],
        Role::Answerer => [2; 16],
    }
}

// The plan of a side that speaks a version up to this one, and asks for the user's subspace.
fn made(alloc: Global, role: Role, version: u8) -> Option<SessionPlan<OpenScheme>>
    ensures { IfSome result (λ plan. IsVersion plan.version) }
{
    if version < 1 || version > HIGHEST_VERSION {
        return None;
    }
    let capability = capability(alloc, Mode::Read)?;
    Some(SessionPlan {
        scheme: OpenScheme,
        version,
        role,
        capability,
        ask: ask(alloc)?,
        interest: Interest {
            newest: None,
            bytes: None,
        },
    })
}

// That plan, where its hello passes.
pub(crate) fn plan(
    alloc: Global,
    namespace: &NamespaceKey,
    role: Role,
    version: u8,
    nonce: [u8; 16],
) -> Option<SessionPlan<OpenScheme>>
    ensures passes { IfSome result (λ plan. hello_refusal open_rules namespace.now (own_hello plan nonce) ≡ None) }
    ensures version { IfSome result (λ plan. IsVersion plan.version) }
{
    let plan = made(alloc, role, version)?;
    if is_good(namespace, &plan, nonce) {
        Some(plan)
    } else {
        None
    }
}

// Whether the hello of a side with this plan passes.
fn is_good(namespace: &NamespaceKey, plan: &SessionPlan<OpenScheme>, nonce: [u8; 16]) -> bool
    ensures { IsTrue result → hello_refusal open_rules namespace.now (own_hello plan.now nonce) ≡ None }
{
    match hello_of(plan, nonce) {
        Ok(hello) => passes(namespace, &hello),
        Err(_) => false,
    }
}

// The hello of a side with this plan.
fn hello_of(plan: &SessionPlan<OpenScheme>, nonce: [u8; 16]) -> Result<Hello, NoMemory>
    ensures { IfOk result (λ hello. hello ≡ own_hello plan.now nonce) }
{
    Ok(Hello {
        version: plan.version,
        nonce,
        ask: plan.ask.copy()?,
        capability: plan.capability.copy()?,
    })
}

// Whether the hello passes.
fn passes(namespace: &NamespaceKey, hello: &Hello) -> bool
    ensures { IsTrue result → hello_refusal open_rules namespace.now hello.now ≡ None }
{
    match check_hello(&OpenScheme, namespace, hello) {
        Ok(()) => true,
        Err(_) => false,
    }
}
