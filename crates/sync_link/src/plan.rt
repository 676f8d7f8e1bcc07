//! What a session is run with, and what it reports.

ghost use Rattle.std.specs.Prelude.{◌≡◌, IfOk};
ghost use Rattle.sync_link.specs.Plans.{own_hello};

use area_interest::Interest;
use mc_cap::{Capability, RefusedRow};
use spelling::NoMemory;
use sync_hello::Hello;
use sync_msg::Role;
use willow_area::Area;

/// What a side brings to a session.
#[derive(Drop)]
pub struct SessionPlan<S> {
    /// What signatures are verified by.
    pub scheme: S,
    /// The highest version that it speaks, 1 or 2.
    pub version: u8,
    /// Whether it calls or answers.
    pub role: Role,
    /// The capability that lets it read. Its receiver signs the proof.
    pub capability: Capability,
    /// The area that it wants to compare.
    pub ask: Area,
    /// How much of the area it offers. No message tells that.
    pub interest: Interest,
}

/// What came of a session that was done.
#[derive(PartialEq, Eq, Drop)]
pub struct SessionReport {
    /// How many rows the log had as the session began.
    pub opened: u32,
    /// How many rows of the log the pass has seen at the end.
    pub closed: u32,
    /// How many of the rows received are now in the log by this session.
    pub stored: u32,
    /// How many were authorised and covered by a row of the log.
    pub kept: u64,
    /// How many were not authorised.
    pub refused: u64,
    /// The first of these: its number among the rows received, from 1, and why.
    pub first: Option<RefusedRow>,
    /// How many counted items were sent: First, Agree, Split, Parts, Entries and Rest.
    pub sent: u32,
    /// How many were read.
    pub read: u32,
    /// The area that both sides may read, if there is one.
    pub area: Option<Area>,
}

// The hello of a side with this plan.
pub(crate) fn own_hello<S>(plan: &SessionPlan<S>, nonce: [u8; 16]) -> Result<Hello, NoMemory>
    ensures { IfOk result (λ hello. hello ≡ own_hello plan.now nonce) }
{
    Ok(Hello {
        version: plan.version,
        nonce,
        ask: plan.ask.copy()?,
        capability: plan.capability.copy()?,
    })
}
