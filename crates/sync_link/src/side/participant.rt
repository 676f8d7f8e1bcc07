//! What a side brings to its session.

use area_interest::Interest;
use block_store::Snapshot;
use mc_cap::Signature;
use scheme_core::Verify;
use std::alloc::Global;
use sync_hello::Hello;
use sync_msg::Role;
use willow_entry::Row;
use willow_path::NamespaceKey;

// What a side brings to its session: its scheme, the namespace, which side it is, its hello, how much it offers, its signature
// once it is made, and its rows.
#[derive(Drop)]
pub(crate) struct Participant<R: Row, S: Verify> {
    pub(crate) alloc: Global,
    pub(crate) scheme: S,
    pub(crate) namespace: NamespaceKey,
    pub(crate) role: Role,
    pub(crate) hello: Hello,
    pub(crate) interest: Interest,
    pub(crate) signature: Option<Signature>,
    pub(crate) snapshot: Snapshot<R>,
}
