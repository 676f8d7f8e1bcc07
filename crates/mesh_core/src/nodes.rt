//! The nodes of a mesh, each with its store.

ghost use Rattle.std.specs.Prelude.{◌≡◌, ◌↔◌, ℕ, ◌<◌, length, map, false, IfSome, IfNone, IfOk, OnOk, IsTrue};
ghost use Rattle.std.specs.Cmp.Lexicographic.{pointwise};
ghost use Rattle.willow_entry.specs.Row.{same_row};
ghost use Rattle.cap_codec.specs.Rows.{row_of};
ghost use Rattle.peer_listing.specs.Generator.{generated};
ghost use Rattle.peer_listing.specs.declared.generator.TheConstants.{GENERATED_ROWS};
ghost use Rattle.sync_core.specs.SyncRules.{IsVersion};
ghost use Rattle.mesh_rules.specs.Events.{Offer, after_event, empty_nodes};
ghost use Rattle.mesh_core.specs.Given.{event_of, IsAmong};
ghost use Rattle.mesh_core.specs.Exchanging.{exchanging};
ghost use Rattle.mesh_core.specs.Held.{nodes_of};
ghost use Rattle.mesh_core.specs.Generated.{HoldGenerated};

use crate::event::MeshEvent;
use crate::meeting::{area_from, meet};
use crate::plain::snapshots;
use crate::shared::MeshRow;
use crate::taking::take_at;
use block_store::{BlockStore, Rows, Snapshot};
use cap_codec::RawRow;
use peer_listing::generated_row;
use std::alloc::Global;
use std::marker::Model;
use willow_entry::same;
use willow_path::NoMemory;

/// The nodes of a mesh. Each has a store, which holds live rows of the generator. A contract sees the rows of each node, in
/// the order of their numbers.
#[derive(Drop)]
pub struct MeshNodes {
    stores: Vec<BlockStore<MeshRow>>,
}

impl Model for MeshNodes {
    ghost use Rattle.std.specs.Prelude.{List};
    ghost use Rattle.cap_codec.specs.Rows.{RawValue};
    ghost use Rattle.mesh_core.specs.Held.{nodes_of};
    ghost use Rattle.mesh_core.specs.Generated.{HoldGenerated};

    ghost Value = { List (List RawValue) };

    ghost view = { λ n. n.stores.items };

    ghost invariant = { λ n. HoldGenerated (nodes_of n.stores.items) };
}

impl MeshNodes {
    /// So many nodes, without rows.
    pub fn new(alloc: Global, nodes: u32) -> Result<MeshNodes, NoMemory>
        ensures as_many { IfOk result (λ made. length made ≡ nodes) }
        ensures empty { IfOk result (λ made. nodes_of made ≡ empty_nodes) }
    {
        let stores = empty_stores(alloc, nodes)?;
        Ok(MeshNodes { stores })
    }

    /// The nodes behind an event, of which meetings are exchanges of version 1 or 2. The numbers in the event are below
    /// that of the nodes, its row is one of the generator, and no node meets itself. For want of memory all rows are lost.
    pub fn happen(
        self,
        alloc: Global,
        version: u8,
        event: &MeshEvent,
    ) -> Result<MeshNodes, NoMemory>
        requires version { IsVersion version }
        requires among { IsAmong (length self) event.now }
        ensures rows { IfOk result (λ nodes. nodes_of nodes ≡ after_event (exchanging version) (nodes_of self) (event_of event.now)) }
        ensures as_many { IfOk result (λ nodes. length nodes ≡ length self) }
    {
        let mut stores = self.stores;
        happen_to(alloc, version, &mut stores, event)?;
        Ok(MeshNodes { stores })
    }

    /// The number of rows that a node holds.
    pub fn row_count(&self, node: u32) -> u32
        requires { node < length self.now }
        ensures { result ≡ length (nodes_of self.now node) }
    {
        self.stores[node as usize].len()
    }

    /// Whether two nodes hold the same rows.
    pub fn hold_same(&self, left: u32, right: u32) -> bool
        requires left { left < length self.now }
        requires right { right < length self.now }
        ensures same { IsTrue result ↔ (nodes_of self.now left ≡ nodes_of self.now right) }
    {
        are_same_at(&self.stores, left as usize, right as usize)
    }

    /// The rows of each node as they are.
    pub fn snapshots(&self, alloc: Global) -> Result<Vec<Snapshot<RawRow>>, NoMemory>
        ensures { IfOk result (λ snapshots. map (map row_of) snapshots.items ≡ map (map row_of) self.now) }
    {
        snapshots(alloc, &self.stores)
    }
}

// So many stores without rows.
fn empty_stores(alloc: Global, nodes: u32) -> Result<Vec<BlockStore<MeshRow>>, NoMemory>
    ensures as_many { IfOk result (λ stores. length stores.items ≡ nodes) }
    ensures empty { IfOk result (λ stores. nodes_of stores.items ≡ empty_nodes) }
{
    let mut stores = Vec::new(alloc);
    for _node in 0..nodes {
        stores.push(BlockStore::new(alloc))?;
    }
    Ok(stores)
}

// A node is offered a row of the generator.
fn offer(
    alloc: Global,
    stores: &mut Vec<BlockStore<MeshRow>>,
    node: usize,
    row: u32,
) -> Result<(), NoMemory>
    requires node { node < length stores.old.items }
    requires row { row < GENERATED_ROWS }
    requires generated { HoldGenerated (nodes_of stores.old.items) }
    ensures offered { (version : ℕ) → OnOk result (nodes_of stores.new.items ≡ after_event (exchanging version) (nodes_of stores.old.items) (Offer node (row_of (generated row)))) }
    ensures as_many { length stores.new.items ≡ length stores.old.items }
{
    let mut rows = Vec::new(alloc);
    rows.push(MeshRow::new(alloc, generated_row(alloc, row)?)?)?;
    take_at(stores, node, rows)
}

// The event happens to the nodes with these stores.
fn happen_to(
    alloc: Global,
    version: u8,
    stores: &mut Vec<BlockStore<MeshRow>>,
    event: &MeshEvent,
) -> Result<(), NoMemory>
    requires version { IsVersion version }
    requires among { IsAmong (length stores.old.items) event.now }
    requires generated { HoldGenerated (nodes_of stores.old.items) }
    ensures rows { OnOk result (nodes_of stores.new.items ≡ after_event (exchanging version) (nodes_of stores.old.items) (event_of event.now)) }
    ensures as_many { length stores.new.items ≡ length stores.old.items }
{
    match *event {
        MeshEvent::Offer { node, row } => offer(alloc, stores, node as usize, row),
        MeshEvent::Meet {
            left,
            right,
            subspace,
            from,
        } => {
            let area = area_from(alloc, subspace, from);
            meet(alloc, version, stores, left as usize, right as usize, &area)
        }
    }
}

// Whether there is another row, and it is this one.
fn is_row(row: &MeshRow, other: Option<&MeshRow>) -> bool
    ensures some { IfSome other.entry (λ s. result ≡ same_row (row_of row.now) (row_of s.now)) }
    ensures none { IfNone other.entry (result ≡ false) }
{
    match other {
        None => false,
        Some(other) => same(row, other),
    }
}

// Whether the rows that are left are the same.
fn are_same(left: Rows<'_, MeshRow>, right: Rows<'_, MeshRow>) -> bool
    ensures { result ≡ pointwise same_row (map row_of left.entry) (map row_of right.entry) }
{
    let (mut left, mut right) = (left, right);
    'rows: while let Some(row) = left.next() {
        if !is_row(row, right.next()) {
            return false;
        }
    }
    right.next().is_none()
}

// The rows of a node, one after the other.
fn rows_of(stores: &[BlockStore<MeshRow>], node: usize) -> Rows<'_, MeshRow>
    requires { node < length stores.now }
    ensures { map row_of result ≡ nodes_of stores.now node }
{
    stores[node].rows()
}

// Whether two nodes hold the same rows.
fn are_same_at(stores: &[BlockStore<MeshRow>], left: usize, right: usize) -> bool
    requires left { left < length stores.now }
    requires right { right < length stores.now }
    ensures { IsTrue result ↔ (nodes_of stores.now left ≡ nodes_of stores.now right) }
{
    are_same(rows_of(stores, left), rows_of(stores, right))
}
