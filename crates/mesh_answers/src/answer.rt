//! The lines of a mesh, answered in order.

ghost use Rattle.std.specs.Prelude.{◌≡◌, ℕ, ◌++◌, List, IfOk, OnOk};
ghost use Rattle.mesh_lines.specs.Text.{IsMesh};
ghost use Rattle.mesh_lines.specs.Named.{NamesAmong};
ghost use Rattle.mesh_answers.specs.Answers.{IsLineAnswered, IsTextOf, node_line, node_lines, same_line, yes_or_no};

use crate::stores::MeshStores;
use mesh_lines::{MeshLine, MeshText};
use spelling::{NoMemory, put_bytes};
use std::alloc::Global;

/// The text of the lines of a mesh: what its questions are answered, and how many rows each node holds at the end. The
/// nodes go on from line to line.
pub fn text_of<M: MeshStores>(alloc: Global, text: &MeshText) -> Result<Vec<u8>, NoMemory>
    requires { (bytes : List ℕ) × IsMesh bytes text.now.nodes text.now.lines.items }
    ensures { IfOk result (λ out. IsTextOf M.rules text.now.nodes text.now.lines.items out.items) }
{
    let mut nodes = M::new(alloc, text.nodes)?;
    let mut out = Vec::new(alloc);
    for line in &text.lines {
        nodes = answer(alloc, nodes, line, &mut out)?;
    }
    put_counts(alloc, &nodes, text.nodes, &mut out)?;
    Ok(out)
}

// The nodes behind a line; what it asks for is appended.
fn answer<M: MeshStores>(
    alloc: Global,
    nodes: M,
    line: &MeshLine,
    out: &mut Vec<u8>,
) -> Result<M, NoMemory>
    requires { NamesAmong (M.count nodes) line.now }
    ensures answer { IfOk result (λ made. IsLineAnswered M.rules (M.rows nodes) (M.rows made) line.now out.old.items out.new.items) }
    ensures count { IfOk result (λ made. M.count made ≡ M.count nodes) }
{
    match *line {
        MeshLine::Offer { node, row } => nodes.offer(alloc, node, row),
        MeshLine::Meet {
            left,
            right,
            subspace,
            from,
        } => nodes.meet(alloc, left, right, subspace, from),
        MeshLine::Same { left, right } => {
            let line = same_line(alloc, left, right, nodes.hold_same(left, right))?;
            put_bytes(out, &line)?;
            Ok(nodes)
        }
    }
}

// Whether two nodes hold the same rows.
fn same_line(alloc: Global, left: u32, right: u32, same: bool) -> Result<Vec<u8>, NoMemory>
    ensures { IfOk result (λ text. text.items ≡ same_line left right same) }
{
    let told = yes_or_no(same);
    let line = format!(in alloc; "same {left} {right} {told}\n")?;
    Ok(line.into_bytes())
}

fn yes_or_no(same: bool) -> &'static str
    ensures { result.now ≡ yes_or_no same }
{
    if same { "yes" } else { "no" }
}

// Appends how many rows each node holds.
fn put_counts<M: MeshStores>(
    alloc: Global,
    nodes: &M,
    count: u32,
    out: &mut Vec<u8>,
) -> Result<(), NoMemory>
    requires { M.count nodes.now ≡ count }
    ensures { OnOk result (out.new.items ≡ out.old.items ++ node_lines (M.rows nodes.now) count) }
{
    for node in 0..count {
        let line = node_line(alloc, node, nodes.row_count(node))?;
        put_bytes(out, &line)?;
    }
    Ok(())
}

// How many rows a node holds.
fn node_line(alloc: Global, node: u32, rows: u32) -> Result<Vec<u8>, NoMemory>
    ensures { IfOk result (λ text. text.items ≡ node_line node rows) }
{
    let line = format!(in alloc; "node {node} rows {rows}\n")?;
    Ok(line.into_bytes())
}
