//! Lines read from their bytes, without their newlines.

ghost use Rattle.std.specs.Prelude.{◌≡◌, ℕ, ◌++◌, codes, MatchOption};
ghost use Rattle.mesh_lines.specs.Lines.{IsFirstLine, IsLine};
ghost use Rattle.mesh_lines.specs.declared.line.MeshLine.{MeshLine};

use crate::cut::cut;
use crate::line::{LAST_ROW, MOST_NODES, MeshLine};
use crate::word::{node_of, number_of, number_within, subspace_of};

/// How many nodes the first line says that there are.
pub(crate) fn first_line(line: &[u8]) -> Option<u32>
    ensures { MatchOption result ((nodes : ℕ) → IsFirstLine line.now nodes → ⊥) (IsFirstLine line.now) }
{
    let (verb, number) = cut(line, b' ')?;
    if verb != b"nodes".as_slice() {
        return None;
    }
    number_within(1, MOST_NODES, number)
}

/// The line that the bytes spell, where there are so many nodes.
pub(crate) fn line_of(nodes: u32, line: &[u8]) -> Option<MeshLine>
    ensures { MatchOption result ((l : MeshLine) → IsLine nodes line.now l → ⊥) (IsLine nodes line.now) }
{
    let (verb, words) = cut(line, b' ')?;
    if verb == b"offer".as_slice() {
        return offer_of(nodes, words);
    }
    if verb == b"meet".as_slice() {
        return meet_of(nodes, words);
    }
    if verb == b"same".as_slice() {
        return same_of(nodes, words);
    }
    None
}

// What is offered, by the words behind `offer`.
fn offer_of(nodes: u32, words: &[u8]) -> Option<MeshLine>
    ensures { MatchOption result ((l : MeshLine) → IsLine nodes (codes "offer " ++ words.now) l → ⊥) (IsLine nodes (codes "offer " ++ words.now)) }
{
    let (first, second) = cut(words, b' ')?;
    let node = node_of(nodes, first)?;
    let row = number_within(0, LAST_ROW, second)?;
    Some(MeshLine::Offer { node, row })
}

// Which nodes meet and over what, by the words behind `meet`.
fn meet_of(nodes: u32, words: &[u8]) -> Option<MeshLine>
    ensures { MatchOption result ((l : MeshLine) → IsLine nodes (codes "meet " ++ words.now) l → ⊥) (IsLine nodes (codes "meet " ++ words.now)) }
{
    let (first, others) = cut(words, b' ')?;
    let (second, rest) = cut(others, b' ')?;
    let (third, fourth) = cut(rest, b' ')?;
    let left = node_of(nodes, first)?;
    let right = node_of(nodes, second)?;
    if left == right {
        return None;
    }
    let subspace = subspace_of(third)?;
    let from = number_of(fourth)?;
    Some(MeshLine::Meet {
        left,
        right,
        subspace,
        from,
    })
}

// Which nodes are compared, by the words behind `same`.
fn same_of(nodes: u32, words: &[u8]) -> Option<MeshLine>
    ensures { MatchOption result ((l : MeshLine) → IsLine nodes (codes "same " ++ words.now) l → ⊥) (IsLine nodes (codes "same " ++ words.now)) }
{
    let (first, second) = cut(words, b' ')?;
    let left = node_of(nodes, first)?;
    let right = node_of(nodes, second)?;
    Some(MeshLine::Same { left, right })
}
