//! All lines of a mesh.

ghost use Rattle.std.specs.Prelude.{◌≡◌, [], ◌∷◌, ◌++◌, OnOk};
ghost use Rattle.mesh_lines.specs.Text.{ReadsMesh};

use crate::cut::cut;
use crate::line::MeshLine;
use crate::read::{first_line, line_of};
use spelling::{End, NoMemory};
use std::alloc::Global;

/// What a mesh reads: how many nodes it has, and the lines behind the first.
#[derive(Drop)]
pub struct MeshText {
    /// 1 to 64.
    pub nodes: u32,
    /// In order.
    pub lines: Vec<MeshLine>,
}

/// Where the first line begins that is not in the grammar.
#[derive(Clone, Copy, Debug, PartialEq, Eq)]
pub struct WrongLine {
    /// Counted in bytes, from 0.
    pub at: u64,
}

/// The lines that the bytes spell; it is refused exactly where they spell none, with the place of the first wrong line. A
/// line cut short is wrong, and so is no line at all.
#[tactic(auto, using(crate::proofs::Texts::cut_short, crate::proofs::Texts::wrong_first, crate::proofs::Texts::begun, crate::proofs::Texts::wrong_at, crate::proofs::Texts::no_end, crate::proofs::Texts::no_line, crate::proofs::Texts::one_more, crate::proofs::Texts::shorter, crate::proofs::Texts::all_read))]
pub fn read_mesh(alloc: Global, bytes: &[u8]) -> Result<MeshText, End<WrongLine>>
    ensures { ReadsMesh bytes.now result }
{
    let Some((first, behind)) = cut(bytes, b'\n') else {
        return Err(End::Refused(WrongLine { at: 0 }));
    };
    let Some(nodes) = first_line(first) else {
        return Err(End::Refused(WrongLine { at: 0 }));
    };
    let mut lines = Vec::new(alloc);
    let mut left = behind;
    while !left.is_empty() {
        let at = bytes.len().saturating_sub(left.len()) as u64;
        let Some((line, others)) = cut(left, b'\n') else {
            return Err(End::Refused(WrongLine { at }));
        };
        let Some(line) = line_of(nodes, line) else {
            return Err(End::Refused(WrongLine { at }));
        };
        push_line(&mut lines, line)?;
        left = others;
    }
    Ok(MeshText { nodes, lines })
}

// Appends a line. One that has a key in it is made anew: where a value is pushed, the checker asks that the types of its parts
// stand there.
fn push_line(lines: &mut Vec<MeshLine>, line: MeshLine) -> Result<(), NoMemory>
    ensures { OnOk result (lines.new.items ≡ lines.old.items ++ line ∷ []) }
{
    match line {
        MeshLine::Meet {
            left,
            right,
            subspace,
            from,
        } => {
            lines.push(MeshLine::Meet {
                left,
                right,
                subspace,
                from,
            })?;
            Ok(())
        }
        other => {
            lines.push(other)?;
            Ok(())
        }
    }
}
