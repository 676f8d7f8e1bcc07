//! Bytes cut at a mark.

ghost use Rattle.std.specs.Prelude.{MatchOption};
ghost use Rattle.mesh_lines.specs.Cuts.{IsCut, Lacks};

/// What stands before the first such mark, and what stands behind it.
pub(crate) fn cut(bytes: &[u8], mark: u8) -> Option<(&[u8], &[u8])>
    ensures { MatchOption result (Lacks mark bytes.now) (λ x. IsCut mark bytes.now x.0.now x.1.now) }
{
    for (at, byte) in bytes.iter().enumerate() {
        if *byte == mark {
            return Some((&bytes[..at], &bytes[at + 1..]));
        }
    }
    None
}
