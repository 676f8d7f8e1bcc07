//! Paths, by which entries are named within a subspace.

ghost use Rattle.std.specs.Prelude.{◌≡◌, ℕ, ◌+◌, ◌<◌, ◌≤◌, List, [], ◌∷◌, ◌++◌, length, take, slice_index_or, nat_eq, OnOk, OnErr, IfOk, MatchOption};
ghost use Rattle.std.specs.Ordering.{as_partial_cmp};
ghost use Rattle.std.specs.Cmp.Lexicographic.{pointwise, lists_ties, texts_ties};
ghost use Rattle.std.specs.Cmp.Rules.{comparing};
ghost use Rattle.std.specs.Cmp.{partial_order_from_own_ties};
ghost use Rattle.std.proofs.Common.{rules};
ghost use Rattle.willow_path.specs.Path.{IsPath, total, is_prefix, part_cmp, path_cmp};
ghost use Rattle.willow_path.specs.PathBytes.{AreOfParts, AreOfPath, IsFirstPart, parts_of, parts_spelling};
ghost use Rattle.willow_path.specs.PathPush.{HasRoom, push_refusal};
ghost use Rattle.willow_path.specs.PathSpelling.{path_spelling};
ghost use Rattle.spelling.specs.Answers.{JudgesFirst};

use crate::limits::{MAX_PART, MAX_PARTS, MAX_TOTAL};
use smallvec::SmallVec;
use spelling::{End, NoMemory};
use std::alloc::Global;
use std::cmp::Ordering;
use std::marker::Model;
use thiserror::Error;

// So many bytes stand in the path itself and take no memory: most paths have few short components.
const INLINE: usize = 16;

/// Why a component cannot be added to a path.
#[derive(Debug, Clone, Copy, PartialEq, Eq, Error)]
pub enum PathRefusal {
    /// The component has more than `MAX_PART` bytes.
    #[error("a component of {len} bytes is too long")]
    ComponentTooLong { len: usize },
    /// The path has `MAX_PARTS` components already.
    #[error("the path has too many components")]
    TooManyComponents,
    /// The path would have more than `MAX_TOTAL` bytes.
    #[error("a path of {total} bytes is too long")]
    PathTooLong { total: usize },
}

/// A path of the Willow Data Model: at most `MAX_PARTS` components, each of at most `MAX_PART` bytes,
/// together at most `MAX_TOTAL` bytes. A contract sees the list of the components.
/// A path is below its extensions; else the first components that differ decide, as byte strings.
#[derive(Drop)]
pub struct Path {
    // The components one after the other, each behind a byte for its length.
    bytes: SmallVec<u8, INLINE>,
}

impl Model for Path {
    ghost use Rattle.std.specs.Prelude.{ℕ, List};

    ghost Value = { List (List ℕ) };

    ghost use Rattle.willow_path.specs.PathBytes.{AreOfPath, parts_of};

    ghost view = { λ p. parts_of p.bytes.items };

    ghost invariant = { λ p. AreOfPath p.bytes.items };
}

impl Path {
    /// The path without components.
    pub fn empty(alloc: Global) -> Path
        ensures empty { result ≡ [] }
        ensures path { IsPath result }
    {
        Path {
            bytes: SmallVec::new(alloc),
        }
    }

    // The path whose components stand in the bytes.
    pub(crate) fn from_bytes(alloc: Global, bytes: &[u8]) -> Result<Path, NoMemory>
        requires { AreOfPath bytes.now }
        ensures { IfOk result (λ path. path ≡ parts_of bytes.now) }
    {
        Ok(Path {
            bytes: SmallVec::from_slice(alloc, bytes)?,
        })
    }

    // The bytes in which the components stand.
    pub(crate) fn bytes(&self) -> &[u8]
        ensures spelled { result.now ≡ parts_spelling self.now }
        ensures whole { AreOfParts result.now }
        ensures parts { parts_of result.now ≡ self.now }
        ensures path { IsPath self.now }
    {
        self.bytes.as_slice()
    }

    /// Adds a component at the end. Of several refusals the first is given: a component of more than
    /// `MAX_PART` bytes, `MAX_PARTS` components already, more than `MAX_TOTAL` bytes with this one.
    /// Memory is asked for after these; an error leaves the path as it was.
    #[tactic(auto, using(crate::proofs::PathLimits::room))]
    pub fn push(&mut self, part: &[u8]) -> Result<(), End<PathRefusal>>
        ensures answer { JudgesFirst result (push_refusal self.old part.now) }
        ensures added { OnOk result (self.new ≡ self.old ++ part.now ∷ []) }
        ensures path { IsPath self.new }
        ensures err { OnErr result (self.new ≡ self.old) }
    {
        if let Some(refusal) = self.refusal(part) {
            return Err(End::Refused(refusal));
        }
        self.add(part)?;
        Ok(())
    }

    // Adds a component that there is room for; an error leaves the path as it was.
    pub(crate) fn add(&mut self, part: &[u8]) -> Result<(), NoMemory>
        requires { HasRoom self.old part.now }
        ensures added { OnOk result (self.new ≡ self.old ++ part.now ∷ []) }
        ensures path { IsPath self.new }
        ensures err { OnErr result (self.new ≡ self.old) }
    {
        self.bytes.reserve(1 + part.len())?;
        self.bytes.push_reserved(part.len() as u8);
        self.bytes.extend_from_slice(part)?;
        Ok(())
    }

    // Why the component cannot be added.
    #[tactic(auto, using(crate::proofs::PathBytes::length_parts), unfolding(crate::specs::PathPush::push_refusal))]
    fn refusal(&self, part: &[u8]) -> Option<PathRefusal>
        ensures cause { result ≡ push_refusal self.now part.now }
        ensures path { IsPath self.now }
    {
        let count = self.count();
        let total = self.bytes().len() - count + part.len();
        if part.len() > MAX_PART {
            return Some(PathRefusal::ComponentTooLong { len: part.len() });
        }
        if count >= MAX_PARTS {
            return Some(PathRefusal::TooManyComponents);
        }
        if total > MAX_TOTAL {
            return Some(PathRefusal::PathTooLong { total });
        }
        None
    }

    // The allocator that the path takes its memory from.
    pub(crate) fn allocator(&self) -> Global {
        *self.bytes.allocator()
    }

    /// The number of components.
    pub fn count(&self) -> usize
        ensures { result ≡ length self.now }
    {
        let mut rest = self.bytes();
        let mut count = 0;
        while let Some((_, behind)) = first_part(rest) {
            rest = behind;
            count += 1;
        }
        count
    }

    /// The number of bytes of all components.
    #[tactic(auto, using(crate::proofs::PathBytes::length_parts))]
    pub fn total(&self) -> usize
        ensures total { result ≡ total self.now }
        ensures path { IsPath self.now }
    {
        self.bytes().len() - self.count()
    }

    /// The number of bytes of the path's spelling.
    pub fn spelled_len(&self) -> usize
        ensures { result ≡ length (path_spelling self.now) }
    {
        1 + self.bytes().len()
    }

    /// The bytes of the component at place i, counted from 0.
    pub fn part(&self, i: usize) -> &[u8]
        requires { i < length self.now }
        ensures { result.now ≡ slice_index_or self.now i [] }
    {
        let mut rest = self.bytes();
        let mut before = i;
        while let Some((part, behind)) = first_part(rest) {
            if before == 0 {
                return part;
            }
            before -= 1;
            rest = behind;
        }
        &[]
    }

    /// Whether the other path is this one followed by further components, or by none.
    pub fn is_prefix_of(&self, other: &Path) -> bool
        ensures { result ≡ is_prefix self.now other.now }
    {
        other.bytes().starts_with(self.bytes())
    }

    /// How the path is ordered against the first components of another, so many as `count` says, or all if it has fewer.
    pub fn cmp_front(&self, longer: &Path, count: usize) -> Ordering
        ensures { result ≡ path_cmp self.now (take count longer.now) }
    {
        let (mut left, mut right, mut most) = (self.bytes(), longer.bytes(), count);
        while let Some((part, behind)) = first_part(left) {
            if most == 0 {
                return Ordering::Greater;
            }
            match first_part(right) {
                None => return Ordering::Greater,
                Some((other, others)) => match part_order(part, other) {
                    Ordering::Equal => {
                        left = behind;
                        right = others;
                        most -= 1;
                    }
                    order => return order,
                },
            }
        }
        if most == 0 || right.is_empty() {
            Ordering::Equal
        } else {
            Ordering::Less
        }
    }

    /// An equal path.
    pub fn copy(&self) -> Result<Path, NoMemory>
        ensures { IfOk result (λ path. path ≡ self.now) }
    {
        Path::from_bytes(self.allocator(), self.bytes())
    }
}

// The first component that stands in the bytes, and the bytes of the others; None where there is none.
fn first_part(bytes: &[u8]) -> Option<(&[u8], &[u8])>
    requires { AreOfParts bytes.now }
    ensures { MatchOption result (parts_of bytes.now ≡ []) (λ x. IsFirstPart bytes.now x.0.now x.1.now) }
{
    match bytes {
        [] => None,
        [len, rest @ ..] => Some(rest.split_at(usize::from(*len))),
    }
}

// How two components are ordered. Most have a few bytes, for which one byte after the other is fastest.
fn part_order(part: &[u8], other: &[u8]) -> Ordering
    ensures { result ≡ part_cmp part.now other.now }
{
    for i in 0..part.len().min(other.len()) {
        if part[i] != other[i] {
            return part[i].cmp(&other[i]);
        }
    }
    part.len().cmp(&other.len())
}

impl PartialEq for Path {
    ghost eq = { pointwise (pointwise nat_eq) };

    ghost laws = { Prim.search (comparing, rules) };

    fn eq(&self, other: &Path) -> bool {
        self.bytes() == other.bytes()
    }
}

impl Eq for Path {
    ghost laws = { Prim.search (comparing, rules) };
}

impl Ord for Path {
    ghost cmp = { path_cmp };

    ghost total = { Prim.search (comparing, rules) };

    ghost matches_partial_cmp = { Prim.search (comparing, rules) };

    ghost matches_eq = { lists_ties part_cmp texts_ties };

    fn cmp(&self, other: &Path) -> Ordering {
        // Equal paths are told by their bytes, with no walk.
        if self == other {
            return Ordering::Equal;
        }
        // No path has more components, so the front is the whole path.
        let _bytes = other.bytes();
        self.cmp_front(other, MAX_PARTS)
    }
}

impl PartialOrd for Path {
    ghost partial_cmp = { as_partial_cmp path_cmp };

    ghost laws = { partial_order_from_own_ties (Prim.search (comparing, rules)) (lists_ties part_cmp texts_ties) };

    fn partial_cmp(&self, other: &Path) -> Option<Ordering> {
        Some(self.cmp(other))
    }
}
