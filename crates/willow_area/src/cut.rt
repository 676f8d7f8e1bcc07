//! Cuts of a box.

use willow_path::{Path, UserKey};

/// Where a box is cut: at a key, at a path or at a time.
#[derive(Drop)]
pub enum CutAt {
    /// At this key.
    Subspace(UserKey),
    /// At this path.
    Path(Path),
    /// At this time.
    Time(u64),
}

/// The point of a cut is at most the start, or at least the end, of its range.
#[derive(Clone, Copy, Debug, PartialEq, Eq)]
pub struct CutOutside;
