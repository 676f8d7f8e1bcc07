//! The two heights of a tree, and the types that tell them.

ghost use Rattle.std.specs.Prelude.{◌≡◌, ◌≤◌};
ghost use Rattle.lms_core.specs.Accepts.{levels, leaves, type_of, height_of};
ghost use Rattle.lms_core.specs.Key.{height_at};

/// How many levels a tree has above its leaves: 5 (LMS_SHA256_M32_H5, 32 leaves) or
/// 10 (LMS_SHA256_M32_H10, 1,024 leaves).
#[derive(Clone, Copy, PartialEq, Eq)]
pub enum Height {
    H5,
    H10,
}

/// The number of LMOTS_SHA256_N32_W8 in the RFC's registry.
pub(crate) const ONE_TIME_TYPE: u32 = 4;

impl Height {
    /// How many levels stand above the leaves.
    pub fn levels(self) -> usize
        ensures value { result ≡ levels self }
        ensures bound { result ≤ 10 }
    {
        match self {
            Height::H5 => 5,
            Height::H10 => 10,
        }
    }

    /// How many leaves a tree has, and so how many messages one key signs.
    pub fn leaves(self) -> u32
        ensures value { result ≡ leaves self }
        ensures bound { result ≤ 1024 }
    {
        match self {
            Height::H5 => 32,
            Height::H10 => 1024,
        }
    }

    /// The number of the tree's type in the RFC's registry.
    pub(crate) fn tree_type(self) -> u32
        ensures value { result ≡ type_of self }
    {
        match self {
            Height::H5 => 5,
            Height::H10 => 6,
        }
    }

    /// The height that a tree's type tells; none where the type is not of the profile.
    pub(crate) fn of_type(number: u32) -> Option<Height>
        ensures { result ≡ height_of number }
    {
        match number {
            5 => Some(Height::H5),
            6 => Some(Height::H10),
            _ => None,
        }
    }

    /// The height of so many levels; none where it is not of the profile.
    pub(crate) fn of_levels(number: u8) -> Option<Height>
        ensures { result ≡ height_at number }
    {
        match number {
            5 => Some(Height::H5),
            10 => Some(Height::H10),
            _ => None,
        }
    }
}
