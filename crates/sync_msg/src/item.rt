//! Items: what the two sides of an exchange send.

ghost use Rattle.std.specs.Prelude.{◌≡◌};
ghost use Rattle.sync_msg.specs.Items.{is_counted};

use crate::points::Points;
use crate::prints::Prints;
use willow_area::CutAt;

/// The greatest number of rows of an `Entries`.
pub const MAX_ENTRIES: u8 = 16;

/// The greatest number of rows of a `Rest`.
pub const MAX_REST: u32 = 65_536;

/// An item of an exchange. An `Entries` or a `Rest` is followed by its rows, each an item of its own.
#[derive(Drop)]
pub enum Item<R> {
    /// The fingerprint of the whole box.
    First {
        /// The fingerprint.
        print: [u8; 32],
    },
    /// The fingerprints of a box agree.
    Agree,
    /// The box is cut in two: in sessions of version 1.
    Split {
        /// Where it is cut.
        at: CutAt,
        /// The fingerprint of the part below the point.
        lower: [u8; 32],
        /// The fingerprint of the part from the point on.
        upper: [u8; 32],
    },
    /// The box is cut in parts: one more than points.
    Parts {
        /// Where it is cut: at one to three rising points.
        points: Points,
        /// The fingerprints of the parts, from the lowest up: one more than points.
        prints: Prints,
    },
    /// The rows of a box, to which the other side answers with those that are not among them.
    Entries {
        /// How many rows follow: at most `MAX_ENTRIES`.
        count: u8,
    },
    /// The rows of a box that were not among those of the other side.
    Rest {
        /// How many rows follow: at most `MAX_REST`.
        count: u32,
    },
    /// A row.
    Row(R),
    /// The turn is the other side's.
    EndTurn,
    /// The exchange ends.
    Bye,
}

impl<R> Item<R> {
    /// Whether the item counts against the limit of an exchange: all do but rows, `EndTurn` and `Bye`.
    pub fn is_counted(&self) -> bool
        ensures { result ≡ is_counted self.now }
    {
        match self {
            Item::First { .. }
            | Item::Agree
            | Item::Split { .. }
            | Item::Parts { .. }
            | Item::Entries { .. }
            | Item::Rest { .. } => true,
            Item::Row(_) | Item::EndTurn | Item::Bye => false,
        }
    }
}
