//! Items that a side says.

use sync_msg::Item;

/// An item that a side says: an item of an exchange, in which a row is named by its position in the side's snapshot.
pub type OutItem = Item<u32>;
