//! One side of an exchange between two stores, item by item, over its rows as they were when it began.
//! The contract: what a side says, what it makes of each item that it reads, and when it refuses one, are those of the
//! rules of the exchange in the version of the session.
#![tactic(auto)]

mod answer;
mod ask;
mod boxes;
mod by_time;
mod head;
mod hear;
pub mod laws;
mod out_item;
mod print;
mod rows;
mod say;
mod side;
mod stage;
mod start;
mod work;

pub use out_item::OutItem;
pub use side::SyncCore;
pub use stage::{SNAPSHOT_MAX, Stage};
pub use sync_msg::{CoreRefusal, Item, Role};
