//! Willow entries and rows: which entry is newer, which row dominates another, and what a set of rows keeps.
//! Each function answers by the definitions over plain rows, and the laws of pruning and joining are proved here.
#![tactic(auto)]

mod bare_row;
mod entry;
mod entry_codec;
mod frame;
pub mod laws;
mod message;
mod placed;
mod rank;
mod row;
mod row_form;
mod shared_row;

pub use bare_row::{BareRow, BareRows};
pub use entry::{Entry, newer};
pub use entry_codec::{LEAST_ENTRY, read_entry};
pub use frame::{MAX_FRAME, encode_row_frame};
pub use message::{entry_message, put_row_message, row_message};
pub use placed::{MAX_ROWS, Placed};
pub use rank::{Rank, by_rank};
pub use row::{
    LogRow, Row, SharedRow, by_inner_place, by_place, by_subspace_path, cover, covers, dominates,
    same,
};
pub use row_form::RowForm;
