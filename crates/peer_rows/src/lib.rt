//! The commands over rows: `join` makes the image of what is live of a stream of rows, `show` lists what is
//! authorised of an image, `generate` makes a stream of rows, and `watch` tells those who watch of the rows that come behind
//! those of an image.
//! The contract of each says, for each end, what was read and written and why it came.
#![tactic(auto)]

mod drilled;
mod feeding;
mod gathering;
mod generating;
mod images;
mod imaging;
mod intake;
mod joining;
mod keeping;
mod listing;
mod log;
mod offering;
mod parts;
mod parts_two;
mod reading;
mod row_log;
mod shares;
mod showing;
mod watching;

pub use drilled::generated_logs;
pub use generating::generate;
pub use images::{EntryLog, image_from, log_image, log_stop};
pub use joining::join;
pub use row_log::offer_rows;
pub use showing::show;
pub use watching::watch;
