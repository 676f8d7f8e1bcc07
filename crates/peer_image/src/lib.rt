//! Images: the rows of a store as bytes, and bytes read back as rows.
//! The contract: what is written is the image of the rows, and what is read is the one image that the bytes are.
#![tactic(auto)]

mod known;
pub mod laws;
mod order;
mod parts;
mod read;
mod read_any;
mod read_one;
mod read_two;
mod refusal;
mod write;
mod write_one;

pub use known::{ImageHead, KnownCapability, capabilities_in_front, image_two_head};
pub use order::{are_in_order, last_fronts};
pub use parts::{image_head, rows_in_front};
pub use read::{Image, is_trailer};
pub use read_any::{is_of_version_two, read_image};
pub use read_one::read_image_one;
pub use read_two::{is_end_two, no_marks, read_image_two, rows_among};
pub use refusal::ImageRefusal;
pub use write::{
    capabilities_of, place_from, put_capability, put_head_two, put_row_two, put_trailer,
    write_image, write_store_image,
};
pub use write_one::{write_image_one, write_rows_one};
