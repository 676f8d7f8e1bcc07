//! Values spelled as bytes, and bytes read back: the words that every format is told in.
//! Each format has one spelling a value, and no spelling begins another of the same format.
#![tactic(auto)]

mod ending;
mod input;
pub mod laws;
mod output;

pub use ending::{End, NoMemory, NotHere};
pub use input::{Input, Unread, guard};
pub use output::{put_byte, put_bytes, put_u16, put_u32, put_u64};
