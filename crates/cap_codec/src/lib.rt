//! Capabilities, write tokens and rows as bytes.
//! The contract: what is read is spelled by just the bytes taken, and nothing that is spelled is refused.
#![tactic(auto)]

mod capability;
mod frame;
pub mod laws;
mod numbered;
mod row;
mod token;
mod token_row;

pub use capability::{decode_capability, read_capability, read_signature};
pub use frame::{BadFrames, behind, decode_frame, frames_in_front, read_frames};
pub use numbered::{NumberedRow, decode_capability_frame, decode_numbered_frame};
pub use row::{RawRow, RawRows, SpelledRow};
pub use token::{WriteToken, read_token};
pub use token_row::TokenRow;
pub use willow_entry::{MAX_FRAME, encode_row_frame as encode_frame};
