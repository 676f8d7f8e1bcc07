//! The commands that make things: keys, capabilities and rows.
//! The contract: what is written is what the words ask for and has passed its check, and each stop says what it met and left.
#![tactic(auto)]

mod delegating;
mod granting;
mod key_signer;
mod laws;
mod making;
mod reading;
mod signing;
mod writing;

pub use delegating::delegate;
pub use granting::grant;
pub use key_signer::{KeySigner, reserve_signer, reserve_signers};
pub use laws::{
    a_key_file_has_one_key, capabilities_are_read_back, empty_areas_count_as_growing,
    rows_are_read_back,
};
pub use making::{draw, draw_all, make_key};
pub use reading::capability_from;
pub use writing::write;
