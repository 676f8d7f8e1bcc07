//! The words of a run: every list of words is read by hand as a command, or is none.
//! The contract: the command answered is the one that the words spell, and `Usage` comes exactly where they spell none.
#![tactic(auto)]

mod area;
mod command;
pub mod laws;
mod limits;
mod name;
mod number;
mod options;
mod path;
mod read;
mod signer;
mod verb;
mod word;

pub use command::{AreaWords, Command, SignerWord, Usage};
pub use limits::{MOST_LINKS, MOST_NAME_BYTES, MOST_PLACE_BYTES, MOST_PORT, MOST_ROWS};
pub use read::read_words;
