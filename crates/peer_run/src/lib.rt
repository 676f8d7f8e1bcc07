//! The program as one call: `peer_run` reads the words, runs their command over the objects outside, and
//! answers a status. Its contract says what is read, written and reported at each status, and why it comes.
#![tactic(auto)]

mod accepting;
mod behind;
mod both_logs;
mod calling;
mod closing;
mod drilling;
mod exchanging;
mod feeding;
mod following;
mod getting;
mod greeting;
mod hall;
mod hearing;
mod hosting;
mod images_met;
mod judging;
mod log_closing;
mod log_file;
mod log_keeping;
mod log_opening;
mod meeting;
mod opening;
mod preparing;
mod program;
mod run;
mod sessions;
mod tails;
mod transcript;

pub use program::run_program;
pub use run::{peer_run, run_local};
