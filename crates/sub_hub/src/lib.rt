//! Subscribers of a log: who hears of which rows that come into it.
//! Who watches hears each new row of its area once, in the order of the log, and nothing else.
#![tactic(auto)]

mod calls;
mod hub;
mod key;
mod laws;
mod member;
mod telling;
mod watcher;

pub use hub::Hub;
pub use key::HubKey;
pub use laws::{
    heard_rows, keys_are_given_once, pumps_in_turn, pumps_of_a_log, watchers_hear_in_order,
};
pub use watcher::{Watcher, Wish};
