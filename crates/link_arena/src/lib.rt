//! Values in slots of one vector, in two orders at once: by key and by rank.
//! The contract is two lists of one set: of the pairs of a slot and its value, one list rises by key and one by rank.
//! Two height-balanced trees and two doubly linked lists run through the slots by index.
#![tactic(auto)]

mod arena;
mod both;
mod chain;
mod find;
mod join;
mod order;
mod put;
mod slot;
mod take;
mod twice;
mod vacant;

pub use arena::Arena;
pub use twice::{Order, Twice};
