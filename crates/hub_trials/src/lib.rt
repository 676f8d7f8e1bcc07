//! Tries hubs: who hears of which rows, who leaves, and what is handed back. It has tests alone.
#![tactic(auto)]

#[cfg(test)]
mod hubs;
#[cfg(test)]
mod listener;
#[cfg(test)]
mod rows;
