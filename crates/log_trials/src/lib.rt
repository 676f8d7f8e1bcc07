//! Tries what a log of one namespace stands on and is: a counter of steps, slots in two orders, entries by recency, the
//! state of a namespace, and the cell that passes share. It has tests alone.
#![tactic(auto)]

#[cfg(test)]
mod cells;
#[cfg(test)]
mod counters;
#[cfg(test)]
mod keys;
#[cfg(test)]
mod recent;
#[cfg(test)]
mod slots;
#[cfg(test)]
mod states;
#[cfg(test)]
mod walks;
