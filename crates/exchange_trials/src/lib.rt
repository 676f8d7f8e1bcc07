//! Tries the exchange of two stores: its laws, how a box is cut, one side item by item, and both sides together, over all
//! rows and over the newest. It has tests alone.
#![tactic(auto)]

#[cfg(test)]
mod areas;
#[cfg(test)]
mod checks;
#[cfg(test)]
mod choices;
#[cfg(test)]
mod keys;
#[cfg(test)]
mod laws;
#[cfg(test)]
mod meetings;
#[cfg(test)]
mod offers;
#[cfg(test)]
mod pairs;
#[cfg(test)]
mod parts;
#[cfg(test)]
mod rows;
#[cfg(test)]
mod runs;
#[cfg(test)]
mod sides;
#[cfg(test)]
mod stores;
