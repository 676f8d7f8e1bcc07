//! Tries digests, totals of rows, keys and signatures against values made elsewhere; it has tests alone.
#![tactic(auto)]

#[cfg(test)]
mod claims;
#[cfg(test)]
mod digests;
#[cfg(test)]
mod lms_keys;
#[cfg(test)]
mod open_keys;
#[cfg(test)]
mod totals;
#[cfg(test)]
mod vectors;
