//! Tries how values are spelled, ordered and read back: fields of bytes, names, entries with their rows, and areas. It has
//! tests alone.
#![tactic(auto)]

#[cfg(test)]
mod areas;
#[cfg(test)]
mod entries;
#[cfg(test)]
mod fields;
#[cfg(test)]
mod names;
#[cfg(test)]
mod paths;
