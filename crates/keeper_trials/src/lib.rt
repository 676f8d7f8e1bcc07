//! Tries the log: files as they stand in the record of a disk, what a stop at each of its calls leaves, files that are
//! wrong, and disks that fail; it has tests alone.
#![tactic(auto)]

#[cfg(test)]
mod bad_files;
#[cfg(test)]
mod fakes;
#[cfg(test)]
mod files;
#[cfg(test)]
mod keeping;
#[cfg(test)]
mod refusals;
#[cfg(test)]
mod stops;
