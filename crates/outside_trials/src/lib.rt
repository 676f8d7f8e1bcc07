//! Tries the outside as a program sees it, in memory and as it is: sources, sinks, shelves, noise, links and disks, links
//! that a host visits, and links between threads. It has tests alone.
#![tactic(auto)]

#[cfg(test)]
mod counted_door;
#[cfg(test)]
mod disks;
#[cfg(test)]
mod file_disks;
#[cfg(test)]
mod folders;
#[cfg(test)]
mod hosts;
#[cfg(test)]
mod memory;
#[cfg(test)]
mod noting;
#[cfg(test)]
mod real;
#[cfg(test)]
mod shelves;
#[cfg(test)]
mod threads;
