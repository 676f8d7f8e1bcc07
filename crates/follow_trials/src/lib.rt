//! Tries feeds and follows over links in memory; it has tests alone.
#![tactic(auto)]

#[cfg(test)]
mod rows;
#[cfg(test)]
mod runs;
#[cfg(test)]
mod tests;
