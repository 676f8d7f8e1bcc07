//! Tries which rows of an area are offered; it has tests alone.
#![tactic(auto)]

#[cfg(test)]
mod checks;
#[cfg(test)]
mod offers;
#[cfg(test)]
mod rows;
#[cfg(test)]
mod tests;
