//! Tries sessions over links in memory: each side alone, and two sides that read what each other writes; it has tests alone.
#![tactic(auto)]

#[cfg(test)]
mod cuts;
#[cfg(test)]
mod fakes;
#[cfg(test)]
mod plans;
#[cfg(test)]
mod rounds;
#[cfg(test)]
mod rows;
#[cfg(test)]
mod runs;
#[cfg(test)]
mod tests;
