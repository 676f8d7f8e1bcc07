//! Tests of meshes of nodes; it has tests alone.
#![tactic(auto)]

#[cfg(test)]
mod checks;
#[cfg(test)]
mod runs;
#[cfg(test)]
mod tests;
