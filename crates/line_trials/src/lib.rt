//! Tries which texts are the lines of a mesh, and where others go wrong; it has tests alone.
#![tactic(auto)]

#[cfg(test)]
mod lines;
