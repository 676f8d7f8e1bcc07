//! Tries the commands that make keys, capabilities and rows, against bytes made elsewhere. It has tests alone.
#![tactic(auto)]

#[cfg(test)]
mod making;
