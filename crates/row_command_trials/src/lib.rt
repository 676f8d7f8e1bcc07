//! Tries the commands over rows; it has tests alone.
//! What comes of `join`, `show`, `generate` and `watch` is compared with images, listings and frames that were made elsewhere.
#![tactic(auto)]

#[cfg(test)]
mod bytes;
#[cfg(test)]
mod endings;
#[cfg(test)]
mod frames;
#[cfg(test)]
mod halves;
#[cfg(test)]
mod images;
#[cfg(test)]
mod listener;
#[cfg(test)]
mod pieces;
#[cfg(test)]
mod watching;
