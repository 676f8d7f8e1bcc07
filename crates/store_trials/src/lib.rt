//! Tries the plain store and the store of shared rows beside each other; it has tests alone.
//! Both keep one contract, so what one answers and holds after each row, the other does too.
#![tactic(auto)]

#[cfg(test)]
mod blocks;
#[cfg(test)]
mod boxes;
#[cfg(test)]
mod lists;
#[cfg(test)]
mod pairs;
#[cfg(test)]
mod rows;
#[cfg(test)]
mod tests;
#[cfg(test)]
mod times;
