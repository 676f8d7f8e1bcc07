//! Tries the checkers of rows beside each other; it has tests alone. Both keep one contract, so what one answers of a list
//! of rows, the other does too; how often a signature is verified, no contract says.
#![tactic(auto)]

#[cfg(test)]
mod asked;
#[cfg(test)]
mod authorised;
#[cfg(test)]
mod heavy;
#[cfg(test)]
mod rows;
#[cfg(test)]
mod schemes;
#[cfg(test)]
mod texts;
#[cfg(test)]
mod verdicts;
