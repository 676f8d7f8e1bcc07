//! Tries what is read and written, against bytes and texts made elsewhere: capabilities, rows, streams, images, messages,
//! hellos, the lines of listings and reports, and the words of a run. It has tests alone.
#![tactic(auto)]

#[cfg(test)]
mod capabilities;
#[cfg(test)]
mod hellos;
#[cfg(test)]
mod images;
#[cfg(test)]
mod images_two;
#[cfg(test)]
mod items;
#[cfg(test)]
mod keys;
#[cfg(test)]
mod lines;
#[cfg(test)]
mod reports;
#[cfg(test)]
mod rows;
#[cfg(test)]
mod streams;
#[cfg(test)]
mod tables;
#[cfg(test)]
mod texts;
#[cfg(test)]
mod words;
