//! A session between two stores as a function of the bytes that it reads, told by definitions alone over abstract
//! messages, rows and readers, with its laws: what is written does not hang on the pieces in which bytes come, nothing of
//! the exchange is said before a greeting passes, rows that the other side may not read change nothing, and two sessions
//! that each read what the other writes come to an end with the rows of the exchange.
#![tactic(auto)]

pub mod laws;
