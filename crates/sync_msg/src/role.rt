//! The two sides of an exchange.

/// Which side of an exchange a store is.
#[derive(Clone, Copy, PartialEq, Eq)]
pub enum Role {
    /// The side that asked for the exchange; it begins.
    Caller,
    /// The side that was asked.
    Answerer,
}
