//! The outside as it really is, in a few lines each: the trusted edge.
//! Each adapter is proved against the trait of the outside that it serves. A stream tells the bytes that its reader or
//! writer tells; files, connections, noise and the process's own standard streams tell none.
#![tactic(auto)]

mod bay;
mod disk;
mod faults;
mod files;
mod noise;
mod shelf;
mod streams;
mod tcp;

pub use bay::FileBay;
pub use disk::FileDisk;
pub use noise::RandomNoise;
pub use shelf::FileShelf;
pub use streams::{StdReport, StdSink, StdSource};
pub use tcp::{TcpDoor, TcpLink};
