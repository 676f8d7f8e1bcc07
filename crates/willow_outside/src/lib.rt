//! The outside as a program sees it: what it reads, writes and keeps, each with counts of its faults.
//! A call fails only where its count rose, moves just the bytes that it says, and changes nothing else.
#![tactic(auto)]

mod asked;
mod bay;
mod byte_link;
mod cabinet;
mod disk;
mod disk_tape;
mod door;
mod fault;
mod link;
mod mem_bay;
mod mem_disk;
mod mem_door;
mod mem_link;
mod mem_noise;
mod mem_shelf;
mod mem_sink;
mod mem_source;
mod noise;
mod reading;
mod returns;
mod schedule;
mod shelf;
mod sink;
mod source;
mod supply;
mod sure_shelf;
mod sure_sink;
mod sure_source;
mod traffic;
mod writing;

pub use bay::Bay;
pub use byte_link::ByteLink;
pub use disk::Disk;
pub use disk_tape::DiskCall;
pub use door::Door;
pub use fault::Fault;
pub use link::Link;
pub use mem_bay::MemBay;
pub use mem_disk::MemDisk;
pub use mem_door::MemDoor;
pub use mem_link::MemLink;
pub use mem_noise::MemNoise;
pub use mem_shelf::MemShelf;
pub use mem_sink::MemSink;
pub use mem_source::MemSource;
pub use noise::Noise;
pub use reading::{ReadEnd, read_all};
pub use shelf::Shelf;
pub use sink::Sink;
pub use source::Source;
pub use sure_shelf::SureShelf;
pub use sure_sink::SureSink;
pub use sure_source::SureSource;
pub use writing::write_whole;
