//! Links that come to a door, each visited on a thread of its own, and given back in the order in which they came.
//! `host_links` does it all. A caller who has something to do between two links calls its parts: `Workers::accept` for each
//! link, in a scope of threads, and `Workers::finish` behind the last. One who has something to do over the links behind all
//! visits calls `Workers::join` in its place, and `give_back_all` behind that.
#![tactic(auto)]

mod accepting;
mod giving;
mod host;
mod hosting;
mod no_link;
mod worker;
mod workers;

pub use giving::give_back_all;
pub use host::Host;
pub use hosting::{Hosted, host_links};
pub use no_link::NoLink;
pub use workers::Workers;
