//! Names of the Willow Data Model: keys, digests and paths, with their order, prefixes and successors.
//! Contracts see a key as its bytes and a path as the list of its components' bytes.
#![tactic(auto)]

mod key;
pub mod laws;
mod limits;
mod path;
mod path_codec;
mod successor;

pub use key::{Digest, NamespaceKey, UserKey, read_digest, read_namespace_key, read_user_key};
pub use limits::{MAX_PART, MAX_PARTS, MAX_TOTAL};
pub use path::{Path, PathRefusal};
pub use path_codec::read_path;
pub use spelling::{End, NoMemory, NotHere};
