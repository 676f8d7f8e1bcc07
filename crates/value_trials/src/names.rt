//! Paths by their components, keys by their bytes, and bytes by their parts.

use std::alloc::Global;
use willow_path::{Path, UserKey};

// Components, or parts of a spelling.
pub(crate) type Parts = &'static [&'static [u8]];

// The path of these components; None where one cannot be added.
pub(crate) fn path_of(alloc: Global, parts: &[&[u8]]) -> Option<Path> {
    let mut path = Path::empty(alloc);
    for part in parts {
        path.push(part).ok()?;
    }
    Some(path)
}

// The key of this kind whose body is 32 times this byte.
pub(crate) fn key_of(kind: u8, byte: u8) -> Option<UserKey> {
    let mut bytes = [byte; 33];
    bytes[0] = kind;
    UserKey::from_bytes(bytes)
}

// Whether the text is these parts, one behind another.
pub(crate) fn is_spelled(alloc: Global, text: &[u8], parts: &[&[u8]]) -> Option<bool> {
    let mut due = Vec::new(alloc);
    for part in parts {
        due.extend_from_slice(part).ok()?;
    }
    Some(text == due.as_slice())
}
