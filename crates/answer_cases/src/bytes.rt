//! Fields of lines that spell bytes.

use std::alloc::Global;

/// The bytes of a field in hexadecimal; `-` is none.
pub(crate) fn bytes_of(alloc: Global, field: &str) -> Option<Vec<u8>> {
    if field == "-" {
        return Some(Vec::new(alloc));
    }
    hex::decode(alloc, field).ok()
}
