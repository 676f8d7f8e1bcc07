//! What shelves hold.

use willow_outside::Shelf;

/// Whether a get answers just these bytes, or that there are none.
pub(crate) fn holds<S: Shelf>(shelf: &mut S, name: &str, want: Option<&[u8]>) -> bool {
    match (shelf.get(name), want) {
        (Ok(Some(bytes)), Some(want)) => bytes.as_slice() == want,
        (Ok(None), None) => true,
        _ => false,
    }
}
