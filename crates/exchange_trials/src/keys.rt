//! Keys of one byte.

use willow_path::UserKey;

// An open key with this byte throughout its body.
pub(crate) fn key(byte: u8) -> [u8; 33] {
    let mut bytes = [byte; 33];
    bytes[0] = 0;
    bytes
}

// The user key of this byte.
pub(crate) fn user(byte: u8) -> Option<UserKey> {
    UserKey::from_bytes(key(byte))
}
