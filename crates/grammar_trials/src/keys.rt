//! Keys of one byte.

ghost use Rattle.std.specs.Prelude.{◌≡◌, slice_index};

use willow_path::UserKey;

// An open key with this byte throughout its body.
pub(crate) fn key(byte: u8) -> [u8; 33]
    ensures { slice_index result 0 ≡ 0 }
{
    let mut bytes = [byte; 33];
    bytes[0] = 0;
    bytes
}

// The user key of the byte 55.
pub(crate) fn user() -> Option<UserKey> {
    UserKey::from_bytes(key(0x55))
}
