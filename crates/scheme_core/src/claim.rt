//! Signatures that are to be verified.

use willow_path::UserKey;

/// One signature to be verified: of `front` and behind it `rest`, by a user's key.
#[derive(Clone, Copy)]
pub struct Claim<'a> {
    /// The key that is said to have signed.
    pub key: UserKey,
    /// The first piece of what is signed.
    pub front: &'a [u8],
    /// The piece behind it.
    pub rest: &'a [u8],
    /// The signature, of any length.
    pub signature: &'a [u8],
}
