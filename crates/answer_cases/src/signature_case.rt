//! A line of the table of signatures.

use crate::bytes::bytes_of;
use hex::FromHex;
use lms_core::lms_verify;
use std::alloc::Global;

/// Whether the answer for the signature of a line is the expected one; none where a field is no hexadecimal text.
pub(crate) fn agrees(alloc: Global, fields: &str) -> Option<bool> {
    let (public, fields) = fields.split_once(' ')?;
    let (message, fields) = fields.split_once(' ')?;
    let (signature, expected) = fields.split_once(' ')?;
    let public = <[u8; 56] as FromHex>::from_hex(public).ok()?;
    let message = bytes_of(alloc, message)?;
    let signature = bytes_of(alloc, signature)?;
    Some(lms_verify(&public, &message, &signature) == (expected == "valid"))
}
