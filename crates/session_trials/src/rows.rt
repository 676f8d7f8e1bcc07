//! Rows of one user.

ghost use Rattle.std.specs.Prelude.{◌≡◌, IfSome, slice_index};

use cap_codec::{RawRow, WriteToken};
use mc_cap::{Capability, Chain, Mode, Signature};
use scheme_core::{OpenSigner, Signer};
use std::alloc::Global;
use willow_area::{Area, TimeRange};
use willow_entry::{Entry, entry_message};
use willow_path::{Digest, NamespaceKey, Path, UserKey};

// Which rows a side has: so many of the user's, at the paths of one byte from 0 on, each with 100 and its byte as its time.
// One of them may be of time 200.
#[derive(Clone, Copy)]
pub(crate) struct Rows {
    pub(crate) count: u8,
    pub(crate) newer: Option<u8>,
}

// An open key with this byte throughout its body.
fn key(byte: u8) -> [u8; 33]
    ensures { slice_index result 0 ≡ 0 }
{
    let mut bytes = [byte; 33];
    bytes[0] = 0;
    bytes
}

// The namespace of all rows.
pub(crate) fn namespace() -> Option<NamespaceKey> {
    NamespaceKey::from_bytes(key(b'N'))
}

// The user.
fn user() -> Option<UserKey>
    ensures { IfSome result (λ user. slice_index user 0 ≡ 0) }
{
    UserKey::from_bytes(key(b'U'))
}

// What signs for the user.
pub(crate) fn signer() -> Option<OpenSigner> {
    Some(OpenSigner::new(user()?))
}

// The user's subspace.
pub(crate) fn ask(alloc: Global) -> Option<Area> {
    Some(Area {
        subspace: Some(user()?),
        path: Path::empty(alloc),
        times: TimeRange::new(0, None)?,
    })
}

// The user's communal capability.
pub(crate) fn capability(alloc: Global, mode: Mode) -> Option<Capability> {
    Some(Capability {
        mode,
        namespace: namespace()?,
        user: user()?,
        initial: None,
        chain: Chain::empty(alloc),
    })
}

// The user's entry at the path of this byte, of a time.
fn entry(alloc: Global, byte: u8, time: u64) -> Option<Entry> {
    let mut path = Path::empty(alloc);
    path.push(&[byte]).ok()?;
    Some(Entry {
        namespace: namespace()?,
        subspace: user()?,
        path,
        timestamp: time,
        length: 1,
        digest: Digest([0x11; 32]),
    })
}

// The user's signature of an entry.
fn signature(alloc: Global, entry: &Entry) -> Option<Vec<u8>> {
    let message = entry_message(alloc, entry).ok()?;
    signer()?.sign(alloc, &message).ok()
}

// The user's signature of the entry at the path of this byte.
pub(crate) fn signature_at(alloc: Global, byte: u8) -> Option<Vec<u8>> {
    signature(alloc, &entry(alloc, byte, 100 + u64::from(byte))?)
}

// The user's token of an entry.
fn token(alloc: Global, entry: &Entry) -> Option<WriteToken> {
    let signature = Signature::new(signature(alloc, entry)?)?;
    Some(WriteToken {
        capability: capability(alloc, Mode::Write)?,
        signature,
    })
}

// The row at the path of this byte.
fn row(alloc: Global, which: Rows, byte: u8) -> Option<RawRow> {
    let time = if which.newer == Some(byte) {
        200
    } else {
        100 + u64::from(byte)
    };
    let entry = entry(alloc, byte, time)?;
    let token = token(alloc, &entry)?;
    RawRow::new(alloc, entry, token).ok()
}

// The rows.
pub(crate) fn rows_of(alloc: Global, which: Rows) -> Option<Vec<RawRow>> {
    let mut rows = Vec::new(alloc);
    for byte in 0..which.count {
        rows.push(row(alloc, which, byte)?).ok()?;
    }
    Some(rows)
}
