//! Rows of one user, and feeds of them.

ghost use Rattle.std.specs.Prelude.{◌≡◌, IfSome, slice_index};

use auth_entry::{AuthorisedEntry, authorise};
use cap_codec::{RawRow, WriteToken};
use mc_cap::{Capability, Chain, Mode, Signature};
use scheme_core::{OpenScheme, OpenSigner, Signer};
use std::alloc::Global;
use willow_area::{Area, TimeRange};
use willow_entry::{Entry, Row, entry_message};
use willow_path::{Digest, NamespaceKey, Path, UserKey};

// An open key with this byte throughout its body.
fn key(byte: u8) -> [u8; 33]
    ensures { slice_index result 0 ≡ 0 }
{
    let mut bytes = [byte; 33];
    bytes[0] = 0;
    bytes
}

// The namespace of all rows.
pub(crate) fn namespace() -> Option<NamespaceKey> {
    NamespaceKey::from_bytes(key(b'N'))
}

// A user.
fn user(letter: u8) -> Option<UserKey>
    ensures { IfSome result (λ user. slice_index user 0 ≡ 0) }
{
    UserKey::from_bytes(key(letter))
}

// The subspace of a user.
pub(crate) fn subspace(alloc: Global, letter: u8) -> Option<Area> {
    Some(Area {
        subspace: Some(user(letter)?),
        path: Path::empty(alloc),
        times: TimeRange::new(0, None)?,
    })
}

// The entry of the user U at the path of this byte.
fn entry(alloc: Global, byte: u8) -> Option<Entry> {
    let mut path = Path::empty(alloc);
    path.push(&[byte]).ok()?;
    Some(Entry {
        namespace: namespace()?,
        subspace: user(b'U')?,
        path,
        timestamp: 5,
        length: 1,
        digest: Digest([0x11; 32]),
    })
}

// The signature of an entry by the user of this letter.
fn signature(alloc: Global, entry: &Entry, letter: u8) -> Option<Vec<u8>> {
    let message = entry_message(alloc, entry).ok()?;
    OpenSigner::new(user(letter)?).sign(alloc, &message).ok()
}

// The token of an entry, signed by the user of this letter.
fn token(alloc: Global, entry: &Entry, letter: u8) -> Option<WriteToken> {
    let signature = Signature::new(signature(alloc, entry, letter)?)?;
    Some(WriteToken {
        capability: Capability {
            mode: Mode::Write,
            namespace: namespace()?,
            user: user(b'U')?,
            initial: None,
            chain: Chain::empty(alloc),
        },
        signature,
    })
}

// The row at the path of this byte, signed by the user of this letter.
pub(crate) fn row(alloc: Global, byte: u8, letter: u8) -> Option<RawRow> {
    let entry = entry(alloc, byte)?;
    let token = token(alloc, &entry, letter)?;
    RawRow::new(alloc, entry, token).ok()
}

// The row at the path of this byte, authorised.
pub(crate) fn authorised(
    alloc: Global,
    namespace: &NamespaceKey,
    byte: u8,
) -> Option<AuthorisedEntry<OpenScheme>>
    ensures { IfSome result (λ entry. entry.row.entry.namespace ≡ namespace.now) }
{
    let entry = authorise(alloc, &OpenScheme, namespace, row(alloc, byte, b'U')?).ok()?;
    if entry.entry().namespace != *namespace {
        return None;
    }
    Some(entry)
}

// Appends the row at the path of this byte, signed by the user of this letter, as it stands in a feed: a byte 0a, four bytes
// for the 219 of the body, an entry of 117 bytes and a token of 102.
pub(crate) fn put_row(alloc: Global, byte: u8, letter: u8, out: &mut Vec<u8>) -> Option<()> {
    let row = row(alloc, byte, letter)?;
    out.extend_from_slice(b"\x0a\x00\x00\x00\xdb").ok()?;
    out.extend_from_slice(row.entry_bytes()).ok()?;
    out.extend_from_slice(row.token_bytes()).ok()
}
