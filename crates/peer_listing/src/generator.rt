//! The rows of a generator.

ghost use Rattle.std.specs.Prelude.{◌≡◌, ◌∷◌, [], ◌++◌, ◌<◌, ◌≤◌, length, slice_index, None, IfOk, OnOk};
ghost use Rattle.scheme_core.specs.Open.{open_signature};
ghost use Rattle.willow_path.specs.PathPush.{push_refusal};
ghost use Rattle.willow_entry.specs.Frame.{HasFrame};
ghost use Rattle.cap_codec.specs.Rows.{row_of};
ghost use Rattle.peer_listing.specs.Generator.{generated, generated_digest, generated_entry, generated_path, generated_token, generator_capability, generator_namespace, generator_writer};

use cap_codec::{RawRow, WriteToken};
use mc_cap::{Capability, Chain, Mode, Signature, initial_message};
use scheme_core::{OpenSigner, SignRefusal, Signer};
use spelling::{End, NoMemory};
use std::alloc::Global;
use willow_entry::{Entry, MAX_FRAME, entry_message};
use willow_path::{Digest, NamespaceKey, Path, UserKey};

/// How many rows the generator has.
pub const GENERATED_ROWS: u32 = 65_536;

// The timestamp of the first generated row.
const FIRST_TIMESTAMP: u64 = 1_700_000_000_000_000;

/// Row i of the generator, i below `GENERATED_ROWS`: the same wherever it is made. Let s be i mod 8 and k be i / 8.
/// The namespace is the key 00 and 32 bytes 4f, the subspace the key 00, 31 bytes 55 and one byte s. The
/// path has the two components k / 32 (two bytes) and k mod 32 (one byte), or the first alone where i mod
/// 50 is 49. The timestamp is 1,700,000,000,000,000 + i, the payload length i mod 4,096, the digest i in
/// eight bytes four times. The capability is the owned write capability of the subspace's user, without
/// delegations and with the open signature of the namespace; the user's open signature stands behind it.
/// Numbers are rounded down and spelled with the highest byte first. The row's body fits a frame.
#[tactic(auto, using(crate::proofs::Lengths::generated_fits))]
pub fn generated_row(alloc: Global, i: u32) -> Result<RawRow, NoMemory>
    requires { i < GENERATED_ROWS }
    ensures row { IfOk result (λ row. row ≡ generated i) }
    ensures fits { IfOk result (λ row. HasFrame (row_of row)) }
{
    let entry = generated_entry(alloc, i)?;
    let token = generated_token(alloc, i, &entry)?;
    let row = RawRow::new(alloc, entry, token)?;
    Ok(row)
}

// The entry of row i.
#[tactic(auto, unfolding(crate::specs::Generator::generated_entry))]
pub(crate) fn generated_entry(alloc: Global, i: u32) -> Result<Entry, NoMemory>
    requires { i < GENERATED_ROWS }
    ensures { IfOk result (λ entry. entry ≡ generated_entry i) }
{
    Ok(Entry {
        namespace: generator_namespace(),
        subspace: generator_writer((i % 8) as u8),
        path: generated_path(alloc, i)?,
        timestamp: FIRST_TIMESTAMP + u64::from(i),
        length: u64::from(i % 4096),
        digest: generated_digest(i),
    })
}

// The path of row i.
#[tactic(auto, unfolding(crate::specs::Generator::generated_path, willow_path::specs::PathPush::push_refusal))]
fn generated_path(alloc: Global, i: u32) -> Result<Path, NoMemory>
    requires { i < GENERATED_ROWS }
    ensures { IfOk result (λ path. path ≡ generated_path i) }
{
    let of_writer = i / 8;
    let mut path = Path::empty(alloc);
    add_part(&mut path, &((of_writer / 32) as u16).to_be_bytes())?;
    if i % 50 != 49 {
        add_part(&mut path, &[(of_writer % 32) as u8])?;
    }
    Ok(path)
}

// Adds a component that the path has room for.
fn add_part(path: &mut Path, part: &[u8]) -> Result<(), NoMemory>
    requires { push_refusal path.old part.now ≡ None }
    ensures { OnOk result (path.new ≡ path.old ++ part.now ∷ []) }
{
    match path.push(part) {
        Ok(()) => Ok(()),
        Err(End::Refused(_)) => unreachable!(),
        Err(End::NoMemory) => Err(NoMemory),
    }
}

// The digest of row i.
#[tactic(auto, unfolding(crate::specs::Generator::generated_digest))]
fn generated_digest(i: u32) -> Digest
    ensures { result.0 ≡ generated_digest i }
{
    let number = u64::from(i).to_be_bytes();
    let mut bytes = [0; 32];
    bytes[..8].copy_from_slice(&number);
    bytes[8..16].copy_from_slice(&number);
    bytes[16..24].copy_from_slice(&number);
    bytes[24..].copy_from_slice(&number);
    Digest(bytes)
}

// The token of row i, which has this entry.
#[tactic(auto, unfolding(crate::specs::Generator::generated_token))]
fn generated_token(alloc: Global, i: u32, entry: &Entry) -> Result<WriteToken, NoMemory>
    requires { entry.now ≡ generated_entry i }
    ensures { IfOk result (λ token. token ≡ generated_token i) }
{
    let writer = generator_writer((i % 8) as u8);
    let message = entry_message(alloc, entry)?;
    Ok(WriteToken {
        capability: generator_capability(alloc, writer)?,
        signature: open_signature(alloc, writer, &message)?,
    })
}

// The owned write capability of a writer, without delegations.
#[tactic(auto, unfolding(crate::specs::Generator::generator_capability))]
pub(crate) fn generator_capability(alloc: Global, writer: UserKey) -> Result<Capability, NoMemory>
    ensures { IfOk result (λ capability. capability ≡ generator_capability writer) }
{
    let message = initial_message(Mode::Write, &writer);
    let initial = open_signature(alloc, generator_owner(), &message)?;
    Ok(Capability {
        mode: Mode::Write,
        namespace: generator_namespace(),
        user: writer,
        initial: Some(initial),
        chain: Chain::empty(alloc),
    })
}

// The signature of a message by an open key.
#[tactic(auto, using(crate::proofs::Signed::only_signed))]
fn open_signature(alloc: Global, key: UserKey, message: &[u8]) -> Result<Signature, NoMemory>
    requires { slice_index key 0 ≡ 0 }
    ensures { IfOk result (λ signature. signature ≡ open_signature key message.now) }
{
    match OpenSigner::new(key).sign(alloc, message) {
        Ok(bytes) => Ok(Signature::new(bytes).unwrap()),
        Err(End::Refused(SignRefusal::Spent)) => unreachable!(),
        Err(End::Refused(SignRefusal::Failed)) => unreachable!(),
        Err(End::NoMemory) => Err(NoMemory),
    }
}

/// The key of the generator's namespace.
pub fn generator_namespace() -> NamespaceKey
    ensures { result ≡ generator_namespace }
{
    NamespaceKey::from_bytes(namespace_bytes()).unwrap()
}

// The same, as the key that signs for it.
fn generator_owner() -> UserKey
    ensures key { result ≡ generator_namespace }
    ensures open { slice_index result 0 ≡ 0 }
{
    UserKey::from_bytes(namespace_bytes()).unwrap()
}

// The bytes of the namespace's key.
#[tactic(auto, unfolding(crate::specs::Generator::generator_namespace))]
fn namespace_bytes() -> [u8; 33]
    ensures bytes { result ≡ generator_namespace }
    ensures open { slice_index result 0 ≡ 0 }
{
    let mut bytes = [0x4f; 33];
    bytes[0] = 0;
    bytes
}

// The key of writer s.
#[tactic(auto, unfolding(crate::specs::Generator::generator_writer))]
pub(crate) fn generator_writer(s: u8) -> UserKey
    ensures key { result ≡ generator_writer s }
    ensures open { slice_index result 0 ≡ 0 }
{
    let mut bytes = [0x55; 33];
    bytes[0] = 0;
    bytes[32] = s;
    UserKey::from_bytes(bytes).unwrap()
}
