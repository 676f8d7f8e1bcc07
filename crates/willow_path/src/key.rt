//! Keys of users and namespaces, and digests.

ghost use Rattle.std.specs.Prelude.{◌≡◌, ℕ, ◌<◌, ◌≤◌, List, slice_index, replicate, MatchBool, MatchOption, IfOk, Some, refl};
ghost use Rattle.std.specs.Ordering.{nat_cmp};
ghost use Rattle.std.specs.Cmp.{unsigned_po};
ghost use Rattle.std.specs.Cmp.Lexicographic.{slice_cmp, slice_partial_cmp, lists_agrees, lists_po, nat_list_cmp_total, texts_ties};
ghost use Rattle.spelling.specs.Reading.{Gives, NeedsNoMemory, bytes_at};
ghost use Rattle.willow_path.specs.Key.{IsKey, key_at};

use spelling::{Input, Unread};
use std::cmp::Ordering;
use std::marker::Model;

// Whether the bytes are a key's.
fn is_key(bytes: &[u8; 33]) -> bool
    ensures { MatchBool result (IsKey bytes.now) (1 < slice_index bytes.now 0) }
{
    bytes.as_slice()[0] <= 1
}

// How the bytes of two keys are ordered. Most keys that are compared are equal, which is told at once.
fn order(bytes: &[u8; 33], others: &[u8; 33]) -> Ordering
    ensures { result ≡ slice_cmp nat_cmp bytes.now others.now }
{
    if bytes == others {
        return Ordering::Equal;
    }
    bytes.cmp(others)
}

/// The key of a user, who owns a subspace: a kind (0 or 1) and a body of 32 bytes.
/// Keys are ordered by their bytes.
#[derive(Clone, Copy, PartialEq, Eq)]
pub struct UserKey {
    bytes: [u8; 33],
}

impl Model for UserKey {
    ghost Value = { List ℕ };

    ghost view = { λ k. k.bytes };

    ghost invariant = { λ k. IsKey k.bytes };

    ghost inverse = { λ v. record { bytes = v } };
}

impl Ord for UserKey {
    ghost cmp = { slice_cmp nat_cmp };

    ghost total = { nat_list_cmp_total };

    ghost matches_partial_cmp = { lists_agrees (λ x y. refl) };

    ghost matches_eq = { texts_ties };

    fn cmp(&self, other: &UserKey) -> Ordering {
        order(&self.bytes, &other.bytes)
    }
}

impl PartialOrd for UserKey {
    ghost partial_cmp = { slice_partial_cmp (λ x y. Some (nat_cmp x y)) };

    ghost laws = { lists_po unsigned_po };

    // By `cmp`, which compares words: the partial order of arrays goes byte by byte.
    fn partial_cmp(&self, other: &UserKey) -> Option<Ordering> {
        Some(self.cmp(other))
    }
}

impl UserKey {
    /// The key of these bytes; None exactly where the first byte is above 1.
    pub fn from_bytes(bytes: [u8; 33]) -> Option<UserKey>
        ensures { MatchOption result (1 < slice_index bytes 0) (λ key. (key ≡ bytes) × IsKey bytes) }
    {
        if is_key(&bytes) {
            Some(UserKey { bytes })
        } else {
            None
        }
    }

    /// The 33 bytes of the key.
    pub fn to_bytes(&self) -> [u8; 33]
        ensures bytes { result ≡ self.now }
        ensures key { IsKey self.now }
    {
        self.bytes
    }

    /// The least of all keys: 33 zero bytes.
    pub fn least() -> UserKey
        ensures least { result ≡ replicate 33 0 }
        ensures key { IsKey result }
    {
        UserKey { bytes: [0; 33] }
    }
}

/// The key of a namespace: a kind (0 or 1) and a body of 32 bytes. Keys are ordered by their bytes.
#[derive(Clone, Copy, PartialEq, Eq)]
pub struct NamespaceKey {
    bytes: [u8; 33],
}

impl Model for NamespaceKey {
    ghost Value = { List ℕ };

    ghost view = { λ k. k.bytes };

    ghost invariant = { λ k. IsKey k.bytes };

    ghost inverse = { λ v. record { bytes = v } };
}

impl Ord for NamespaceKey {
    ghost cmp = { slice_cmp nat_cmp };

    ghost total = { nat_list_cmp_total };

    ghost matches_partial_cmp = { lists_agrees (λ x y. refl) };

    ghost matches_eq = { texts_ties };

    fn cmp(&self, other: &NamespaceKey) -> Ordering {
        order(&self.bytes, &other.bytes)
    }
}

impl PartialOrd for NamespaceKey {
    ghost partial_cmp = { slice_partial_cmp (λ x y. Some (nat_cmp x y)) };

    ghost laws = { lists_po unsigned_po };

    // By `cmp`, which compares words: the partial order of arrays goes byte by byte.
    fn partial_cmp(&self, other: &NamespaceKey) -> Option<Ordering> {
        Some(self.cmp(other))
    }
}

impl NamespaceKey {
    /// The key of these bytes; None exactly where the first byte is above 1.
    pub fn from_bytes(bytes: [u8; 33]) -> Option<NamespaceKey>
        ensures { MatchOption result (1 < slice_index bytes 0) (λ key. (key ≡ bytes) × IsKey bytes) }
    {
        if is_key(&bytes) {
            Some(NamespaceKey { bytes })
        } else {
            None
        }
    }

    /// The 33 bytes of the key.
    pub fn to_bytes(&self) -> [u8; 33]
        ensures bytes { result ≡ self.now }
        ensures key { IsKey self.now }
    {
        self.bytes
    }
}

/// The digest of a payload: 32 bytes, by which digests are ordered.
#[derive(Clone, Copy, PartialEq, Eq, PartialOrd, Ord)]
pub struct Digest(pub [u8; 32]);

/// Reads the key of a user: its 33 bytes. It is wrong as soon as its first byte is read and is above 1.
pub fn read_user_key(input: &mut Input) -> Result<UserKey, Unread>
    ensures gives { Gives (λ key. key) result input.new (key_at input.old) }
    ensures sure { NeedsNoMemory result }
{
    UserKey::from_bytes(read_key(input)?).ok_or(Unread::Wrong)
}

/// Reads the key of a namespace: its 33 bytes. It is wrong as soon as its first byte is read and is above 1.
pub fn read_namespace_key(input: &mut Input) -> Result<NamespaceKey, Unread>
    ensures gives { Gives (λ key. key) result input.new (key_at input.old) }
    ensures sure { NeedsNoMemory result }
{
    NamespaceKey::from_bytes(read_key(input)?).ok_or(Unread::Wrong)
}

/// Reads a digest: its 32 bytes.
pub fn read_digest(input: &mut Input) -> Result<Digest, Unread>
    ensures gives { Gives (λ digest. digest.0) result input.new (bytes_at 32 input.old) }
    ensures sure { NeedsNoMemory result }
{
    Ok(Digest(input.array()?))
}

// Reads the bytes of a key.
#[tactic(auto, unfolding(crate::specs::Key::key_at))]
fn read_key(input: &mut Input) -> Result<[u8; 33], Unread>
    ensures read { Gives (λ bytes. bytes) result input.new (key_at input.old) }
    ensures kind { IfOk result (λ bytes. slice_index bytes 0 ≤ 1) }
    ensures sure { NeedsNoMemory result }
{
    let kind = input.byte_up_to(1)?;
    let body: [u8; 32] = input.array()?;
    let mut bytes = [kind; 33];
    bytes[1..].copy_from_slice(&body);
    Ok(bytes)
}
