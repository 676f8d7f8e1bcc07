//! A key of the RFC's appendix, signatures of its last index, and the shelf's refusals.

use hex::FromHex;
use lms_core::{Height, KeyRefusal, LmsKey, OneUse, PeerScheme, reserve_keys, reserve_keys_on};
use scheme_core::{SignRefusal, Signer, Verify};
use sha2::{Digest, Sha256};
use spelling::End;
use std::alloc::Global;
use std::collections::BTreeMap;
use std::test::*;
use std::thread::{self, Threads};
use willow_outside::{Shelf, SureShelf};
use willow_path::{NamespaceKey, UserKey};

/// The key of RFC 8554, appendix F, test case 2, second level.
fn rfc_key() -> Option<LmsKey> {
    let identifier = <[u8; 16] as FromHex>::from_hex("215f83b7ccb9acbcd08db97b0d04dc2b").ok()?;
    let seed = <[u8; 32] as FromHex>::from_hex(
        "a1c4696e2608035a886100d05cd99945eb3370731884a8235e2fb3d4d71f2547",
    ).ok()?;
    Some(LmsKey::make(Height::H5, identifier, seed))
}

/// The file of that key with another next index.
fn rfc_file(alloc: Global, next: u8) -> Option<Vec<u8>> {
    let mut file = Vec::new(alloc);
    rfc_key()?.encode(&mut file).ok()?;
    file.truncate(56);
    file.push(next).ok()?;
    Some(file)
}

/// The digest of the last index's signature of `abc`.
fn last_digest() -> Option<[u8; 32]> {
    <[u8; 32] as FromHex>::from_hex(
        "306c4f4992e8fe8e9853cc14c6f8306b2dd1adc69287d610d4fc6f1bc527b25d",
    ).ok()
}

/// Whether that key has the RFC's public key, and no index of it is used.
fn is_the_rfcs(key: &LmsKey) -> bool {
    let wanted = <[u8; 56] as FromHex>::from_hex(
        "0000000500000004215f83b7ccb9acbcd08db97b0d04dc2ba1cd035833e0e90059603f26e07ad2aad152338e7a5e5984bcd5f7bb4eba40b7",
    );
    wanted.ok() == Some(key.public()) && key.next() == 0
}

/// The same of the key that is made.
fn made_is_the_rfcs() -> Option<bool> {
    Some(is_the_rfcs(&rfc_key()?))
}

#[test]
fn the_public_key_is_the_rfcs(rt: HostRuntime) {
    assert!(rt; made_is_the_rfcs() == Some(true));
}

/// Whether these are the bytes of a key file of height 5.
fn is_key_file(file: &[u8]) -> bool {
    file.len() == 57 && file.starts_with(b"WKY1\x05") && LmsKey::decode(file).is_some()
}

/// Whether the first file is one, its front is none, and the second is none.
fn are_judged(file: Option<&Vec<u8>>, beyond: Option<&Vec<u8>>) -> Option<[bool; 3]> {
    let (file, beyond) = (file?, beyond?);
    Some([
        is_key_file(file),
        LmsKey::decode(file.get(..56)?).is_none(),
        LmsKey::decode(beyond).is_none(),
    ])
}

/// The same of the file of a spent key, and of one with an index more than the key has.
fn rfc_files_are_judged(alloc: Global) -> Option<[bool; 3]> {
    are_judged(rfc_file(alloc, 32).as_ref(), rfc_file(alloc, 33).as_ref())
}

#[test]
fn key_files(rt: HostRuntime) {
    assert!(rt; rfc_files_are_judged(rt.alloc()) == Some([true; 3]));
}

type Contents = BTreeMap<String, Vec<u8>>;

/// Puts bytes under a name.
fn put(alloc: Global, contents: &mut Contents, name: &str, bytes: Vec<u8>) -> Option<()> {
    let _ = contents
        .insert(String::from_str(alloc, name).ok()?, bytes)
        .ok()?;
    Some(())
}

/// Puts that key's file with another next index under `k`, and a file that is none under `b`.
fn put_files(alloc: Global, contents: &mut Contents, next: u8) -> Option<()> {
    put(alloc, contents, "k", rfc_file(alloc, next)?)?;
    put(alloc, contents, "b", vec![in alloc; 1, 2].ok()?)
}

/// A shelf of those files.
fn shelf_of(alloc: Global, next: u8) -> Option<SureShelf> {
    let mut contents = BTreeMap::new(alloc);
    put_files(alloc, &mut contents, next)?;
    Some(SureShelf::new(alloc, contents))
}

/// Whether the shelf has this file under `k`.
fn has_file(shelf: &mut SureShelf, file: &[u8]) -> bool {
    match shelf.get("k") {
        Ok(Some(kept)) => kept.as_slice() == file,
        _ => false,
    }
}

/// Whether the shelf has that key's file there, as a spent one.
fn is_spent_there(alloc: Global, shelf: &mut SureShelf) -> Option<bool> {
    Some(has_file(shelf, &rfc_file(alloc, 32)?))
}

/// The one signer that is handed out.
fn one_signer(alloc: Global, shelf: &mut SureShelf) -> Option<OneUse> {
    let mut signers = reserve_keys(alloc, shelf, "k", 1).ok()?;
    if signers.len() > 1 {
        return None;
    }
    signers.pop()
}

/// Whether no signer is handed out for this name, and this is why.
fn is_refused(alloc: Global, shelf: &mut SureShelf, name: &str, refusal: KeyRefusal) -> bool {
    match reserve_keys(alloc, shelf, name, 1) {
        Err(End::Refused(why)) => why == refusal,
        _ => false,
    }
}

static REFUSALS: [(&str, KeyRefusal); 3] = [
    ("k", KeyRefusal::KeySpent { next: 32 }),
    ("b", KeyRefusal::BadKeyFile),
    ("c", KeyRefusal::Missing),
];

/// Whether none is for a spent key, for a file that is no key's, and where there is none.
fn are_refused(alloc: Global, shelf: &mut SureShelf) -> bool {
    for (name, refusal) in &REFUSALS {
        if !is_refused(alloc, shelf, name, *refusal) {
            return false;
        }
    }
    true
}

/// Whether this is the last index's signature of `abc`, and is accepted for the key and no other message.
fn is_signature(key: &UserKey, signature: &[u8]) -> bool {
    last_digest() == Some(Sha256::digest(signature))
        && PeerScheme.verify_user(key, b"abc", signature)
        && !PeerScheme.verify_user(key, b"abd", signature)
}

/// Whether it is also accepted for the namespace of the same bytes, which is no communal one.
fn is_owners(key: &UserKey, signature: &[u8]) -> Option<bool> {
    let owner = NamespaceKey::from_bytes(key.to_bytes())?;
    Some(PeerScheme.verify_namespace(&owner, b"abc", signature) && !PeerScheme.is_communal(&owner))
}

/// Whether a signer signs `abc` so.
fn signs(alloc: Global, signer: &mut OneUse) -> Option<bool> {
    let signature = signer.sign(alloc, b"abc").ok()?;
    let key = signer.user_key();
    Some(is_signature(&key, &signature) && is_owners(&key, &signature)?)
}

/// Whether a signer signs no more.
fn is_spent(alloc: Global, signer: &mut OneUse) -> bool {
    match signer.sign(alloc, b"abc") {
        Err(End::Refused(why)) => why == SignRefusal::Spent && signer.left() == 0,
        _ => false,
    }
}

/// Whether a signer has one signature left, gives it, and then no more.
fn signs_once(alloc: Global, signer: &mut OneUse) -> bool {
    signer.left() == 1
        && signs(alloc, signer) == Some(true)
        && signer.left() == 0
        && is_spent(alloc, signer)
}

/// Whether the shelf hands out just one signer, which signs once.
fn hands_out_one(alloc: Global, shelf: &mut SureShelf) -> Option<[bool; 3]> {
    let mut signer = one_signer(alloc, shelf)?;
    let is_put_back = is_spent_there(alloc, shelf) == Some(true);
    let are_refused = are_refused(alloc, shelf);
    Some([is_put_back, are_refused, signs_once(alloc, &mut signer)])
}

/// The same of a shelf with that key's last index.
fn last_is_handed_out(alloc: Global) -> Option<[bool; 3]> {
    hands_out_one(alloc, &mut shelf_of(alloc, 31)?)
}

#[test]
fn the_last_index_signs_once(rt: HostRuntime) {
    assert!(rt; last_is_handed_out(rt.alloc()) == Some([true; 3]));
}

/// The two signers that are handed out over shared leaves.
fn two_signers<R: Threads + Sync>(
    rt: &R,
    alloc: Global,
    shelf: &mut SureShelf,
) -> Option<(OneUse, OneUse)> {
    let mut signers = reserve_keys_on(rt, alloc, shelf, "k", 2).ok()?;
    let last = signers.pop()?;
    Some((signers.pop()?, last))
}

type Signature = Result<Vec<u8>, End<SignRefusal>>;

/// Their signatures of `abc`, each made in a thread of its own.
fn both_sign<R: Threads + Sync>(
    rt: &R,
    alloc: Global,
    signers: (OneUse, OneUse),
) -> (Signature, Signature) {
    let (mut first, mut last) = signers;
    thread::join(
        rt,
        move || first.sign(alloc, b"abc"),
        move || last.sign(alloc, b"abc"),
    )
}

/// Whether the second is the last index's signature, and the first is accepted for the key.
fn are_signatures<R: Threads + Sync>(
    rt: &R,
    alloc: Global,
    early: &[u8],
    late: &[u8],
) -> Option<bool> {
    let key = rfc_key()?.user_key_on(rt, alloc).ok()?;
    let is_last = last_digest() == Some(Sha256::digest(late));
    Some(is_last && PeerScheme.verify_user(&key, b"abc", early))
}

/// The same of what two signers answer.
fn are_signed<R: Threads + Sync>(
    rt: &R,
    alloc: Global,
    signed: &(Signature, Signature),
) -> Option<bool> {
    match signed {
        (Ok(early), Ok(late)) => are_signatures(rt, alloc, early, late),
        _ => None,
    }
}

/// Whether a shelf hands out two signers and then has a spent key, and they sign so.
fn hands_out_two<R: Threads + Sync>(
    rt: &R,
    alloc: Global,
    shelf: &mut SureShelf,
) -> Option<[bool; 2]> {
    let signers = two_signers(rt, alloc, shelf)?;
    let is_put_back = is_spent_there(alloc, shelf) == Some(true);
    let are_signed = are_signed(rt, alloc, &both_sign(rt, alloc, signers));
    Some([is_put_back, are_signed == Some(true)])
}

/// The same of a shelf with that key's last two indices.
fn last_two_are_handed_out<R: Threads + Sync>(rt: &R, alloc: Global) -> Option<[bool; 2]> {
    hands_out_two(rt, alloc, &mut shelf_of(alloc, 30)?)
}

#[test]
fn signers_share_the_leaves(rt: HostRuntime) {
    assert!(rt; last_two_are_handed_out(&rt, rt.alloc()) == Some([true; 2]));
}
