//! Claims of open keys and of an LMS key, against signatures made elsewhere: `bench/claims/make.py` says which bytes
//! keys and messages have.

use crate::vectors::{LMS_DIGEST, LMS_KEY, LMS_MESSAGE, LMS_SIGNATURE, OPEN};
use hex::FromHex;
use lms_core::PeerScheme;
use scheme_core::{Claim, OpenScheme, VerifyMany, verify_each};
use std::alloc::Global;
use std::test::*;
use willow_path::UserKey;

// What is signed, and a signature of it.
#[derive(Drop)]
struct Signed {
    key: UserKey,
    message: Vec<u8>,
    signature: Vec<u8>,
}

impl Signed {
    // The claim of another signature, with the message cut in two.
    fn claim<'a>(&'a self, cut: usize, signature: &'a [u8]) -> Claim<'a> {
        let (front, rest) = self.message.split_at(cut.min(self.message.len()));
        Claim {
            key: self.key,
            front,
            rest,
            signature,
        }
    }
}

// The open key of a line of the table.
fn open_key(number: usize) -> Option<UserKey> {
    let mut bytes = [0; 33];
    for k in 1..33 {
        bytes[k] = ((7 * k + number % 256) % 256) as u8;
    }
    UserKey::from_bytes(bytes)
}

// The message of so many bytes.
fn message(alloc: Global, length: usize) -> Option<Vec<u8>> {
    let mut bytes = Vec::new(alloc);
    for k in 0..length.min(256) {
        bytes.push(((5 * k + length % 256) % 256) as u8).ok()?;
    }
    Some(bytes)
}

// The bytes that these characters spell.
fn bytes_of(alloc: Global, characters: &str) -> Option<Vec<u8>> {
    hex::decode(alloc, characters).ok()
}

// A key with what it signs.
fn signed_by(key: UserKey, message: Option<Vec<u8>>, signature: Option<Vec<u8>>) -> Option<Signed> {
    match (message, signature) {
        (Some(message), Some(signature)) => Some(Signed {
            key,
            message,
            signature,
        }),
        _ => None,
    }
}

// What the open key of a line of the table signs.
fn open(alloc: Global, number: usize) -> Option<Signed> {
    let (length, signature) = OPEN[number % 9];
    signed_by(
        open_key(number)?,
        message(alloc, length),
        bytes_of(alloc, signature),
    )
}

// What the open keys of the table sign.
fn opens(alloc: Global) -> Option<Vec<Signed>> {
    let mut opens = Vec::new(alloc);
    for number in 0..9 {
        opens.push(open(alloc, number)?).ok()?;
    }
    Some(opens)
}

// The LMS key.
fn lms_key() -> Option<UserKey> {
    UserKey::from_bytes(<[u8; 33] as FromHex>::from_hex(LMS_KEY).ok()?)
}

// Its signature.
fn lms_signature(alloc: Global) -> Option<Vec<u8>> {
    let mut signature = Vec::new(alloc);
    for piece in &LMS_SIGNATURE {
        signature.extend_from_slice(&bytes_of(alloc, piece)?).ok()?;
    }
    Some(signature)
}

// What it signs.
fn lms(alloc: Global) -> Option<Signed> {
    signed_by(
        lms_key()?,
        bytes_of(alloc, LMS_MESSAGE),
        lms_signature(alloc),
    )
}

// Whether a scheme answers the claims so.
fn answers<S: VerifyMany>(
    scheme: &S,
    alloc: Global,
    claims: &[Claim<'_>],
    wanted: &[bool],
) -> bool {
    match scheme.verify_users(alloc, claims) {
        Ok(found) => found.as_slice() == wanted,
        Err(_) => false,
    }
}

// Whether both schemes do.
fn both_answer(alloc: Global, claims: &[Claim<'_>], wanted: &[bool]) -> bool {
    answers(&OpenScheme, alloc, claims, wanted) && answers(&PeerScheme, alloc, claims, wanted)
}

// Claims of open keys, one of which has the signature of the line behind it.
fn row<'a>(alloc: Global, opens: &'a [Signed], wrong: usize) -> Option<Vec<Claim<'a>>> {
    let mut claims = Vec::new(alloc);
    for (number, open) in opens.iter().enumerate() {
        let signer = if number == wrong {
            opens.get((number + 1) % 9).unwrap_or(open)
        } else {
            open
        };
        match claims.push(open.claim(number % 9 * 21, &signer.signature)) {
            Ok(()) => {}
            Err(_) => return None,
        }
    }
    Some(claims)
}

// Whether nine claims, of which one is wrong or none, are answered rightly, and the first of them, however many they are.
fn are_right(alloc: Global, claims: &[Claim<'_>], wrong: usize) -> bool {
    let mut wanted = [true; 9];
    if wrong < 9 {
        wanted[wrong] = false;
    }
    if claims.len() != 9 {
        return false;
    }
    for count in 0..=9 {
        if !both_answer(alloc, &claims[..count], &wanted[..count]) {
            return false;
        }
    }
    true
}

// The same of each row of claims of those keys.
fn are_rows_right(alloc: Global, opens: &[Signed]) -> Option<bool> {
    for wrong in 0..=9 {
        if !are_right(alloc, &row(alloc, opens, wrong)?, wrong) {
            return Some(false);
        }
    }
    Some(true)
}

// The same of the keys of the table.
fn are_opens_right(alloc: Global) -> Option<bool> {
    are_rows_right(alloc, &opens(alloc)?)
}

#[test]
fn rows_of_open_keys(rt: HostRuntime) {
    assert!(rt; are_opens_right(rt.alloc()) == Some(true));
}

// Some bytes and a byte 00.
fn longer(alloc: Global, bytes: &[u8]) -> Option<Vec<u8>> {
    let mut longer = Vec::from_slice(alloc, bytes).ok()?;
    longer.push(0).ok()?;
    Some(longer)
}

// Whether a signature is accepted and none of another length is, of which one is this longer one.
fn is_of_one_length(alloc: Global, open: &Signed, longer: &[u8]) -> Option<bool> {
    let claims = [
        open.claim(40, longer.get(..31)?),
        open.claim(40, longer.get(..32)?),
        open.claim(40, longer),
        open.claim(40, &[]),
    ];
    Some(both_answer(alloc, &claims, &[false, true, false, false]))
}

// The same of a key's signature.
fn has_one_length(alloc: Global, open: &Signed) -> Option<bool> {
    is_of_one_length(alloc, open, &longer(alloc, &open.signature)?)
}

// The same of a key of the table.
fn open_has_one_length(alloc: Global) -> Option<bool> {
    has_one_length(alloc, &open(alloc, 4)?)
}

#[test]
fn signatures_of_other_lengths(rt: HostRuntime) {
    assert!(rt; open_has_one_length(rt.alloc()) == Some(true));
}

// Claims of two open keys and an LMS key, of which the fourth and those behind it but the last are wrong.
fn mixed<'a>(
    first: &'a Signed,
    second: &'a Signed,
    lms: &'a Signed,
    digest: &'a [u8],
) -> [Claim<'a>; 7] {
    [
        first.claim(9, &first.signature),
        lms.claim(5, &lms.signature),
        second.claim(9, &second.signature),
        lms.claim(22, digest),
        second.claim(9, &lms.signature),
        first.claim(0, &second.signature),
        lms.claim(0, &lms.signature),
    ]
}

// Whether the claims are answered so one by one.
fn are_each(alloc: Global, claims: &[Claim<'_>], wanted: &[bool]) -> bool {
    match verify_each(&PeerScheme, alloc, claims) {
        Ok(found) => found.as_slice() == wanted,
        Err(_) => false,
    }
}

// Whether mixed claims are answered so, together, one by one, and by the scheme of open keys alone.
fn are_mixed_right(alloc: Global, claims: &[Claim<'_>; 7]) -> bool {
    let wanted = [true, true, true, false, false, false, true];
    let open_alone = [true, false, true, false, false, false, false];
    answers(&PeerScheme, alloc, claims, &wanted)
        && are_each(alloc, claims, &wanted)
        && answers(&OpenScheme, alloc, claims, &open_alone)
}

// The same of the claims of these keys.
fn is_mix_right(
    alloc: Global,
    first: Option<&Signed>,
    second: Option<&Signed>,
    lms: Option<&Signed>,
    digest: Option<&Vec<u8>>,
) -> Option<bool> {
    let claims = mixed(first?, second?, lms?, digest?);
    Some(are_mixed_right(alloc, &claims))
}

// The same of keys of the tables.
fn are_kinds_right(alloc: Global) -> Option<bool> {
    is_mix_right(
        alloc,
        open(alloc, 1).as_ref(),
        open(alloc, 3).as_ref(),
        lms(alloc).as_ref(),
        bytes_of(alloc, LMS_DIGEST).as_ref(),
    )
}

#[test]
fn keys_of_both_kinds(rt: HostRuntime) {
    assert!(rt; are_kinds_right(rt.alloc()) == Some(true));
}

// Whether a signature is not one of another message.
fn is_of_its_message(alloc: Global, lms: &Signed, other: &[u8]) -> bool {
    let claims = [Claim {
        key: lms.key,
        front: other,
        rest: &[],
        signature: &lms.signature,
    }];
    both_answer(alloc, &claims, &[false])
}

// The same where the other message is a byte longer.
fn differs_by_a_byte(alloc: Global, lms: &Signed) -> Option<bool> {
    let other = longer(alloc, &lms.message)?;
    Some(is_of_its_message(alloc, lms, &other))
}

// The same of the LMS key.
fn lms_differs_by_a_byte(alloc: Global) -> Option<bool> {
    differs_by_a_byte(alloc, &lms(alloc)?)
}

#[test]
fn another_message_of_an_lms_key(rt: HostRuntime) {
    assert!(rt; lms_differs_by_a_byte(rt.alloc()) == Some(true));
}
