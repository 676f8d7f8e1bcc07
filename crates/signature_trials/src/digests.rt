//! Digests and chains against values made elsewhere: `bench/lanes/make.py` makes the tables, and says which bytes
//! messages, fronts and values have.

use hex::FromHex;
use sha_lanes::{Chain, Message, run_chains, sha256_all, sha256_four};
use sha2::{Digest, Sha256};
use std::test::*;

// Lengths of messages and their digests. Each four of them take equally many blocks.
static DIGESTS: [(usize, &str); 16] = [
    (
        0,
        "e3b0c44298fc1c149afbf4c8996fb92427ae41e4649b934ca495991b7852b855",
    ),
    (
        1,
        "4bf5122f344554c53bde2ebb8cd2b7e3d1600ad631c385a5d7cce23c7785459a",
    ),
    (
        54,
        "489c753a275a13e40359be3b48aa95f2c31e3f9d12e3669c4175116374e0482e",
    ),
    (
        55,
        "c972b40b169ea53d24aaabc597103a78788a5eb6a2e1d1d928ad8ab564e9fec4",
    ),
    (
        56,
        "ff33efb7fd8338ad84abea89f9c776f76152a1657aadd79cdbeb64eed56cd58e",
    ),
    (
        63,
        "788a74da6d9b27ea30bf44baa6060ef15fa422c2ac9177659c2006f14f863662",
    ),
    (
        64,
        "fe87574b5f1618a94ff021a50d7d9cea2458b914871e540f15ea9a35c7d97153",
    ),
    (
        119,
        "bddcbe39877ded343384b1f9147e7e5e712b1952f3fb88a1f6a315f3459facdd",
    ),
    (
        120,
        "78e3760a2639f5a145a7f2dc4dd936d216dfe26d5c4b9b4c8c47d6cd7e029513",
    ),
    (
        127,
        "0dd384bdc81ae3f4253a0a504e68ad900228be53f2c151f2b81865b006434901",
    ),
    (
        128,
        "acc4721daed49a841d165e15e9b78823c9c2290501a9539fb027593f615a2666",
    ),
    (
        183,
        "b0c3d82f8c511425c3637b9fed5c1c0ff3a7ed32c22c374aba9418daea8d0820",
    ),
    (
        184,
        "0db17feee1df33bd7143e27565d83b6b1ecb9bb9bce83c1f9f147525b4164997",
    ),
    (
        200,
        "05df1c3222ac528019d6215b64a8b9d47b4dca8e6191d6841a72791670c39248",
    ),
    (
        246,
        "02cf4d0b3e9072962f86e4bbaf0a31ac8eb47876d6f5e1786b96edfd7a7b87b8",
    ),
    (
        247,
        "cfaddf2e9cbc07bdfa9df395ed0a977424e0ca8c0cb63c61405fc06e52447e0e",
    ),
];

// The digest of the digests of 150 messages, of 37 i modulo 248 bytes for i from 0 on.
const DIGEST_OF_MANY: &str = "32ee7bab07336b3a846d8adbae77db5913a2bb11a41f3aeba0795e089d58e0f7";

// The numbers of the next step and of the one before which a chain ends, and its end.
static ENDS: [(u8, u8, &str); 9] = [
    (
        0,
        255,
        "5b1f239e0b4128a061a3d6e930a612f8be06b76bc8765089e76a2a3f9830791f",
    ),
    (
        0,
        0,
        "01080f161d242b323940474e555c636a71787f868d949ba2a9b0b7bec5ccd3da",
    ),
    (
        0,
        1,
        "288939d66ee28c4d207c23f5ac6432ffc5c5e7d17e0b364ca30f61864459d706",
    ),
    (
        254,
        255,
        "b5581005482df6dea0a5e64f8a1fa6ab1b0509419b16a051b87013e1fcac132e",
    ),
    (
        7,
        100,
        "ebad939fe0d6760269e97cec89279a453d2ef4430761055327b7b7132135830e",
    ),
    (
        100,
        7,
        "050c131a21282f363d444b525960676e757c838a91989fa6adb4bbc2c9d0d7de",
    ),
    (
        255,
        255,
        "060d141b222930373e454c535a61686f767d848b9299a0a7aeb5bcc3cad1d8df",
    ),
    (
        3,
        4,
        "76b62a5ae14b14fde4cc01dcf4298ce652ef42428e15065b3853086209100cd6",
    ),
    (
        128,
        201,
        "f8539cb058a8a0cd0aa204c24d3ca17300e2a46657c87e73dcc0bfe5d88a6fb7",
    ),
];

// The bytes that the message of so many bytes begins with.
fn filled(length: usize) -> [u8; 256] {
    let mut bytes = [0; 256];
    for k in 0..256 {
        bytes[k] = ((5 * k + length % 256) % 256) as u8;
    }
    bytes
}

// A message of so many bytes, cut in two.
fn message(bytes: &[u8; 256], length: usize, cut: usize) -> Message<'_> {
    let end = length.min(256);
    let middle = cut.min(end);
    Message {
        front: &bytes[..middle],
        rest: &bytes[middle..end],
    }
}

// The digests of four messages, if they have equally many blocks.
fn four(messages: &[Message<'_>; 4]) -> Option<[[u8; 32]; 4]> {
    let [first, second, third, fourth] = *messages;
    let count = first.block_count();
    if second.block_count() == count
        && third.block_count() == count
        && fourth.block_count() == count
    {
        Some(sha256_four(&[first, second, third, fourth]))
    } else {
        None
    }
}

// The bytes that these characters spell.
fn bytes_of(characters: &str) -> Option<[u8; 32]> {
    <[u8; 32] as FromHex>::from_hex(characters).ok()
}

// The length of the message of a line of the table.
fn length_of(number: usize) -> usize {
    DIGESTS[number % 16].0
}

// Whether this is the digest of a line of the table.
fn is_digest(number: usize, digest: &[u8; 32]) -> bool {
    bytes_of(DIGESTS[number % 16].1) == Some(*digest)
}

// Whether these are the digests of four lines of the table.
fn are_digests(lines: &[usize; 4], digests: &[[u8; 32]; 4]) -> bool {
    for k in 0..4 {
        if !is_digest(lines[k], &digests[k]) {
            return false;
        }
    }
    true
}

// Whether the digests of the messages of four lines of the table are right, and that of the first alone, where they are
// cut there.
fn are_right(lines: &[usize; 4], bytes: &[[u8; 256]; 4], cut: usize) -> bool {
    let messages = [
        message(&bytes[0], length_of(lines[0]), cut),
        message(&bytes[1], length_of(lines[1]), cut),
        message(&bytes[2], length_of(lines[2]), cut),
        message(&bytes[3], length_of(lines[3]), cut),
    ];
    let is_first_right = is_digest(lines[0], &messages[0].digest());
    match four(&messages) {
        Some(digests) => is_first_right && are_digests(lines, &digests),
        None => false,
    }
}

// The lines of a group of the table, in whichever lane each of them stands.
fn group_lines(group: usize, lane: usize) -> [usize; 4] {
    let first = 4 * (group % 4);
    [
        first + lane % 4,
        first + (lane % 4 + 1) % 4,
        first + (lane % 4 + 2) % 4,
        first + (lane % 4 + 3) % 4,
    ]
}

// Whether the digests of such a group are right.
fn is_group_right(group: usize, lane: usize, cut: usize) -> bool {
    let lines = group_lines(group, lane);
    let bytes = [
        filled(length_of(lines[0])),
        filled(length_of(lines[1])),
        filled(length_of(lines[2])),
        filled(length_of(lines[3])),
    ];
    are_right(&lines, &bytes, cut)
}

#[test]
fn digests_of_four(rt: HostRuntime) {
    for group in 0..4 {
        for lane in 0..4 {
            for cut in [0, 1, 22, 64, 100, 247] {
                assert!(rt; is_group_right(group, lane, cut));
            }
        }
    }
}

// The lines of the table of which a list is made.
static LIST: [usize; 9] = [3, 8, 0, 7, 4, 5, 1, 6, 15];

// The digests of the first messages of a list.
fn list_digests(bytes: &[[u8; 256]; 9], count: usize) -> [[u8; 32]; 9] {
    let mut messages = [Message {
        front: &[],
        rest: &[],
    }; 9];
    for k in 0..9 {
        messages[k] = message(&bytes[k], length_of(LIST[k]), 22);
    }
    let mut digests = [[0; 32]; 9];
    let end = count.min(9);
    sha256_all(&messages[..end], &mut digests[..end]);
    digests
}

// Whether the digests of the first messages of the list are right.
fn is_list_right(count: usize) -> bool {
    let mut bytes = [[0; 256]; 9];
    for k in 0..9 {
        bytes[k] = filled(length_of(LIST[k]));
    }
    let digests = list_digests(&bytes, count);
    for k in 0..count.min(9) {
        if !is_digest(LIST[k], &digests[k]) {
            return false;
        }
    }
    true
}

#[test]
fn digests_of_lists(rt: HostRuntime) {
    for count in 0..=9 {
        assert!(rt; is_list_right(count));
    }
}

// The bytes of 150 messages.
fn many_filled() -> [[u8; 256]; 150] {
    let mut bytes = [[0; 256]; 150];
    for i in 0..150 {
        bytes[i] = filled(37 * i % 248);
    }
    bytes
}

// Their digests.
fn many_digests(bytes: &[[u8; 256]; 150]) -> [[u8; 32]; 150] {
    let mut messages = [Message {
        front: &[],
        rest: &[],
    }; 150];
    for i in 0..150 {
        messages[i] = message(&bytes[i], 37 * i % 248, i);
    }
    let mut digests = [[0; 32]; 150];
    sha256_all(&messages, &mut digests);
    digests
}

// The digest of these.
fn digest_of_many(digests: &[[u8; 32]; 150]) -> [u8; 32] {
    let mut hasher = Sha256::new();
    for digest in digests {
        hasher.update(digest);
    }
    hasher.finalize()
}

#[test]
fn digests_of_many(rt: HostRuntime) {
    let digest = digest_of_many(&many_digests(&many_filled()));
    assert!(rt; bytes_of(DIGEST_OF_MANY) == Some(digest));
}

// A chain of the table.
fn chain(number: usize) -> Chain {
    let mut front = [0; 22];
    for k in 0..22 {
        front[k] = ((11 * k + number % 256) % 256) as u8;
    }
    let mut value = [0; 32];
    for k in 0..32 {
        value[k] = ((7 * k + number % 256) % 256) as u8;
    }
    let (at, to, _) = ENDS[number % 9];
    Chain {
        front,
        at,
        to,
        value,
    }
}

// Whether a chain is at the end that the table says.
fn is_at_end(number: usize, chain: &Chain) -> bool {
    let (at, to, end) = ENDS[number % 9];
    chain.at == at.max(to) && bytes_of(end) == Some(chain.value)
}

// Whether the first chains of the table come to their ends.
fn come_to_their_ends(count: usize) -> bool {
    let mut chains = [chain(0); 9];
    for k in 0..9 {
        chains[k] = chain(k);
    }
    let end = count.min(9);
    run_chains(&mut chains[..end]);
    for k in 0..end {
        if !is_at_end(k, &chains[k]) {
            return false;
        }
    }
    true
}

#[test]
fn ends_of_chains(rt: HostRuntime) {
    for count in 0..=9 {
        assert!(rt; come_to_their_ends(count));
    }
}
