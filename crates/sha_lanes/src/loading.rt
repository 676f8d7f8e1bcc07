//! Bytes into lanes.

ghost use Rattle.std.specs.Prelude.{◌≡◌, ℕ, ◌+◌, ◌<◌, ◌≤◌, length};
ghost use Rattle.sha2.specs.Sha256.{digest_bytes, word_at};
ghost use Rattle.sha_lanes.specs.Lanes.{HasLanes, hash_in, one_of};

use crate::compression::State;
use crate::vectors::Vector;
use std::simd::prelude::*;

/// The word at byte `at`, high byte first.
#[inline(always)]
fn load_word(bytes: &[u8], at: usize) -> u32
    requires { at + 4 ≤ length bytes.now }
    ensures { result ≡ word_at bytes.now at }
{
    let mut word = [0; 4];
    word.copy_from_slice(&bytes[at..at + 4]);
    u32::from_be_bytes(word)
}

/// The words at byte `at` of four strings, one a lane.
#[inline(always)]
pub(crate) fn load_words(
    first: &[u8],
    second: &[u8],
    third: &[u8],
    fourth: &[u8],
    at: usize,
) -> Vector
    requires first { at + 4 ≤ length first.now }
    requires second { at + 4 ≤ length second.now }
    requires third { at + 4 ≤ length third.now }
    requires fourth { at + 4 ≤ length fourth.now }
    ensures { HasLanes result (λ l. word_at (one_of first.now second.now third.now fourth.now l) at) }
{
    Vector::from_array([
        load_word(first, at),
        load_word(second, at),
        load_word(third, at),
        load_word(fourth, at),
    ])
}

/// Four digests, one a lane.
pub(crate) fn load_digests(
    first: &[u8; 32],
    second: &[u8; 32],
    third: &[u8; 32],
    fourth: &[u8; 32],
) -> State
    ensures { (l : ℕ) → l < 4 → digest_bytes (hash_in result l) 8 ≡ one_of first.now second.now third.now fourth.now l }
{
    State {
        a: load_words(first, second, third, fourth, 0),
        b: load_words(first, second, third, fourth, 4),
        c: load_words(first, second, third, fourth, 8),
        d: load_words(first, second, third, fourth, 12),
        e: load_words(first, second, third, fourth, 16),
        f: load_words(first, second, third, fourth, 20),
        g: load_words(first, second, third, fourth, 24),
        h: load_words(first, second, third, fourth, 28),
    }
}

/// Four hash values, one a lane.
pub(crate) fn load_values(
    first: &[u32; 8],
    second: &[u32; 8],
    third: &[u32; 8],
    fourth: &[u32; 8],
) -> State
    ensures { (l : ℕ) → l < 4 → hash_in result l ≡ one_of first.now second.now third.now fourth.now l }
{
    State {
        a: Vector::from_array([first[0], second[0], third[0], fourth[0]]),
        b: Vector::from_array([first[1], second[1], third[1], fourth[1]]),
        c: Vector::from_array([first[2], second[2], third[2], fourth[2]]),
        d: Vector::from_array([first[3], second[3], third[3], fourth[3]]),
        e: Vector::from_array([first[4], second[4], third[4], fourth[4]]),
        f: Vector::from_array([first[5], second[5], third[5], fourth[5]]),
        g: Vector::from_array([first[6], second[6], third[6], fourth[6]]),
        h: Vector::from_array([first[7], second[7], third[7], fourth[7]]),
    }
}
