//! The message schedules of four blocks (FIPS 180-4, section 6.2.2).

ghost use Rattle.std.specs.Prelude.{ℕ, ◌<◌, ◌≤◌};
ghost use Rattle.sha2.specs.Sha256.{next_word};
ghost use Rattle.sha_lanes.specs.Lanes.{HasLanes, IsBlock, one_of, words_of};

use crate::functions::{small_sigma0, small_sigma1};
use crate::loading::load_words;
use crate::vectors::{Vector, add};
use std::simd::prelude::*;

/// The first 16 words of the schedules: those of the blocks.
#[inline(always)]
pub(crate) fn first_words(
    first: &[u8; 64],
    second: &[u8; 64],
    third: &[u8; 64],
    fourth: &[u8; 64],
) -> [Vector; 16]
    ensures { (l : ℕ) → l < 4 → IsBlock (words_of result l) (one_of first.now second.now third.now fourth.now l) }
{
    let mut words = [Vector::splat(0); 16];
    'words: for t in 0..16 {
        words[t] = load_words(first, second, third, fourth, 4 * t);
    }
    words
}

/// Word `t` of the schedules, from word 16 on.
#[inline(always)]
pub(crate) fn next_word(words: &[Vector; 64], t: usize) -> Vector
    requires low { 16 ≤ t }
    requires high { t < 64 }
    ensures { HasLanes result (λ l. next_word (words_of words.now l) t) }
{
    let first = add(small_sigma1(words[t - 2]), words[t - 7]);
    let second = add(first, small_sigma0(words[t - 15]));
    add(second, words[t - 16])
}
