//! Steps of four chains, one a lane. A step hashes one block: 22 bytes of a front, the step's number in one byte,
//! the 32 bytes of a value, and the padding.

ghost use Rattle.std.specs.Prelude.{◌≡◌, ℕ, List, [], ◌∷◌, ◌++◌, ◌+◌, ◌<◌, ◌≤◌, length, slice_index};
ghost use Rattle.sha2.specs.Sha256.{digest_bytes};
ghost use Rattle.sha_lanes.specs.Lanes.{HasLanes, IsSchedule, hash_in, one_of, words_of};
ghost use Rattle.sha_lanes.specs.Step.{AreSums, IsBegun, IsFront, IsMidstate, IsNumbered, IsReady, IsStepOf, joined, step_block};
ghost use Rattle.sha_lanes.specs.Chain.{run, step};

use crate::compression::{
    State, add_states, first_five_rounds, initial_state, round_and_word, rounds_from,
};
use crate::functions::{small_sigma0, small_sigma1};
use crate::loading::load_words;
use crate::schedule::next_word;
use crate::vectors::{Vector, add, shift_left, shift_right};
use std::simd::prelude::*;

/// Four fronts, one a lane, with room for a number behind each.
pub(crate) fn load_fronts(
    first: &[u8; 22],
    second: &[u8; 22],
    third: &[u8; 22],
    fourth: &[u8; 22],
) -> [Vector; 6]
    ensures { (l : ℕ) → l < 4 → IsFront (words_of result l) (one_of first.now second.now third.now fourth.now l) }
{
    let ends = load_words(first, second, third, fourth, 18);
    [
        load_words(first, second, third, fourth, 0),
        load_words(first, second, third, fourth, 4),
        load_words(first, second, third, fourth, 8),
        load_words(first, second, third, fourth, 12),
        load_words(first, second, third, fourth, 16),
        shift_right(shift_left(ends, 16), 8),
    ]
}

/// The last words of the numbered fronts: in the last three bytes of each, the last two of the front and the number.
#[inline(always)]
fn numbered(fronts: &[Vector; 6], numbers: Vector) -> Vector
    ensures { (l : ℕ) (front : List ℕ) → l < 4 → slice_index numbers l < 256 → IsFront (words_of fronts.now l) front
        → IsNumbered (slice_index result l) (front ++ slice_index numbers l ∷ []) }
{
    add(fronts[5], numbers)
}

/// The words of the last three bytes of each lane of `x`, and the first of `y`'s.
#[inline(always)]
fn joined(x: Vector, y: Vector) -> Vector
    ensures { HasLanes result (λ l. joined (slice_index x l) (slice_index y l)) }
{
    add(shift_left(x, 8), shift_right(y, 24))
}

/// What words 16 to 19 of the schedules have of words 0 to 4 and of word 15. Word 14 is 0 and adds nothing.
#[derive(Clone, Copy)]
struct Sums {
    word_16: Vector,
    word_17: Vector,
    word_18: Vector,
    word_19: Vector,
}

/// What the steps of one run have in common: words 0 to 4 of their blocks are the front's, and words 14 and 15 are the
/// padding's.
#[derive(Drop)]
struct Midstate {
    /// The working variables behind the rounds of words 0 to 4.
    state: State,
    sums: Sums,
}

/// How many bits a step hashes: the last word of the padding.
const BITS: u32 = 440;

/// What words 16 to 19 have of the words that the steps of one run share.
fn shared_sums(fronts: &[Vector; 6]) -> Sums
    ensures { (l : ℕ) (b : List ℕ) → l < 4 → IsStepOf (words_of fronts.now l) b → AreSums result l b }
{
    let length = small_sigma1(Vector::splat(BITS));
    Sums {
        word_16: add(small_sigma0(fronts[1]), fronts[0]),
        word_17: add(add(length, small_sigma0(fronts[2])), fronts[1]),
        word_18: add(small_sigma0(fronts[3]), fronts[2]),
        word_19: add(small_sigma0(fronts[4]), fronts[3]),
    }
}

/// Puts the words that the steps of one run share in their places, and makes what follows from them.
fn begin(words: &mut [Vector; 64], fronts: &[Vector; 6]) -> Midstate
    ensures words { (l : ℕ) (front : List ℕ) → l < 4 → IsFront (words_of fronts.now l) front → IsBegun (words_of words.new l) front }
    ensures midstate { (l j : ℕ) (front value : List ℕ) → l < 4 → IsFront (words_of fronts.now l) front → length value ≡ 32
        → IsMidstate result l (step_block front j value) }
{
    words[0] = fronts[0];
    words[1] = fronts[1];
    words[2] = fronts[2];
    words[3] = fronts[3];
    words[4] = fronts[4];
    words[14] = Vector::splat(0);
    words[15] = Vector::splat(BITS);
    Midstate {
        state: first_five_rounds(words, initial_state()),
        sums: shared_sums(fronts),
    }
}

/// Puts words 5 to 13 of the steps' blocks: the ends of the numbered fronts, the values, and the padding's first byte.
#[inline(always)]
fn put_values(words: &mut [Vector; 64], ends: Vector, value: State)
    ensures { (l j : ℕ) (front : List ℕ) → l < 4 → IsBegun (words_of words.old l) front → IsNumbered (slice_index ends l) (front ++ j ∷ [])
        → IsSchedule (words_of words.new l) (step_block front j (digest_bytes (hash_in value l) 8)) 16 }
{
    words[5] = joined(ends, value.a);
    words[6] = joined(value.a, value.b);
    words[7] = joined(value.b, value.c);
    words[8] = joined(value.c, value.d);
    words[9] = joined(value.d, value.e);
    words[10] = joined(value.e, value.f);
    words[11] = joined(value.f, value.g);
    words[12] = joined(value.g, value.h);
    words[13] = joined(value.h, Vector::splat(0x8000_0000));
}

/// Puts words 16 to 20 of the schedules, the first four of them out of what the steps share.
#[inline(always)]
fn put_next_words(words: &mut [Vector; 64], midstate: &Midstate)
    ensures { (l : ℕ) (b : List ℕ) → l < 4 → AreSums midstate.now.sums l b → IsSchedule (words_of words.old l) b 16
        → IsSchedule (words_of words.new l) b 21 }
{
    words[16] = add(midstate.sums.word_16, words[9]);
    words[17] = add(midstate.sums.word_17, words[10]);
    words[18] = add(
        small_sigma1(words[16]),
        add(midstate.sums.word_18, words[11]),
    );
    words[19] = add(
        small_sigma1(words[17]),
        add(midstate.sums.word_19, words[12]),
    );
    words[20] = next_word(words, 20);
}

/// One step: the digests of 55 bytes, the 23 of a numbered front and the 32 of a value. The words have what the steps of
/// the run share, and have it again behind the step.
#[inline(always)]
fn hash_step(words: &mut [Vector; 64], midstate: &Midstate, ends: Vector, value: State) -> State
    ensures words { (l j : ℕ) (front : List ℕ) → l < 4 → IsReady words.old midstate.now ends value l front j → IsBegun (words_of words.new l) front }
    ensures digest { (l j : ℕ) (front : List ℕ) → l < 4 → IsReady words.old midstate.now ends value l front j
        → digest_bytes (hash_in result l) 8 ≡ step front j (digest_bytes (hash_in value l) 8) }
{
    put_values(words, ends, value);
    put_next_words(words, midstate);
    let v = round_and_word(words, midstate.state, 5);
    let v = round_and_word(words, v, 6);
    let v = round_and_word(words, v, 7);
    add_states(initial_state(), rounds_from(words, v, 1))
}

/// The values `count` steps on, from the steps of these numbers on.
pub(crate) fn run_steps(fronts: &[Vector; 6], numbers: Vector, count: u8, values: State) -> State
    ensures { (l : ℕ) (front : List ℕ) → l < 4 → slice_index numbers l + count ≤ 256 → IsFront (words_of fronts.now l) front
        → digest_bytes (hash_in result l) 8 ≡ run front (slice_index numbers l) count (digest_bytes (hash_in values l) 8) }
{
    let mut words = [Vector::splat(0); 64];
    let midstate = begin(&mut words, fronts);
    let mut reached = values;
    'steps: for done in 0..count {
        let at = add(numbers, Vector::splat(u32::from(done)));
        reached = hash_step(&mut words, &midstate, numbered(fronts, at), reached);
    }
    reached
}
