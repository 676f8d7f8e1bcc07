//! Words side by side, and the operations on words of FIPS 180-4, section 3.2, in each lane.

ghost use Rattle.std.specs.Prelude.{slice_index, ◌<◌, ◌/◌, ◌*◌, ◌%◌, ◌^◌, bit_and, bit_or, bit_xor};
ghost use Rattle.std.specs.Int.{w32, rotate_right};
ghost use Rattle.sha2.specs.Sha256.{add32};
ghost use Rattle.sha_lanes.specs.Lanes.{HasLanes};

use std::simd::prelude::*;

/// Four words, one a lane.
pub(crate) type Vector = u32x4;

/// The sums modulo 2^32.
#[inline(always)]
pub(crate) fn add(x: Vector, y: Vector) -> Vector
    ensures { HasLanes result (λ l. add32 (slice_index x l) (slice_index y l)) }
{
    x + y
}

/// The exclusive disjunctions, bit by bit.
#[inline(always)]
pub(crate) fn xor(x: Vector, y: Vector) -> Vector
    ensures { HasLanes result (λ l. bit_xor (slice_index x l) (slice_index y l)) }
{
    x ^ y
}

/// The conjunctions, bit by bit.
#[inline(always)]
pub(crate) fn and(x: Vector, y: Vector) -> Vector
    ensures { HasLanes result (λ l. bit_and (slice_index x l) (slice_index y l)) }
{
    x & y
}

/// The disjunctions, bit by bit.
#[inline(always)]
fn or(x: Vector, y: Vector) -> Vector
    ensures { HasLanes result (λ l. bit_or (slice_index x l) (slice_index y l)) }
{
    x | y
}

/// The words shifted right: SHR.
#[inline(always)]
pub(crate) fn shift_right(x: Vector, count: u32) -> Vector
    requires { count < 32 }
    ensures { HasLanes result (λ l. slice_index x l / 2 ^ count) }
{
    x >> Vector::splat(count)
}

/// The words shifted left, without the bits that leave the word.
#[inline(always)]
pub(crate) fn shift_left(x: Vector, count: u32) -> Vector
    requires { count < 32 }
    ensures { HasLanes result (λ l. slice_index x l * 2 ^ count % 2 ^ 32) }
{
    x << Vector::splat(count)
}

/// The words rotated right: ROTR.
#[inline(always)]
pub(crate) fn rotate_right(x: Vector, count: u32) -> Vector
    requires low { 0 < count }
    requires high { count < 32 }
    ensures { HasLanes result (λ l. rotate_right w32 (slice_index x l) count) }
{
    or(shift_right(x, count), shift_left(x, 32 - count))
}
