//! The six functions of SHA-256 (FIPS 180-4, 4.1.2) on a word of each lane.
//!
//! The rotations of one word are nested, so that fewer copies of it are made where an instruction
//! overwrites what it reads.

ghost use Rattle.std.specs.Prelude.{◌≡◌, slice_index};
ghost use Rattle.sha2.specs.Sha256.{big_sigma0, big_sigma1, ch, maj, small_sigma0, small_sigma1};
ghost use Rattle.bv_lanes.specs.Lanes.{EachLane};

use crate::vectors::{Words, and, not, rotate, shift_right, xor};

/// The upper case Σ 0: rotations by 2, 13 and 22.
#[inline]
pub(crate) fn upper_sigma0(x: Words) -> Words
    ensures { EachLane (λ j. slice_index result j ≡ big_sigma0 (slice_index x j)) }
{
    rotate(xor(x, rotate(xor(x, rotate(x, 9)), 11)), 2)
}

/// The upper case Σ 1: rotations by 6, 11 and 25.
#[inline]
pub(crate) fn upper_sigma1(x: Words) -> Words
    ensures { EachLane (λ j. slice_index result j ≡ big_sigma1 (slice_index x j)) }
{
    rotate(xor(x, rotate(xor(x, rotate(x, 14)), 5)), 6)
}

/// The lower case σ 0: rotations by 7 and 18, and a shift by 3.
#[inline]
pub(crate) fn lower_sigma0(x: Words) -> Words
    ensures { EachLane (λ j. slice_index result j ≡ small_sigma0 (slice_index x j)) }
{
    xor(rotate(xor(x, rotate(x, 11)), 7), shift_right(x, 3))
}

/// The lower case σ 1: rotations by 17 and 19, and a shift by 10.
#[inline]
pub(crate) fn lower_sigma1(x: Words) -> Words
    ensures { EachLane (λ j. slice_index result j ≡ small_sigma1 (slice_index x j)) }
{
    xor(rotate(xor(x, rotate(x, 2)), 17), shift_right(x, 10))
}

/// Ch: each bit of `x` picks that of `y` or of `z`.
#[inline]
pub(crate) fn choose(x: Words, y: Words, z: Words) -> Words
    ensures { EachLane (λ j. slice_index result j
        ≡ ch (slice_index x j) (slice_index y j) (slice_index z j)) }
{
    xor(and(x, y), and(not(x), z))
}

/// Maj: each bit is the one that two of the three have.
///
/// The exclusive or of `x` and `y` is that of `y` and `z` in the next round, so it is made once.
#[inline]
pub(crate) fn majority(x: Words, y: Words, z: Words) -> Words
    ensures { EachLane (λ j. slice_index result j
        ≡ maj (slice_index x j) (slice_index y j) (slice_index z j)) }
{
    xor(y, and(xor(x, y), xor(y, z)))
}
