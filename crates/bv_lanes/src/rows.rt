//! Eight words of each block: loaded as a row for each block, turned into a vector for each word.

ghost use Rattle.std.specs.Prelude.{◌≡◌, ℕ, ◌+◌, ◌*◌, ◌<◌, ◌≤◌, [], ◌∷◌, slice_index};
ghost use Rattle.sha2.specs.Sha256.{word_at};
ghost use Rattle.bv_lanes.specs.Lanes.{EachLane, four_words, lane_word};
ghost use Rattle.bv_lanes.specs.Messages.{message_at};

use crate::message::{Block, Message};
use crate::vectors::Words;
use crate::words::block_word;

/// A row for each block, or a vector for each word.
type Square = [Words; 8];

/// The eight words from byte `at` of a block on.
#[inline]
fn row(block: &Block, at: usize) -> Words
    requires { at + 32 ≤ 8192 }
    ensures { EachLane (λ k. slice_index result k ≡ word_at block.now (at + 4 * k)) }
{
    Words::from_array([
        block_word(block, at),
        block_word(block, at + 4),
        block_word(block, at + 8),
        block_word(block, at + 12),
        block_word(block, at + 16),
        block_word(block, at + 20),
        block_word(block, at + 24),
        block_word(block, at + 28),
    ])
}

/// The rows of the blocks from byte `at` on.
#[inline]
fn block_rows(messages: &[Message; 8], at: usize) -> Square
    requires { at + 32 ≤ 8192 }
    ensures { EachLane (λ j. EachLane (λ k. lane_word result j k
        ≡ word_at (message_at messages.now j).block.now (at + 4 * k))) }
{
    [
        row(messages[0].block, at),
        row(messages[1].block, at),
        row(messages[2].block, at),
        row(messages[3].block, at),
        row(messages[4].block, at),
        row(messages[5].block, at),
        row(messages[6].block, at),
        row(messages[7].block, at),
    ]
}

/// The first two words of each half of two rows, word by word.
#[inline]
fn low_pairs(a: Words, b: Words) -> Words
    ensures { result ≡ slice_index a 0 ∷ slice_index b 0 ∷ slice_index a 1 ∷ slice_index b 1
        ∷ slice_index a 4 ∷ slice_index b 4 ∷ slice_index a 5 ∷ slice_index b 5 ∷ [] }
{
    a.shuffle(b, [0, 8, 1, 9, 4, 12, 5, 13])
}

/// The last two words of each half of two rows, word by word.
#[inline]
fn high_pairs(a: Words, b: Words) -> Words
    ensures { result ≡ slice_index a 2 ∷ slice_index b 2 ∷ slice_index a 3 ∷ slice_index b 3
        ∷ slice_index a 6 ∷ slice_index b 6 ∷ slice_index a 7 ∷ slice_index b 7 ∷ [] }
{
    a.shuffle(b, [2, 10, 3, 11, 6, 14, 7, 15])
}

/// The first two words of each half of two vectors, two by two.
#[inline]
fn low_quads(a: Words, b: Words) -> Words
    ensures { result ≡ slice_index a 0 ∷ slice_index a 1 ∷ slice_index b 0 ∷ slice_index b 1
        ∷ slice_index a 4 ∷ slice_index a 5 ∷ slice_index b 4 ∷ slice_index b 5 ∷ [] }
{
    a.shuffle(b, [0, 1, 8, 9, 4, 5, 12, 13])
}

/// The last two words of each half of two vectors, two by two.
#[inline]
fn high_quads(a: Words, b: Words) -> Words
    ensures { result ≡ slice_index a 2 ∷ slice_index a 3 ∷ slice_index b 2 ∷ slice_index b 3
        ∷ slice_index a 6 ∷ slice_index a 7 ∷ slice_index b 6 ∷ slice_index b 7 ∷ [] }
{
    a.shuffle(b, [2, 3, 10, 11, 6, 7, 14, 15])
}

/// The first halves of two vectors.
#[inline]
fn low_halves(a: Words, b: Words) -> Words
    ensures { result ≡ slice_index a 0 ∷ slice_index a 1 ∷ slice_index a 2 ∷ slice_index a 3
        ∷ slice_index b 0 ∷ slice_index b 1 ∷ slice_index b 2 ∷ slice_index b 3 ∷ [] }
{
    a.shuffle(b, [0, 1, 2, 3, 8, 9, 10, 11])
}

/// The last halves of two vectors.
#[inline]
fn high_halves(a: Words, b: Words) -> Words
    ensures { result ≡ slice_index a 4 ∷ slice_index a 5 ∷ slice_index a 6 ∷ slice_index a 7
        ∷ slice_index b 4 ∷ slice_index b 5 ∷ slice_index b 6 ∷ slice_index b 7 ∷ [] }
{
    a.shuffle(b, [4, 5, 6, 7, 12, 13, 14, 15])
}

/// Words 0 and 4, 1 and 5, 2 and 6, 3 and 7 of four rows.
#[inline]
fn four_turned(a: Words, b: Words, c: Words, d: Words) -> [Words; 4]
    ensures { result ≡ four_words a b c d 0 ∷ four_words a b c d 1
        ∷ four_words a b c d 2 ∷ four_words a b c d 3 ∷ [] }
{
    let (low, high) = (low_pairs(a, b), high_pairs(a, b));
    let (next_low, next_high) = (low_pairs(c, d), high_pairs(c, d));
    [
        low_quads(low, next_low),
        high_quads(low, next_low),
        low_quads(high, next_high),
        high_quads(high, next_high),
    ]
}

/// Rows turned: vector k has word k of each row.
#[inline]
fn turned(rows: &Square) -> Square
    ensures { EachLane (λ k. EachLane (λ j. lane_word result k j ≡ lane_word rows.now j k)) }
{
    let front = four_turned(rows[0], rows[1], rows[2], rows[3]);
    let back = four_turned(rows[4], rows[5], rows[6], rows[7]);
    [
        low_halves(front[0], back[0]),
        low_halves(front[1], back[1]),
        low_halves(front[2], back[2]),
        low_halves(front[3], back[3]),
        high_halves(front[0], back[0]),
        high_halves(front[1], back[1]),
        high_halves(front[2], back[2]),
        high_halves(front[3], back[3]),
    ]
}

/// The eight words of each block from byte `at` on, a vector for each word.
#[inline]
pub(crate) fn eight_block_words(messages: &[Message; 8], at: usize) -> Square
    requires { at + 32 ≤ 8192 }
    ensures { EachLane (λ k. EachLane (λ j. lane_word result k j
        ≡ word_at (message_at messages.now j).block.now (at + 4 * k))) }
{
    turned(&block_rows(messages, at))
}
