//! The words of the messages with their padding, piece by piece (FIPS 180-4, 5.1.1 and 5.2.1).
//!
//! A message has 8,204 bytes, which are 2,051 words: 3 of the prefix and 2,048 of the block. It
//! ends 12 bytes into piece 128, which also holds the whole padding.

ghost use Rattle.std.specs.Prelude.{◌≡◌, ℕ, ◌+◌, ◌-◌, ◌*◌, ◌<◌, ◌≤◌, ◌⊎◌, [], length, slice_index, slice_index_or};
ghost use Rattle.sha2.specs.Sha256.{word_at};
ghost use Rattle.bv_lanes.specs.Lanes.{EachLane, HasWords, lane_word, lane_words};
ghost use Rattle.bv_lanes.specs.Messages.{IsMessage, message_at, piece_of};

use crate::message::Message;
use crate::rows::eight_block_words;
use crate::schedule::Window;
use crate::vectors::splat;
use crate::words::{block_words, prefix_words};

/// The last piece, counted from 0.
pub(crate) const LAST_PIECE: usize = 128;

/// The words of a prefix.
const PREFIX_WORDS: usize = 3;

/// The bytes of a word.
const WORD_LEN: usize = 4;

/// The first word of the padding: a bit 1, then zeros.
const END_OF_MESSAGE: u32 = 0x8000_0000;

/// The length of a message in bits.
const MESSAGE_BITS: u32 = 8204 * 8;

/// Puts the words from `first` up to `end` of a piece into their places: the blocks have them.
#[inline]
fn put_block_words(
    words: &mut Window,
    messages: &[Message; 8],
    piece: usize,
    first: usize,
    end: usize,
)
    requires after_prefix { 3 ≤ 16 * piece + first }
    requires in_block { 16 * piece + end ≤ 2051 }
    requires in_piece { end ≤ 16 }
    requires order { first ≤ end }
    ensures put { (t : ℕ) → first ≤ t → t < end → EachLane (λ j. lane_word words.new t j
        ≡ word_at (message_at messages.now j).block.now (4 * (16 * piece + t - 3))) }
    ensures kept { (t : ℕ) → (t < first) ⊎ (end ≤ t)
        → slice_index_or words.new t [] ≡ slice_index_or words.old t [] }
    // What the type says.
    ensures sizes { first < end
        → EachLane (λ j. length (message_at messages.now j).block.now ≡ 8192) }
{
    'words: for t in first..end {
        words[t] = block_words(messages, WORD_LEN * (16 * piece + t - PREFIX_WORDS));
    }
}

/// Puts the words of piece 0: those of the prefix, and the first 13 of the block.
pub(crate) fn put_first_words(words: &mut Window, messages: &[Message; 8])
    ensures words { EachLane (λ j. HasWords (lane_words j words.new)
        (piece_of (message_at messages.now j) 0)) }
    // What the type says.
    ensures sizes { EachLane (λ j. IsMessage (message_at messages.now j)) }
{
    *words = [splat(0); 16];
    words[0] = prefix_words(messages, 0);
    words[1] = prefix_words(messages, 4);
    words[2] = prefix_words(messages, 8);
    put_block_words(words, messages, 0, PREFIX_WORDS, 16);
}

/// Puts the words of a piece between the first and the last: all of them are the block's.
#[inline]
pub(crate) fn put_middle_words(words: &mut Window, messages: &[Message; 8], piece: usize)
    requires after_first { 0 < piece }
    requires before_last { piece < 128 }
    requires sizes { EachLane (λ j. IsMessage (message_at messages.now j)) }
    ensures { EachLane (λ j. HasWords (lane_words j words.new)
        (piece_of (message_at messages.now j) piece)) }
{
    let at = WORD_LEN * (16 * piece - PREFIX_WORDS);
    let front = eight_block_words(messages, at);
    let back = eight_block_words(messages, at + 8 * WORD_LEN);
    *words = [
        front[0], front[1], front[2], front[3], front[4], front[5], front[6], front[7], back[0],
        back[1], back[2], back[3], back[4], back[5], back[6], back[7],
    ];
}

/// Puts the words of the last piece: the last 3 of the block, and the padding.
pub(crate) fn put_last_words(words: &mut Window, messages: &[Message; 8])
    requires sizes { EachLane (λ j. IsMessage (message_at messages.now j)) }
    ensures { EachLane (λ j. HasWords (lane_words j words.new)
        (piece_of (message_at messages.now j) 128)) }
{
    *words = [splat(0); 16];
    words[PREFIX_WORDS] = splat(END_OF_MESSAGE);
    words[15] = splat(MESSAGE_BITS);
    put_block_words(words, messages, LAST_PIECE, 0, PREFIX_WORDS);
}
