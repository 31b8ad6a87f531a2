//! The words of the prefixes and of the blocks, high byte first (FIPS 180-4, 5.2.1).

ghost use Rattle.std.specs.Prelude.{◌≡◌, ℕ, ◌+◌, ◌<◌, ◌≤◌, length, slice_index};
ghost use Rattle.sha2.specs.Sha256.{word_at};
ghost use Rattle.bv_lanes.specs.Lanes.{EachLane};
ghost use Rattle.bv_lanes.specs.Messages.{message_at};

use crate::message::{Block, Message};
use crate::vectors::Words;

/// The word at byte `at` of a prefix, high byte first.
#[inline]
fn prefix_word(prefix: &[u8; 12], at: usize) -> u32
    requires { at + 4 ≤ 12 }
    ensures word { result ≡ word_at prefix.now at }
    // What the type says.
    ensures size { length prefix.now ≡ 12 }
{
    u32::from_be_bytes([prefix[at], prefix[at + 1], prefix[at + 2], prefix[at + 3]])
}

/// The words at byte `at` of the prefixes.
#[inline]
pub(crate) fn prefix_words(messages: &[Message; 8], at: usize) -> Words
    requires { at + 4 ≤ 12 }
    ensures words { EachLane (λ j. slice_index result j
        ≡ word_at (message_at messages.now j).prefix at) }
    ensures sizes { EachLane (λ j. length (message_at messages.now j).prefix ≡ 12) }
{
    Words::from_array([
        prefix_word(&messages[0].prefix, at),
        prefix_word(&messages[1].prefix, at),
        prefix_word(&messages[2].prefix, at),
        prefix_word(&messages[3].prefix, at),
        prefix_word(&messages[4].prefix, at),
        prefix_word(&messages[5].prefix, at),
        prefix_word(&messages[6].prefix, at),
        prefix_word(&messages[7].prefix, at),
    ])
}

/// The word at byte `at` of a block, high byte first.
#[inline]
pub(crate) fn block_word(block: &Block, at: usize) -> u32
    requires { at + 4 ≤ 8192 }
    ensures word { result ≡ word_at block.now at }
    // What the type says.
    ensures size { length block.now ≡ 8192 }
{
    u32::from_be_bytes([block[at], block[at + 1], block[at + 2], block[at + 3]])
}

/// The words at byte `at` of the blocks.
#[inline]
pub(crate) fn block_words(messages: &[Message; 8], at: usize) -> Words
    requires { at + 4 ≤ 8192 }
    ensures words { EachLane (λ j. slice_index result j
        ≡ word_at (message_at messages.now j).block.now at) }
    ensures sizes { EachLane (λ j. length (message_at messages.now j).block.now ≡ 8192) }
{
    Words::from_array([
        block_word(messages[0].block, at),
        block_word(messages[1].block, at),
        block_word(messages[2].block, at),
        block_word(messages[3].block, at),
        block_word(messages[4].block, at),
        block_word(messages[5].block, at),
        block_word(messages[6].block, at),
        block_word(messages[7].block, at),
    ])
}
