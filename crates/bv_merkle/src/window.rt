//! The digests of the blocks of a window: a few of them one by one, more of them side by side.

ghost use Rattle.std.specs.Prelude.{◌≡◌, ℕ, ◌+◌, ◌*◌, ◌%◌, ◌^◌, ◌<◌, ◌≤◌, List, [], ◌++◌, length, map, slice_index_or};
ghost use Rattle.spec_tree.specs.Tree as T;
ghost use Rattle.spec_tree.specs.declared.Digest.{Digest as DigestValue};
ghost use Rattle.bv_lanes.specs.Messages.{bytes_of, message_at};
ghost use Rattle.bv_merkle.specs.Hashing.{HasDigestsOf};

use crate::hashing::block_digest;
use crate::{BLOCK_LEN, Block};
use bv_lanes::{Message, digests};
use spec_tree::Digest;

/// The most blocks that are hashed one by one: side by side they take as long as eight do.
const FEW: usize = 2;

/// The bytes of the place of a block in its message.
const PLACE_LEN: usize = 8;

/// The digests of the blocks of a window, which begins at this byte offset of the data.
///
/// As many of the digests count as the bytes have blocks.
pub fn window_digests(offset: u64, bytes: &[u8]) -> [Digest; 8]
    requires offset { offset % 8192 ≡ 0 }
    requires fits { offset + length bytes.now < 2 ^ 64 }
    requires window { length bytes.now ≤ 65536 }
    ensures { HasDigestsOf result (T.data_blocks (length bytes.now)) offset bytes.now }
{
    if bytes.len() <= FEW * BLOCK_LEN {
        one_by_one(offset, bytes)
    } else {
        side_by_side(offset, bytes)
    }
}

// The digests of the blocks of a window, by one hasher after the other.
fn one_by_one(offset: u64, bytes: &[u8]) -> [Digest; 8]
    requires offset { offset % 8192 ≡ 0 }
    requires fits { offset + length bytes.now < 2 ^ 64 }
    requires window { length bytes.now ≤ 65536 }
    ensures { HasDigestsOf result (T.data_blocks (length bytes.now)) offset bytes.now }
{
    let mut digests = [Digest([0; 32]); 8];
    for i in 0..bytes.len().div_ceil(BLOCK_LEN) {
        digests[i] = block_digest(0, offset + (i * BLOCK_LEN) as u64, piece(bytes, i));
    }
    digests
}

// Piece i of the data, which the last block may not fill.
fn piece(bytes: &[u8], i: usize) -> &[u8]
    requires { 8192 * i ≤ length bytes.now }
    ensures { result.now ≡ T.piece bytes.now i }
{
    let rest = &bytes[i * BLOCK_LEN..];
    if rest.len() < BLOCK_LEN {
        rest
    } else {
        &rest[..BLOCK_LEN]
    }
}

// The digests of the blocks of a window that has data, all at once.
fn side_by_side(offset: u64, bytes: &[u8]) -> [Digest; 8]
    requires some { 0 < length bytes.now }
    requires fits { offset + length bytes.now < 2 ^ 64 }
    requires window { length bytes.now ≤ 65536 }
    ensures { HasDigestsOf result (T.data_blocks (length bytes.now)) offset bytes.now }
{
    let (whole, rest) = bytes.as_chunks::<BLOCK_LEN>();
    let last = filled(rest);
    let messages = window_messages(offset, whole, rest.len(), &last);
    let count = bytes.len().div_ceil(BLOCK_LEN);
    named(&digests(&messages[..count]))
}

// The messages of whole blocks, and in all places after them that of the last block, which has so
// many bytes of data.
fn window_messages<'a>(
    offset: u64,
    whole: &'a [Block],
    count: usize,
    last: &'a Block,
) -> [Message<'a>; 8]
    requires window { length whole.now ≤ 8 }
    requires count { count < 8192 }
    requires fits { offset + 8192 * length whole.now < 2 ^ 64 }
    ensures whole { (i : ℕ) → i < length whole.now → bytes_of (message_at result i)
        ≡ T.heading 0 (offset + 8192 * i) 8192 ++ slice_index_or whole.now i [] }
    ensures last { (i : ℕ) → length whole.now ≤ i → i < 8 → bytes_of (message_at result i)
        ≡ T.heading 0 (offset + 8192 * length whole.now) count ++ last.now }
    // What the type says.
    ensures eight { length result ≡ 8 }
{
    let mut messages = [message(offset + (whole.len() * BLOCK_LEN) as u64, count, last); 8];
    for (i, block) in whole.iter().enumerate() {
        messages[i] = message(offset + (i * BLOCK_LEN) as u64, BLOCK_LEN, block);
    }
    messages
}

// The bytes of a block, which zeros fill up.
fn filled(bytes: &[u8]) -> Block
    requires { length bytes.now ≤ 8192 }
    ensures { result ≡ T.filled bytes.now }
{
    let mut block = [0; BLOCK_LEN];
    block[..bytes.len()].copy_from_slice(bytes);
    block
}

// The message of a block of data at this offset, which has so many bytes of data.
fn message(offset: u64, count: usize, block: &Block) -> Message<'_>
    requires { count ≤ 8192 }
    ensures { bytes_of result ≡ T.heading 0 offset count ++ block.now }
{
    let mut prefix = [0; 12];
    prefix[..PLACE_LEN].copy_from_slice(&offset.to_le_bytes());
    prefix[PLACE_LEN..].copy_from_slice(&(count as u32).to_le_bytes());
    Message { prefix, block }
}

// Digests from their bytes.
fn named(digests: &[[u8; 32]; 8]) -> [Digest; 8]
    ensures { result
        ≡ map {A = List ℕ} {B = DigestValue} (λ bytes. record { 0 = bytes }) digests.now }
{
    let [a, b, c, d, e, f, g, h] = *digests;
    [
        Digest(a),
        Digest(b),
        Digest(c),
        Digest(d),
        Digest(e),
        Digest(f),
        Digest(g),
        Digest(h),
    ]
}
