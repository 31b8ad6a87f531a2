//! The block whose digest is a blob's root, where the blob has at most one window of bytes.
ghost use Rattle.std.specs.Prelude.{◌≡◌, ◌<◌, ◌≤◌, ◌+◌, ◌*◌, ◌++◌, length, take, drop};
ghost use Rattle.std.specs.Int.{w32, w64, to_le_bytes};
ghost use Rattle.spec_tree.specs.Tree.{root_of, level_0, digest_block, filled};
ghost use Rattle.bv_check.specs.Last.{last_digest};

use bv_merkle::window_digests;
use spec_disk::Block;
use spec_tree::Digest;

/// The bytes of a block.
const BLOCK: usize = 8192;

/// The bytes of a digest.
const DIGEST: usize = 32;

/// The bytes of the place of a block in its message.
const PLACE: usize = 8;

/// The place of the first block of level 1.
const FIRST_ABOVE: u64 = 1;

/// What is hashed for a blob's root: the block after its place and its length.
#[derive(Drop)]
pub(crate) struct LastBlock {
    pub(crate) prefix: [u8; 12],
    pub(crate) block: Block,
}

/// The last block of a blob of these bytes.
pub(crate) fn last_of(bytes: &[u8]) -> LastBlock
    requires some { 0 < length bytes.now }
    requires window { length bytes.now ≤ 65536 }
    ensures { last_digest result ≡ root_of bytes.now }
{
    if bytes.len() <= BLOCK {
        LastBlock {
            prefix: heading(0, bytes.len() as u32),
            block: filled(bytes),
        }
    } else {
        LastBlock {
            prefix: heading(FIRST_ABOVE, BLOCK as u32),
            block: digests_of(bytes),
        }
    }
}

// The place of a block, and how many bytes it has.
fn heading(place: u64, count: u32) -> [u8; 12]
    ensures { result ≡ to_le_bytes w64 place ++ to_le_bytes w32 count }
{
    let mut prefix = [0; 12];
    prefix[..PLACE].copy_from_slice(&place.to_le_bytes());
    prefix[PLACE..].copy_from_slice(&count.to_le_bytes());
    prefix
}

// The bytes of a block, which zeros fill up.
fn filled(bytes: &[u8]) -> Block
    requires { length bytes.now ≤ 8192 }
    ensures { result ≡ filled bytes.now }
{
    let mut block = [0; BLOCK];
    block[..bytes.len()].copy_from_slice(bytes);
    block
}

// The block of the digests of the bytes of a window.
fn digests_of(bytes: &[u8]) -> Block
    requires some { 8192 < length bytes.now }
    requires window { length bytes.now ≤ 65536 }
    ensures { result ≡ digest_block (level_0 bytes.now) 0 }
{
    let digests = window_digests(0, bytes);
    let mut block = [0; BLOCK];
    for i in 0..bytes.len().div_ceil(BLOCK) {
        put_digest(&mut block, i, &digests[i]);
    }
    block
}

// Puts a digest at a place of a block.
fn put_digest(block: &mut Block, place: usize, digest: &Digest)
    requires { place < 256 }
    ensures { block.new ≡ take (32 * place) block.old
        ++ (digest.now.0 ++ drop (32 * place + 32) block.old) }
{
    let start = DIGEST * place;
    block[start..start + DIGEST].copy_from_slice(&digest.0);
}
