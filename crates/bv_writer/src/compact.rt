//! The tree of version 2: the digests of all levels but the highest, joined.

ghost use Rattle.std.specs.Prelude.{◌≡◌, ◌++◌, ◌*◌, ◌≤◌, List, IfOk, OnOk, length, map, take};
ghost use Rattle.spec_tree.specs.declared.Digest.{Digest as DigestValue};
ghost use Rattle.bv_merkle.specs.Built.{tree_levels};
ghost use Rattle.bv_merkle.specs.Hasher.{AreDigests};
ghost use Rattle.bv_merkle.specs.Levels.{all_blocks};
ghost use Rattle.bv_writer.specs.Blocks.{digest_bytes, digests_below};

use crate::blocks::blocks_of;
use crate::{BLOCK_LEN, DIGEST_LEN, DIGESTS};
use bv_merkle::Block;
use std::alloc::{AllocError, Global};

/// The blocks of the joined digests, from the blocks of the levels of these bytes.
pub(crate) fn compact(
    alloc: Global,
    bytes: &[u8],
    levels: &[Vec<Block>],
) -> Result<Vec<Block>, AllocError>
    requires { map (λ blocks. blocks.items) levels.now ≡ tree_levels bytes.now }
    ensures { IfOk result (λ tree. tree.items ≡ all_blocks (digests_below bytes.now)) }
{
    let mut digests = Vec::new(alloc);
    let mut count = bytes.len().div_ceil(BLOCK_LEN).max(1);
    for blocks in levels {
        join_level(&mut digests, blocks.as_slice(), count)?;
        count = count.div_ceil(DIGESTS);
    }
    blocks_of(alloc, &digests)
}

// Adds the bytes of a level's digests, of which there are so many, from the blocks that hold them.
fn join_level(out: &mut Vec<u8>, blocks: &[Block], count: usize) -> Result<(), AllocError>
    ensures { (digests : List DigestValue) → AreDigests digests → length digests ≡ count
        → blocks.now ≡ all_blocks digests
        → OnOk result (out.new.items ≡ out.old.items ++ digest_bytes digests) }
{
    let mut left = count;
    for block in blocks {
        let held = left.min(DIGESTS);
        join_block(out, block, held)?;
        left -= held;
    }
    Ok(())
}

// Adds the bytes of the first digests of a block.
fn join_block(out: &mut Vec<u8>, block: &Block, held: usize) -> Result<(), AllocError>
    requires { held ≤ 256 }
    ensures { OnOk result (out.new.items ≡ out.old.items ++ take (32 * held) block.now) }
{
    match out.extend_from_slice(&block[..held * DIGEST_LEN]) {
        Ok(()) => Ok(()),
        Err(_) => Err(AllocError),
    }
}
