//! Bytes cut into blocks, the last filled with zeros.

ghost use Rattle.std.specs.Prelude.{◌≡◌, ◌*◌, ◌<◌, ◌≤◌, IfOk, length};
ghost use Rattle.std.specs.List.{flat_map};
ghost use Rattle.spec_tree.specs.Tree as T;
ghost use Rattle.bv_writer.specs.Blocks.{data_of};

use crate::BLOCK_LEN;
use bv_merkle::Block;
use std::alloc::{AllocError, Global};

// Bytes that zeros fill up to a block.
fn filled(bytes: &[u8]) -> Block
    requires { length bytes.now ≤ 8192 }
    ensures { result ≡ T.filled bytes.now }
{
    let mut block = [0; BLOCK_LEN];
    block[..bytes.len()].copy_from_slice(bytes);
    block
}

// Piece i of the bytes, which the last block may not fill.
fn piece(bytes: &[u8], i: usize) -> &[u8]
    requires { 8192 * i ≤ length bytes.now }
    ensures piece { result.now ≡ T.piece bytes.now i }
    ensures short { length result.now ≤ 8192 }
{
    let rest = &bytes[i * BLOCK_LEN..];
    if rest.len() < BLOCK_LEN {
        rest
    } else {
        &rest[..BLOCK_LEN]
    }
}

/// Block i of the bytes.
pub(crate) fn block_of(bytes: &[u8], i: usize) -> Block
    requires { i < T.data_blocks (length bytes.now) }
    ensures { result ≡ T.filled (T.piece bytes.now i) }
{
    filled(piece(bytes, i))
}

/// All blocks of the bytes.
pub(crate) fn blocks_of(alloc: Global, bytes: &[u8]) -> Result<Vec<Block>, AllocError>
    ensures { IfOk result (λ blocks. blocks.items ≡ data_of bytes.now) }
{
    let mut blocks = Vec::new(alloc);
    for i in 0..bytes.len().div_ceil(BLOCK_LEN) {
        blocks.push(block_of(bytes, i))?;
    }
    Ok(blocks)
}

/// The blocks of all levels, one after another.
pub(crate) fn joined(alloc: Global, levels: &[Vec<Block>]) -> Result<Vec<Block>, AllocError>
    ensures { IfOk result (λ all. all.items ≡ flat_map (λ blocks. blocks.items) levels.now) }
{
    let mut all = Vec::new(alloc);
    for blocks in levels {
        match all.extend_from_slice(blocks.as_slice()) {
            Ok(()) => (),
            Err(_) => return Err(AllocError),
        }
    }
    Ok(all)
}
