//! The blocks of digests of a tree that is kept.

ghost use Rattle.std.specs.Prelude.{◌≡◌, ℕ, IfOk, length, map};
ghost use Rattle.bv_merkle.specs.TreeShape.{put_block, tree_shape};

use crate::{BLOCK_LEN, Block, DIGESTS};
use std::alloc::{AllocError, Global};
use std::marker::Model;

/// The blocks of digests of each level, from level 1 upward.
#[derive(Drop)]
pub struct KeptTree {
    levels: Vec<Vec<Block>>,
}

impl Model for KeptTree {
    ghost use Rattle.std.specs.Prelude.{ℕ, List, map};

    ghost Value = { List (List (List ℕ)) };

    ghost view = { λ kept. map (λ blocks. blocks.items) kept.levels.items };
}

impl KeptTree {
    /// The levels of a tree over so many bytes, all of whose blocks are zero.
    pub fn new(alloc: Global, size: u64) -> Result<KeptTree, AllocError>
        ensures { IfOk result (λ kept. map (λ blocks. length blocks) kept ≡ tree_shape size) }
    {
        let mut levels = Vec::new(alloc);
        let mut digests = size.div_ceil(BLOCK_LEN as u64).max(1);
        while digests > 1 {
            digests = digests.div_ceil(DIGESTS);
            let blocks = zero_blocks(alloc, digests as usize)?;
            levels.push(blocks)?;
        }
        Ok(KeptTree { levels })
    }

    /// The levels as lists of blocks.
    pub fn into_levels(self) -> Vec<Vec<Block>>
        ensures { map (λ blocks. blocks.items) result.items ≡ self }
    {
        self.levels
    }

    /// Puts a block into its place, where the tree has that place.
    pub fn keep(&mut self, level: usize, index: u64, block: &Block)
        ensures { self.new ≡ put_block self.old level index block.now }
    {
        if level < self.levels.len() {
            let blocks = &mut self.levels[level];
            if index < blocks.len() as u64 {
                blocks[index as usize] = *block;
            }
        }
    }
}

// So many blocks of zeros.
fn zero_blocks(alloc: Global, count: usize) -> Result<Vec<Block>, AllocError>
    ensures { IfOk result (λ blocks. length blocks.items ≡ count) }
{
    vec![in alloc; [0u8; 8192]; count]
}
