//! A blob's bytes and tree, in blocks.

ghost use Rattle.std.specs.Prelude.{◌≡◌, IfOk, map};
ghost use Rattle.spec_tree.specs.Tree.{root_of};
ghost use Rattle.bv_merkle.specs.Built.{tree_levels};
ghost use Rattle.bv_writer.specs.Blocks.{tree_blocks};

use crate::blocks::{block_of, joined};
use crate::compact::compact;
use bv_merkle::{Block, Builder, Tree, blocks_needed_of};
use spec_tree::Digest;
use std::alloc::{AllocError, Global};
use std::marker::Model;

/// What an add writes: the blob's blocks, data and tree, in the order of the volume's version.
/// Contracts see the version, the root, the size and the blocks.
#[derive(Drop)]
pub struct Adding {
    version: u32,
    root: Digest,
    bytes: Vec<u8>,
    tree: Vec<Block>,
}

impl Model for Adding {
    ghost use Rattle.std.specs.Prelude.{◌≡◌, length};
    ghost use Rattle.spec_tree.specs.Tree.{tree_blocks_of};
    ghost use Rattle.bv_writer.specs.Blocks.{data_of, placed};
    ghost use Rattle.bv_writer.specs.Plans.{Plan};

    ghost Value = { Plan };

    ghost view = { λ a. record {
      version = a.version;
      root = a.root;
      size = length a.bytes.items;
      blocks = placed a.version a.tree.items (data_of a.bytes.items);
    } };

    ghost invariant = { λ a. length a.tree.items ≡ tree_blocks_of a.version (length a.bytes.items) };
}

impl Adding {
    ghost use Rattle.std.specs.Prelude.{◌≡◌, ◌<◌, ◌⊎◌, [], IfOk, slice_index_or};
    ghost use Rattle.spec_tree.specs.Tree.{need_of};
    ghost use Rattle.bv_writer.specs.Plans.{IsPlanOf};

    /// The plan of a blob with these bytes, in version 1 of the layout.
    pub fn plan(alloc: Global, bytes: Vec<u8>) -> Result<Adding, AllocError>
        ensures { IfOk result (λ a. IsPlanOf a 1 bytes.items) }
    {
        Adding::plan_as(alloc, 1, bytes)
    }

    /// The plan of a blob with these bytes, in a version of the layout: 2, or 1 and any other.
    pub fn plan_as(alloc: Global, version: u32, bytes: Vec<u8>) -> Result<Adding, AllocError>
        ensures { IfOk result (λ a. IsPlanOf a version bytes.items) }
    {
        let built = built_of(alloc, &bytes)?;
        let root = built.root;
        let tree = tree_of(alloc, version, &bytes, &built.levels)?;
        Ok(Adding {
            version,
            root,
            bytes,
            tree,
        })
    }

    /// The root of its bytes.
    pub fn root(&self) -> Digest
        ensures { result ≡ self.now.root }
    {
        self.root
    }

    /// How many bytes it has.
    pub fn size(&self) -> u64
        ensures { result ≡ self.now.size }
    {
        self.bytes.len() as u64
    }

    /// How many blocks it takes.
    pub fn need(&self) -> u64
        ensures { result ≡ need_of self.now.version self.now.size }
    {
        blocks_needed_of(self.version, self.size())
    }

    /// Its block at this place, counted from 0.
    #[tactic(auto, unfolding(spec_tree::specs::Tree::need_of))]
    pub fn block(&self, index: u64) -> Block
        requires { index < need_of self.now.version self.now.size }
        ensures { result ≡ slice_index_or self.now.blocks index [] }
    {
        let index = index as usize;
        let data = self.bytes.len().div_ceil(8192);
        if self.version == 2 {
            if index < data {
                block_of(&self.bytes, index)
            } else {
                self.tree[index - data]
            }
        } else if index < self.tree.len() {
            self.tree[index]
        } else {
            block_of(&self.bytes, index - self.tree.len())
        }
    }
}

// The levels of the tree of these bytes.
fn built_of(alloc: Global, bytes: &[u8]) -> Result<Tree, AllocError>
    ensures root { IfOk result (λ tree. tree.root ≡ root_of bytes.now) }
    ensures levels { IfOk result (λ tree. tree.levels ≡ tree_levels bytes.now) }
{
    let mut builder = Builder::new(alloc, bytes.len() as u64)?;
    builder.push(alloc, bytes)?;
    builder.finish(alloc)
}

// The blocks of the tree as they are written, from those of its levels.
fn tree_of(
    alloc: Global,
    version: u32,
    bytes: &[u8],
    levels: &[Vec<Block>],
) -> Result<Vec<Block>, AllocError>
    requires { map (λ blocks. blocks.items) levels.now ≡ tree_levels bytes.now }
    ensures { IfOk result (λ tree. tree.items ≡ tree_blocks version bytes.now) }
{
    if version == 2 {
        compact(alloc, bytes, levels)
    } else {
        joined(alloc, levels)
    }
}
