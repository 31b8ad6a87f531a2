//! A tree built from a stream of bytes.

ghost use Rattle.std.specs.Prelude.{◌≡◌, ◌%◌, ◌<◌, length};

use crate::hasher::RootHasher;
use crate::kept_tree::KeptTree;
use crate::{Block, WINDOW_LEN};
use spec_tree::Digest;
use std::alloc::{AllocError, Global};
use std::marker::Model;

/// The root of a blob, and the blocks of its levels from level 1 upward.
#[derive(Drop)]
pub struct Tree {
    pub root: Digest,
    pub levels: Vec<Vec<Block>>,
}

impl Model for Tree {
    ghost use Rattle.std.specs.Prelude.{map};
    ghost use Rattle.bv_merkle.specs.Built.{Built};

    ghost Value = { Built };

    ghost view = { λ tree. record {
      root = tree.root;
      levels = map (λ blocks. blocks.items) tree.levels.items;
    } };
}

/// Builds the tree of a blob of a size from its bytes, in pieces of any lengths.
///
/// It keeps the tree and one window of bytes, and takes all its memory in `new`.
#[derive(Drop)]
pub struct Builder {
    size: u64,
    hasher: RootHasher,
    pending: Vec<u8>,
    held: usize,
    ghost window: { length pending.items ≡ 65536 },
    ghost part: { held < 65536 },
    ghost whole: { hasher.taken % 65536 ≡ 0 },
}

impl Builder {
    ghost use Rattle.std.specs.Prelude.{◌≡◌, ℕ, ◌+◌, ◌^◌, ◌<◌, ◌≤◌, ◌++◌, [], List, IfOk, IsOk, OnOk, length, take};
    ghost use Rattle.spec_tree.specs.Tree.{root_of};
    ghost use Rattle.bv_merkle.specs.Built.{tree_levels};
    ghost use Rattle.bv_merkle.specs.Builder.{Builds, built, size_of};

    /// A builder of a tree over `size` bytes, of which it has none yet.
    pub fn new(alloc: Global, size: u64) -> Result<Builder, AllocError>
        ensures ok { IfOk result (λ builder. Builds builder []) }
        ensures size { IfOk result (λ builder. size_of builder ≡ size) }
        ensures built { IfOk result (λ builder. built builder ≡ 0) }
    {
        let kept = KeptTree::new(alloc, size)?;
        let pending = vec![in alloc; 0u8; 65536]?;
        Ok(Builder {
            size,
            hasher: RootHasher::keeping(kept),
            pending,
            held: 0,
        })
    }

    /// Adds bytes. It takes no memory, since `new` has taken all of it.
    pub fn push(&mut self, _alloc: Global, bytes: &[u8]) -> Result<(), AllocError>
        requires { built self.old + length bytes.now ≤ size_of self.old }
        ensures ok { IsOk result }
        ensures size { size_of self.new ≡ size_of self.old }
        ensures built { built self.new ≡ built self.old + length bytes.now }
        ensures builds { (m : List ℕ) → Builds self.old m → Builds self.new (m ++ bytes.now) }
    {
        let mut at = 0;
        while at < bytes.len() {
            let rest = &bytes[at..];
            at += self.add(rest);
        }
        Ok(())
    }

    // Adds the bytes that the window under way has room for, and says how many.
    fn add(&mut self, bytes: &[u8]) -> usize
        requires some { 0 < length bytes.now }
        requires fits { built self.old + length bytes.now < 2 ^ 64 }
        ensures some { 0 < result }
        ensures within { result ≤ length bytes.now }
        ensures size { size_of self.new ≡ size_of self.old }
        ensures built { built self.new ≡ built self.old + result }
        ensures builds { (m : List ℕ) → Builds self.old m
            → Builds self.new (m ++ take result bytes.now) }
    {
        let held = self.held;
        let count = bytes.len().min(WINDOW_LEN - held);
        self.pending[held..held + count].copy_from_slice(&bytes[..count]);
        if held + count < WINDOW_LEN {
            self.held = held + count;
        } else {
            self.hasher.window(&self.pending);
            self.held = 0;
        }
        count
    }

    /// The tree of the bytes.
    pub fn finish(self, alloc: Global) -> Result<Tree, AllocError>
        requires { built self ≡ size_of self }
        ensures ok { IsOk result }
        ensures root { (m : List ℕ) → Builds self m → IfOk result (λ tree. tree.root ≡ root_of m) }
        ensures levels { (m : List ℕ) → Builds self m
            → IfOk result (λ tree. tree.levels ≡ tree_levels m) }
    {
        let Builder {
            size: _,
            mut hasher,
            pending,
            held,
        } = self;
        hasher.window(&pending[..held]);
        let root = hasher.close();
        let levels = match hasher.into_kept() {
            Some(kept) => kept.into_levels(),
            None => Vec::new(alloc),
        };
        Ok(Tree { root, levels })
    }
}
