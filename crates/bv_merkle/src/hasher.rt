//! The root of a stream of bytes, in fixed memory: one block of digests for each level.

ghost use Rattle.std.specs.Prelude.{◌≡◌, ℕ, ◌+◌, ◌-◌, ◌*◌, ◌%◌, ◌^◌, ◌<◌, ◌≤◌, ◌/◌, List, [], ◌∷◌, ◌++◌, Some, length, take};
ghost use Rattle.spec_tree.specs.declared.Digest.{Digest as DigestValue};
ghost use Rattle.spec_tree.specs.Tree.{block_digest as digest_at, level_of, levels_of, root_of};
ghost use Rattle.bv_merkle.specs.Levels.{all_blocks};
ghost use Rattle.bv_merkle.specs.Hasher.{Closes, Holds, KeepsOf, Stands, StandsAt, IsDigest, taken as taken_of, block_at, put_at, keep_at, shape_of, with_digest};

use crate::hashing::block_digest;
use crate::kept_tree::KeptTree;
use crate::window::window_digests;
use crate::{BLOCK_LEN, Block, DIGESTS};
use spec_tree::Digest;

/// The levels whose digests stand in blocks: level 7 of the largest size is its root alone.
const LEVELS: usize = 7;

/// The bytes of a digest.
const DIGEST_LEN: usize = 32;

/// Takes the bytes of a blob window by window, and gives their root.
#[derive(Drop)]
pub struct RootHasher {
    taken: u64,
    blocks: [Block; 7],
    kept: Option<KeptTree>,
}

impl RootHasher {
    /// A hasher that has taken no bytes.
    pub fn new() -> RootHasher
        ensures taken { taken_of result ≡ 0 }
        ensures holds { Holds result [] }
    {
        RootHasher {
            taken: 0,
            blocks: [[0; BLOCK_LEN]; LEVELS],
            kept: None,
        }
    }

    /// A hasher that has taken no bytes, and keeps the blocks of the levels.
    pub(crate) fn keeping(kept: KeptTree) -> RootHasher
        ensures taken { taken_of result ≡ 0 }
        ensures holds { Holds result [] }
        ensures kept { result.kept ≡ Some kept }
    {
        RootHasher {
            taken: 0,
            blocks: [[0; BLOCK_LEN]; LEVELS],
            kept: Some(kept),
        }
    }

    /// Takes the bytes of one window more. Each window but the last has 65,536 bytes.
    pub fn window(&mut self, bytes: &[u8])
        requires whole { taken_of self.old % 65536 ≡ 0 }
        requires window { length bytes.now ≤ 65536 }
        requires fits { taken_of self.old + length bytes.now < 2 ^ 64 }
        ensures taken { taken_of self.new ≡ taken_of self.old + length bytes.now }
        ensures holds { (m : List ℕ) → Holds self.old m → Holds self.new (m ++ bytes.now) }
        ensures shape { shape_of self.new ≡ shape_of self.old }
    {
        let first = self.taken / BLOCK_LEN as u64;
        let digests = window_digests(self.taken, bytes);
        for i in 0..bytes.len().div_ceil(BLOCK_LEN) {
            self.place(0, first + i as u64, digests[i]);
        }
        self.taken += bytes.len() as u64;
    }

    /// The root of the bytes that were taken.
    pub fn finish(mut self) -> Digest
        ensures { (m : List ℕ) → Holds self m → result ≡ root_of m }
    {
        self.close()
    }

    // Closes each level, from the lowest on, and gives the digest of the highest one's block.
    pub(crate) fn close(&mut self) -> Digest
        ensures root { (m : List ℕ) → Holds self.old m → result ≡ root_of m }
        ensures kept { (m : List ℕ) (level : ℕ) → Holds self.old m → level < levels_of (length m)
            → KeepsOf self.new.kept level (all_blocks (level_of m level)) }
        ensures shape { shape_of self.new ≡ shape_of self.old }
    {
        if self.taken == 0 {
            return block_digest(0, 0, &[]);
        }
        let mut count = self.taken.div_ceil(BLOCK_LEN as u64);
        if count == 1 {
            return self.first_digest();
        }
        'levels: for level in 0..LEVELS {
            let above = self.close_level(level, count);
            if count <= DIGESTS {
                return above;
            }
            count = count.div_ceil(DIGESTS);
        }
        self.first_digest()
    }

    // Ends a level of so many digests: its last block is whole now. Gives that block's digest.
    fn close_level(&mut self, level: usize, count: u64) -> Digest
        requires level { level < 7 }
        requires some { 0 < count }
        requires count { count ≤ 2 ^ 51 }
        ensures closes { (digests : List DigestValue) → length digests ≡ count
            → Stands self.old (7 - level) level digests → Closes self.new level digests result }
        ensures below { (k : ℕ) (blocks : List (List ℕ)) → k < level
            → KeepsOf self.old.kept k blocks → KeepsOf self.new.kept k blocks }
        ensures shape { shape_of self.new ≡ shape_of self.old }
    {
        let last = (count - 1) / DIGESTS;
        let above = self.digest_above(level, last);
        if count % DIGESTS != 0 {
            self.keep(level, last);
            if level + 1 < LEVELS {
                self.place(level + 1, last, above);
            }
        }
        above
    }

    // The blocks that were kept.
    pub(crate) fn into_kept(self) -> Option<KeptTree>
        ensures { result ≡ self.kept }
    {
        self.kept
    }

    // Puts the digest with this index into its level, and the digests of the blocks that this makes
    // whole into the levels above.
    fn place(&mut self, level: usize, index: u64, digest: Digest)
        requires level { level < 7 }
        requires index { index < 2 ^ 51 }
        ensures taken { self.new.taken ≡ self.old.taken }
        ensures stands { (digests : List DigestValue) → length digests ≡ index
            → Stands self.old (7 - level) level digests
            → Stands self.new (7 - level) level (digests ++ digest ∷ []) }
        ensures below { (k : ℕ) (digests : List DigestValue) → k < level
            → StandsAt self.old k digests → StandsAt self.new k digests }
        ensures kept { (k : ℕ) (blocks : List (List ℕ)) → k < level
            → KeepsOf self.old.kept k blocks → KeepsOf self.new.kept k blocks }
        ensures shape { shape_of self.new ≡ shape_of self.old }
    {
        self.put(level, index % DIGESTS, digest);
        if (index + 1) % DIGESTS == 0 {
            self.keep(level, index / DIGESTS);
            if level + 1 < LEVELS {
                let above = self.digest_above(level, index / DIGESTS);
                self.place(level + 1, index / DIGESTS, above);
            }
        }
    }

    // Puts a digest at a place of its level's block. The first one begins a new block.
    fn put(&mut self, level: usize, place: u64, digest: Digest)
        requires level { level < 7 }
        requires place { place < 256 }
        ensures put { self.new ≡ put_at self.old level place digest }
        // What the types say of lengths.
        ensures levels { level < length self.old.blocks }
        ensures digest { IsDigest digest }
    {
        let block = &mut self.blocks[level];
        put_digest(block, place as usize, &digest);
    }

    // Keeps a block of digests, where blocks are kept.
    fn keep(&mut self, level: usize, index: u64)
        requires level { level < 7 }
        ensures { self.new ≡ keep_at self.old level index }
    {
        if let Some(kept) = &mut self.kept {
            let block = &self.blocks[level];
            kept.keep(level, index, block);
        }
    }

    // The digest of a level's block of digests, which stands at this index of the level above.
    fn digest_above(&self, level: usize, index: u64) -> Digest
        requires level { level < 7 }
        requires index { index < 2 ^ 51 }
        ensures { result ≡ digest_at (level + 1) (8192 * index) (block_at self.now level) }
    {
        let block = &self.blocks[level];
        block_digest(level as u32 + 1, index * BLOCK_LEN as u64, block)
    }

    // The first digest of level 0.
    fn first_digest(&self) -> Digest
        ensures { result.0 ≡ take 32 (block_at self.now 0) }
    {
        let block = &self.blocks[0];
        let mut digest = [0; DIGEST_LEN];
        digest.copy_from_slice(&block[..DIGEST_LEN]);
        Digest(digest)
    }
}

// Puts a digest at a place of a block. The first one begins a new block.
fn put_digest(block: &mut Block, place: usize, digest: &Digest)
    requires { place < 256 }
    ensures put { block.new ≡ with_digest block.old place digest.now.0 }
    ensures digest { IsDigest digest.now }
{
    if place == 0 {
        *block = [0; BLOCK_LEN];
    }
    let start = place * DIGEST_LEN;
    block[start..start + DIGEST_LEN].copy_from_slice(&digest.0);
}
