//! The path of a window, read block by block.

ghost use Rattle.std.specs.Prelude.{◌≡◌, ◌≤◌, ◌<◌, ◌+◌, ◌++◌, take, drop, length, vec_len, vec_capacity, All, OnOk};
ghost use Rattle.spec_tree.specs.Tree as T;
ghost use Rattle.bv_store.specs.Stored.{blocks_on};
ghost use Rattle.bv_fetch.specs.Reading.{AreOfBlobs, OnlyReads, SeesNow};
ghost use Rattle.bv_fetch.specs.Windows.{block_among, compact_among, padded_among, path_among};

use crate::places::{are_whole, digests_of};
use crate::pushing::push_block;
use crate::{BLOCK_LEN, DIGEST_LEN, DIGESTS};
use bv_merkle::levels;
use bv_proof::{index_above, used_places};
use bv_store::{Block, Failed, Store};

/// Puts so many bytes of a block, from an offset on, into another at an offset.
fn copy_part(into: &mut Block, at: usize, block: &Block, from: usize, count: usize)
    requires at { at + count ≤ 8192 }
    requires from { from + count ≤ 8192 }
    ensures { into.new ≡ take at into.old ++ take count (drop from block.now)
        ++ drop (at + count) into.old }
{
    into[at..at + count].copy_from_slice(&block[from..from + count]);
}

/// Version 1: reads block `i` of a level above level 0, where the blocks of the tree are these.
fn read_padded<S: Store>(
    store: &mut S,
    tree: &[u64],
    size: u64,
    level: u32,
    i: u64,
    into: &mut Block,
) -> Result<(), Failed>
    requires lowest { 1 ≤ level }
    requires highest { level ≤ T.levels_of size }
    requires block { i < T.digests_at size level }
    requires count { length tree.now ≡ T.tree_blocks_of 1 size }
    requires within { All (λ b. b < (S.seen store.old).geometry.blocks) tree.now }
    requires blobs { AreOfBlobs (S.seen store.old) tree.now }
    ensures reads { OnlyReads result (S.seen store.old) (S.seen store.new) (S.both store.old)
        (S.both store.new) (S.held store.old) (S.held store.new) }
    ensures now { OnOk result (SeesNow (S.seen store.old) (λ d. into.new
        ≡ padded_among size (blocks_on (S.seen store.old).geometry d tree.now) level i)) }
{
    let at = digests_of(size, 1, level - 1) + i;
    store.read(tree[at as usize], into)
}

/// Version 2: reads block `i` of a level above level 0, where the blocks of the tree are these. Its
/// digests may stand in two of them.
fn read_compact<S: Store>(
    store: &mut S,
    tree: &[u64],
    size: u64,
    level: u32,
    i: u64,
    into: &mut Block,
) -> Result<(), Failed>
    requires lowest { 1 ≤ level }
    requires highest { level ≤ T.levels_of size }
    requires block { i < T.digests_at size level }
    requires count { length tree.now ≡ T.tree_blocks_of 2 size }
    requires within { All (λ b. b < (S.seen store.old).geometry.blocks) tree.now }
    requires blobs { AreOfBlobs (S.seen store.old) tree.now }
    ensures reads { OnlyReads result (S.seen store.old) (S.seen store.new) (S.both store.old)
        (S.both store.new) (S.held store.old) (S.held store.new) }
    ensures now { OnOk result (SeesNow (S.seen store.old) (λ d. into.new
        ≡ compact_among size (blocks_on (S.seen store.old).geometry d tree.now) level i)) }
{
    are_whole(store, tree);
    let place = digests_of(size, 0, level - 1) + DIGESTS * i;
    let used = DIGEST_LEN * used_places(size, level, i) as usize;
    let first = (place / DIGESTS) as usize;
    let from = DIGEST_LEN * (place % DIGESTS) as usize;
    let head = used.min(BLOCK_LEN - from);
    let mut block = [0; BLOCK_LEN];
    *into = [0; BLOCK_LEN];
    store.read(tree[first], &mut block)?;
    copy_part(into, 0, &block, from, head);
    if head < used {
        store.read(tree[first + 1], &mut block)?;
        copy_part(into, head, &block, 0, used - head);
    }
    Ok(())
}

/// Reads block `i` of a level above level 0.
fn read_tree_block<S: Store>(
    store: &mut S,
    tree: &[u64],
    version: u32,
    size: u64,
    level: u32,
    i: u64,
    into: &mut Block,
) -> Result<(), Failed>
    requires lowest { 1 ≤ level }
    requires highest { level ≤ T.levels_of size }
    requires block { i < T.digests_at size level }
    requires count { length tree.now ≡ T.tree_blocks_of version size }
    requires within { All (λ b. b < (S.seen store.old).geometry.blocks) tree.now }
    requires blobs { AreOfBlobs (S.seen store.old) tree.now }
    ensures reads { OnlyReads result (S.seen store.old) (S.seen store.new) (S.both store.old)
        (S.both store.new) (S.held store.old) (S.held store.new) }
    ensures now { OnOk result (SeesNow (S.seen store.old) (λ d. into.new
        ≡ block_among version size (blocks_on (S.seen store.old).geometry d tree.now) level i)) }
{
    if version == 2 {
        read_compact(store, tree, size, level, i, into)
    } else {
        read_padded(store, tree, size, level, i, into)
    }
}

/// Reads the path of a window of a blob, the blocks of whose tree are these, into `path`, which is
/// empty and has room for it.
pub(crate) fn read_path<S: Store>(
    store: &mut S,
    tree: &[u64],
    version: u32,
    size: u64,
    window: u64,
    path: &mut Vec<Block>,
) -> Result<(), Failed>
    requires window { window < T.windows_of size }
    requires count { length tree.now ≡ T.tree_blocks_of version size }
    requires within { All (λ b. b < (S.seen store.old).geometry.blocks) tree.now }
    requires blobs { AreOfBlobs (S.seen store.old) tree.now }
    requires empty { vec_len path.old ≡ 0 }
    requires room { T.levels_of size ≤ vec_capacity path.old }
    ensures reads { OnlyReads result (S.seen store.old) (S.seen store.new) (S.both store.old)
        (S.both store.new) (S.held store.old) (S.held store.new) }
    ensures len { OnOk result (vec_len path.new ≡ T.levels_of size) }
    ensures now { OnOk result (SeesNow (S.seen store.old) (λ d. path.new.items
        ≡ path_among version size (blocks_on (S.seen store.old).geometry d tree.now) window)) }
{
    for below in 0..levels(size) {
        let level = below + 1;
        let i = index_above(window, level);
        let mut block = [0; BLOCK_LEN];
        read_tree_block(store, tree, version, size, level, i, &mut block)?;
        push_block(path, block);
    }
    Ok(())
}
