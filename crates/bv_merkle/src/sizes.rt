//! How many blocks, levels and windows a blob of a size in bytes has.

ghost use Rattle.std.specs.Prelude.{◌≡◌, ℕ, ◌+◌, ◌≤◌};
ghost use Rattle.spec_tree.specs.Tree.{need_of, tree_blocks_of as tree_need_of, levels_of, windows_of};

use crate::{BLOCK_LEN, DIGESTS, WINDOW_LEN};

/// The number of levels above level 0, which is the data's: at most 7.
pub fn levels(size: u64) -> u32
    ensures levels { result ≡ levels_of size }
    ensures few { result ≤ 7 }
{
    let mut digests = size.div_ceil(BLOCK_LEN as u64).max(1);
    let mut levels = 0;
    while digests > 1 {
        digests = digests.div_ceil(DIGESTS);
        levels += 1;
    }
    levels
}

/// The number of windows of eight blocks; the empty blob has one.
pub fn windows(size: u64) -> u64
    ensures { result ≡ windows_of size }
{
    size.div_ceil(WINDOW_LEN as u64).max(1)
}

/// The blocks of a tree in a version of the format; a version other than 1 and 2 counts as 1.
pub fn tree_blocks_of(version: u32, size: u64) -> u64
    ensures { result ≡ tree_need_of version size }
{
    let mut digests = size.div_ceil(BLOCK_LEN as u64).max(1);
    let mut held = 0;
    let mut blocks = 0;
    while digests > 1 {
        held += digests;
        digests = digests.div_ceil(DIGESTS);
        blocks += digests;
    }
    if version == 2 {
        held.div_ceil(DIGESTS)
    } else {
        blocks
    }
}

/// The blocks of a tree in version 1, whose levels each fill blocks of their own.
pub fn tree_blocks(size: u64) -> u64
    ensures { result ≡ tree_need_of 1 size }
{
    tree_blocks_of(1, size)
}

/// The blocks of a blob, its data and its tree, in a version of the format; a version other than 1
/// and 2 counts as 1.
pub fn blocks_needed_of(version: u32, size: u64) -> u64
    ensures { result ≡ need_of version size }
{
    size.div_ceil(BLOCK_LEN as u64) + tree_blocks_of(version, size)
}

/// The blocks of a blob in version 1 of the format.
pub fn blocks_needed(size: u64) -> u64
    ensures { result ≡ need_of 1 size }
{
    blocks_needed_of(1, size)
}
