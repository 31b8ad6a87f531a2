//! Which of a blob's blocks are data, and which are of its tree.

ghost use Rattle.std.specs.Prelude.{◌≡◌, ◌<◌, ◌≤◌, ◌^◌, length, All, IfSome};
ghost use Rattle.std.specs.List.{range_with_len, sum_by};
ghost use Rattle.spec_disk.specs.Laws.{AreWhole};
ghost use Rattle.spec_tree.specs.Tree as T;
ghost use Rattle.bv_store.specs.Stored.{blocks_on};
ghost use Rattle.bv_fetch.specs.Windows as F;

use crate::BLOCK_LEN;
use bv_proof::digests_at;
use bv_store::Store;

/// The places of the data blocks among those of a blob's blocks.
pub(crate) fn data_among(places: &[u64], version: u32, size: u64) -> &[u64]
    requires { T.data_blocks size ≤ length places.now }
    ensures { result.now ≡ F.data_among version size places.now }
{
    let count = size.div_ceil(BLOCK_LEN as u64) as usize;
    if version == 2 {
        &places[..count]
    } else {
        &places[places.len() - count..]
    }
}

/// The places of the blocks of the tree.
pub(crate) fn tree_among(places: &[u64], version: u32, size: u64) -> &[u64]
    requires { T.data_blocks size ≤ length places.now }
    ensures { result.now ≡ F.tree_among version size places.now }
{
    let count = size.div_ceil(BLOCK_LEN as u64) as usize;
    if version == 2 {
        &places[count..]
    } else {
        &places[..places.len() - count]
    }
}

/// Where the store tells, the blocks at these places have 8,192 bytes.
pub(crate) fn are_whole<S: Store>(store: &S, _places: &[u64])
    requires { All (λ b. b < (S.seen store.now).geometry.blocks) _places.now }
    ensures { IfSome (S.seen store.now).told
        (λ d. AreWhole (blocks_on (S.seen store.now).geometry d _places.now)) }
{
    let _geometry = store.geometry();
}

/// How many digests these levels have, so many from one on.
pub(crate) fn digests_of(size: u64, first: u32, count: u32) -> u64
    requires first { first ≤ 1 }
    requires count { count ≤ 6 }
    ensures value { result ≡ sum_by (T.digests_at size) (range_with_len first count) }
    ensures few { result ≤ 2 ^ 54 }
{
    let mut digests = 0;
    for ahead in 0..count {
        digests += digests_at(size, first + ahead);
    }
    digests
}
