//! What is left once blobs, adds and purges have taken their blocks and nodes.

ghost use Rattle.std.specs.Prelude.{◌≡◌, ◌-◌};
ghost use Rattle.std.specs.List.{sum_by};
ghost use Rattle.std.specs.Map.{values_of, remove_entry};
ghost use Rattle.std.specs.BTreeMap.{is_at};
ghost use Rattle.spec_tree.specs.Tree as T;
ghost use Rattle.spec_tree.specs.Order.{digest_cmp};
ghost use Rattle.spec_core.specs.Room as R;

use bv_merkle::blocks_needed_of;
use bv_model::worst_nodes;
use spec_core::MapChange;
use spec_tree::{Blob, Digest};
use std::collections::BTreeMap;

/// What is left after the blocks of these blobs.
pub(crate) fn less_blobs(left: u64, map: &BTreeMap<Digest, Blob>) -> u64
    ensures { result ≡ left - sum_by R.blob_need (values_of map.now.entries) }
{
    let mut rest = left;
    for blob in map.values() {
        rest = rest.saturating_sub(blocks_needed_of(blob.version, blob.size));
    }
    rest
}

/// What is left after the blocks of these adds.
pub(crate) fn less_adds(left: u64, version: u32, adds: &BTreeMap<Digest, u64>) -> u64
    ensures { result ≡ left - sum_by (T.need_of version) (values_of adds.now.entries) }
{
    let mut rest = left;
    for size in adds.values() {
        rest = rest.saturating_sub(blocks_needed_of(version, *size));
    }
    rest
}

/// What is left after the blocks of these purges.
pub(crate) fn less_purges(left: u64, changes: &[MapChange]) -> u64
    ensures { result ≡ left - sum_by R.purge_need changes.now }
{
    let mut rest = left;
    for change in changes {
        if let MapChange::Purge { blob, .. } = change {
            rest = rest.saturating_sub(blocks_needed_of(blob.version, blob.size));
        }
    }
    rest
}

/// What is left after the most nodes of these blobs.
pub(crate) fn less_blob_nodes(left: u64, map: &BTreeMap<Digest, Blob>) -> u64
    ensures { result ≡ left - sum_by R.blob_worst (values_of map.now.entries) }
{
    let mut rest = left;
    for blob in map.values() {
        rest = rest.saturating_sub(worst_nodes(blob.version, blob.size));
    }
    rest
}

/// What is left after the most nodes of all these adds but that of a root.
pub(crate) fn less_other_nodes(
    left: u64,
    version: u32,
    adds: &BTreeMap<Digest, u64>,
    root: Digest,
) -> u64
    ensures { result
        ≡ left - sum_by (R.worst_nodes version)
        (values_of (remove_entry (is_at (digest_cmp root)) adds.now.entries)) }
{
    let mut rest = left;
    let mut passed = false;
    for (other, size) in adds {
        if !passed && root.cmp(other).is_eq() {
            passed = true;
        } else {
            rest = rest.saturating_sub(worst_nodes(version, *size));
        }
    }
    rest
}
