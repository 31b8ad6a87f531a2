//! The nodes that blobs take.

ghost use Rattle.std.specs.Prelude.{◌≡◌, ◌-◌};
ghost use Rattle.spec_core.specs.Room as R;

use bv_merkle::blocks_needed_of;

/// The most nodes that a blob can take.
pub fn worst_nodes(version: u32, size: u64) -> u64
    ensures { result ≡ R.worst_nodes version size }
{
    let extents = blocks_needed_of(version, size);
    if extents <= 1 {
        1
    } else {
        1 + (extents - 1).div_ceil(6)
    }
}
