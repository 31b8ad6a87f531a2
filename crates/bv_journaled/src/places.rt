//! The data blocks of a blob.

ghost use Rattle.std.specs.Prelude.{◌≡◌, ◌≤◌, ◌+◌, ◌^◌, ◌++◌, true, is_some, Some, All, IfOk, OnOk};
ghost use Rattle.std.specs.List.{range_with_len};
ghost use Rattle.spec_record.specs.Extent.{IsExtent};
ghost use Rattle.spec_image.specs.Stored.{blocks_of};
ghost use Rattle.spec_core.specs.State.{find};
ghost use Rattle.bv_journaled.specs.Standing.{IsStanding, stored_of};

use crate::lookup::find_blob;
use crate::store::JournaledStore;
use bv_device::Device;
use bv_node::{BlobRec, Extent};
use spec_tree::Digest;
use std::alloc::{AllocError, Global};

/// Adds the data blocks of an extent.
fn add_blocks(blocks: &mut Vec<u64>, extent: &Extent) -> Result<(), AllocError>
    requires { extent.now.start + extent.now.len ≤ 2 ^ 48 }
    ensures { OnOk result (blocks.new.items ≡ blocks.old.items
        ++ range_with_len extent.now.start extent.now.len) }
{
    for index in 0..extent.len {
        blocks.push(extent.start + index)?;
    }
    Ok(())
}

/// The data blocks of these extents, in order.
fn blocks_in(alloc: Global, extents: &[Extent]) -> Result<Vec<u64>, AllocError>
    requires { All (λ e. e.start + e.len ≤ 2 ^ 48) extents.now }
    ensures { IfOk result (λ blocks. blocks.items ≡ blocks_of extents.now) }
{
    let mut blocks = Vec::new(alloc);
    for extent in extents {
        add_blocks(&mut blocks, extent)?;
    }
    Ok(blocks)
}

/// The data blocks of a blob.
fn blocks_of_blob(alloc: Global, blob: &BlobRec) -> Result<Vec<u64>, AllocError>
    requires { All (λ e. e.start + e.len ≤ 2 ^ 48) blob.now.extents }
    ensures { IfOk result (λ blocks. blocks.items ≡ blocks_of blob.now.extents) }
{
    blocks_in(alloc, blob.extents())
}

impl<D: Device> JournaledStore<D> {
    /// The data blocks of a blob of the map, in order.
    pub(crate) fn places_of(&self, alloc: Global, root: Digest) -> Result<Vec<u64>, AllocError>
        requires { is_some (find (stored_of self.now).placed root) ≡ true }
        ensures { IfOk result (λ blocks. find (stored_of self.now).placed root ≡ Some blocks.items) }
    {
        let Some(blob) = find_blob(alloc, &self.meta, &self.hints, &root)? else {
            return Err(AllocError);
        };
        blocks_of_blob(alloc, &blob)
    }
}
