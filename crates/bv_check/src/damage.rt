//! Which blobs are damaged: their data is read, and hashed on the way.
ghost use Rattle.std.specs.Prelude.{◌≡◌, ◌≤◌, ◌+◌, ◌<◌, ◌^◌, ◌++◌, ◌∷◌, [], ℕ, List, MatchResult, OnOk};
ghost use Rattle.std.specs.List.{range_with_len};
ghost use Rattle.spec_disk.specs.Disk.{block};
ghost use Rattle.spec_record.specs.Extent.{IsExtent};
ghost use Rattle.bv_device.specs.Reads.{Reads};
ghost use Rattle.spec_inspect.specs.Report.{damaged_in};
ghost use Rattle.bv_mount.specs.Opens.{IsOn, IsOutside};
ghost use Rattle.bv_mount.specs.Reports.{reported};
ghost use Rattle.spec_tree.specs.Tree.{root_of};
ghost use Rattle.spec_image.specs.Stored.{bytes_in};
ghost use Rattle.bv_check.specs.Hashed.{IsHashing, IsIdle, HasTaken, plan_of};
ghost use Rattle.bv_check.specs.Last.{AreFew, damaged_of, ending_root};
ghost use Rattle.bv_check.specs.Checks.{IsStored, AreStored, data_at};

use crate::CheckFault;
use crate::data_hasher::{DataHasher, Ending};
use crate::waiting::Looked;
use bv_device::Device;
use bv_layout::Geometry;
use bv_mount::read_block;
use bv_node::{BlobRec, Extent};
use spec_tree::Digest;
use std::alloc::Global;

/// The roots of the damaged blobs among these, in their order.
pub(crate) fn damaged<D: Device>(
    alloc: Global,
    dev: &mut D,
    geometry: &Geometry,
    blobs: &[BlobRec],
) -> Result<Vec<Digest>, CheckFault>
    requires on { IsOn (D.seen dev.old).block_count geometry.now }
    requires stored { AreStored geometry.now.blocks blobs.now }
    ensures { Reads (reported result) (D.seen dev.old) (D.seen dev.new)
        (λ j. MatchResult result (λ roots. roots.items
        ≡ damaged_in geometry.now j blobs.now) IsOutside) }
{
    let mut hasher = DataHasher::new();
    damaged_by(alloc, dev, geometry, blobs, &mut hasher)
}

/// The roots of the damaged blobs among these, whose data this hasher takes.
fn damaged_by<D: Device>(
    alloc: Global,
    dev: &mut D,
    geometry: &Geometry,
    blobs: &[BlobRec],
    hasher: &mut DataHasher,
) -> Result<Vec<Digest>, CheckFault>
    requires on { IsOn (D.seen dev.old).block_count geometry.now }
    requires stored { AreStored geometry.now.blocks blobs.now }
    requires idle { IsIdle hasher.old }
    ensures { Reads (reported result) (D.seen dev.old) (D.seen dev.new)
        (λ j. MatchResult result (λ roots. roots.items
        ≡ damaged_in geometry.now j blobs.now) IsOutside) }
{
    let mut looked = Looked::new(alloc);
    for blob in blobs {
        look_at(dev, geometry, blob, hasher, &mut looked)?;
    }
    match looked.finish() {
        Ok(roots) => Ok(roots),
        Err(_) => Err(CheckFault::NoMemory),
    }
}

/// Reads the bytes of a blob, and adds it to those that were looked at.
fn look_at<D: Device>(
    dev: &mut D,
    geometry: &Geometry,
    blob: &BlobRec,
    hasher: &mut DataHasher,
    looked: &mut Looked,
) -> Result<(), CheckFault>
    requires on { IsOn (D.seen dev.old).block_count geometry.now }
    requires stored { IsStored geometry.now.blocks blob.now }
    requires idle { IsIdle hasher.old }
    requires few { AreFew looked.old }
    ensures idle { OnOk result (IsIdle hasher.new) }
    ensures few { OnOk result (AreFew looked.new) }
    ensures reads { Reads (reported result) (D.seen dev.old) (D.seen dev.new)
        (λ j. MatchResult result (λ v. damaged_of looked.new ≡ damaged_of looked.old
        ++ damaged_in geometry.now j (blob.now ∷ [])) IsOutside) }
{
    let ending = ending_of(dev, geometry, blob, hasher)?;
    match looked.add(blob.root(), ending) {
        Ok(()) => Ok(()),
        Err(_) => Err(CheckFault::NoMemory),
    }
}

/// With what the bytes of a blob end.
fn ending_of<D: Device>(
    dev: &mut D,
    geometry: &Geometry,
    blob: &BlobRec,
    hasher: &mut DataHasher,
) -> Result<Ending, CheckFault>
    requires on { IsOn (D.seen dev.old).block_count geometry.now }
    requires stored { IsStored geometry.now.blocks blob.now }
    requires idle { IsIdle hasher.old }
    ensures idle { OnOk result (IsIdle hasher.new) }
    ensures reads { Reads (reported result) (D.seen dev.old) (D.seen dev.new)
        (λ j. MatchResult result (λ ending. ending_root ending
        ≡ root_of (bytes_in geometry.now j blob.now)) IsOutside) }
{
    hasher.begin(blob.version(), blob.size());
    for extent in blob.extents() {
        read_extent(dev, geometry, extent, hasher)?;
    }
    Ok(hasher.finish())
}

/// Gives the data blocks of an extent to the hasher.
fn read_extent<D: Device>(
    dev: &mut D,
    geometry: &Geometry,
    extent: &Extent,
    hasher: &mut DataHasher,
) -> Result<(), CheckFault>
    requires on { IsOn (D.seen dev.old).block_count geometry.now }
    requires extent { IsExtent geometry.now.blocks extent.now }
    requires lawful { IsHashing hasher.old }
    requires few { hasher.old.came + extent.now.len < 2 ^ 32 }
    ensures lawful { OnOk result (IsHashing hasher.new) }
    ensures plan { OnOk result (plan_of hasher.new ≡ plan_of hasher.old) }
    ensures came { OnOk result (hasher.new.came ≡ hasher.old.came + extent.now.len) }
    ensures reads { Reads (reported result) (D.seen dev.old) (D.seen dev.new)
        (λ j. MatchResult result (λ v. (blocks : List (List ℕ)) → HasTaken hasher.old blocks
        → HasTaken hasher.new (blocks
        ++ data_at geometry.now j (range_with_len extent.now.start extent.now.len))) IsOutside) }
{
    for index in 0..extent.len {
        read_one(dev, geometry.block_at(extent.start + index), hasher)?;
    }
    Ok(())
}

/// Gives a block of the device to the hasher; one that isn't of the data isn't read.
fn read_one<D: Device>(dev: &mut D, at: u64, hasher: &mut DataHasher) -> Result<(), CheckFault>
    requires at { at < (D.seen dev.old).block_count }
    requires lawful { IsHashing hasher.old }
    requires few { hasher.old.came < 2 ^ 32 }
    ensures lawful { OnOk result (IsHashing hasher.new) }
    ensures plan { OnOk result (plan_of hasher.new ≡ plan_of hasher.old) }
    ensures came { OnOk result (hasher.new.came ≡ hasher.old.came + 1) }
    ensures reads { Reads (reported result) (D.seen dev.old) (D.seen dev.new)
        (λ j. MatchResult result (λ v. (blocks : List (List ℕ)) → HasTaken hasher.old blocks
        → HasTaken hasher.new (blocks ++ block j at ∷ [])) IsOutside) }
{
    if hasher.wants() {
        let block = read_block(dev, at)?;
        hasher.take(&block);
    } else {
        hasher.pass();
    }
    Ok(())
}
