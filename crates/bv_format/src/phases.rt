//! The writes and syncs that make a volume, phase by phase.
ghost use Rattle.std.specs.Prelude.{◌≡◌, ◌<◌, ◌≤◌, ◌+◌, ◌∷◌, replicate};
ghost use Rattle.spec_record.specs.Geometry.{IsGeometry, bitmap_blocks, node_blocks, meta_blocks, ring_slots, info_at, total_blocks};
ghost use Rattle.spec_record.specs.Info.{info_bytes};
ghost use Rattle.spec_image.specs.Empty.{zero_block, first_bit_block, empty_bitmap, empty_info};
ghost use Rattle.bv_device.specs.Plan.{writes};
ghost use Rattle.bv_device.specs.Seen.{Performs};
ghost use Rattle.bv_format.specs.Plan.{clear_plan, behind_plan, super_plan, format_plan};

use bv_device::{Block, Device, Failed, write_copies};
use bv_entry::{Info, write_info};
use bv_layout::{Geometry, Super, write_super};

/// Takes away the head of what was there, writes all that lies behind the superblock, and only
/// then the superblock. Each phase ends with a sync, so it lasts before the next one begins.
pub(crate) fn make_volume<D: Device>(dev: &mut D, geometry: &Geometry) -> Result<(), Failed>
    requires counts { IsGeometry geometry.now }
    requires room { total_blocks geometry.now ≤ (D.seen dev.old).block_count }
    ensures { Performs result (format_plan geometry.now) (D.seen dev.old) (D.seen dev.new) }
{
    clear_super(dev)?;
    write_behind(dev, geometry)?;
    put_super(dev, geometry)
}

/// Writes zeros over the superblock: from here on no reader takes the device for a volume.
fn clear_super<D: Device>(dev: &mut D) -> Result<(), Failed>
    requires { 0 < (D.seen dev.old).block_count }
    ensures { Performs result clear_plan (D.seen dev.old) (D.seen dev.new) }
{
    dev.write(0, &zeros())?;
    dev.sync()
}

/// Writes bitmap, node map and journal.
fn write_behind<D: Device>(dev: &mut D, geometry: &Geometry) -> Result<(), Failed>
    requires counts { IsGeometry geometry.now }
    requires room { total_blocks geometry.now ≤ (D.seen dev.old).block_count }
    ensures { Performs result (behind_plan geometry.now) (D.seen dev.old) (D.seen dev.new) }
{
    write_bitmap(dev, geometry)?;
    write_node_map(dev, geometry)?;
    write_journal(dev, geometry)?;
    dev.sync()
}

/// Writes a bitmap in which data block 0 alone is used.
#[tactic(auto, using(bv_device::proofs::SeenLemmas::runs))]
fn write_bitmap<D: Device>(dev: &mut D, geometry: &Geometry) -> Result<(), Failed>
    requires counts { IsGeometry geometry.now }
    requires room { total_blocks geometry.now ≤ (D.seen dev.old).block_count }
    ensures { Performs result (writes 1 (empty_bitmap geometry.now))
        (D.seen dev.old) (D.seen dev.new) }
{
    let further = geometry.bitmap() - 1;
    dev.write(1, &first_bit())?;
    write_copies(dev, 2, further, &zeros())
}

/// Writes a node map in which each node is free.
fn write_node_map<D: Device>(dev: &mut D, geometry: &Geometry) -> Result<(), Failed>
    requires counts { IsGeometry geometry.now }
    requires room { total_blocks geometry.now ≤ (D.seen dev.old).block_count }
    ensures { Performs result
        (writes (1 + bitmap_blocks geometry.now) (replicate (node_blocks geometry.now) zero_block))
        (D.seen dev.old) (D.seen dev.new) }
{
    let at = 1 + geometry.bitmap();
    write_copies(dev, at, geometry.node_map(), &zeros())
}

/// Writes an empty journal that begins at slot 0 with number 1. The slots are zeros, so that none
/// holds what an old entry left.
#[tactic(auto, using(bv_device::proofs::SeenLemmas::runs))]
fn write_journal<D: Device>(dev: &mut D, geometry: &Geometry) -> Result<(), Failed>
    requires counts { IsGeometry geometry.now }
    requires room { total_blocks geometry.now ≤ (D.seen dev.old).block_count }
    ensures { Performs result
        (writes (info_at geometry.now)
        (info_bytes empty_info ∷ replicate (ring_slots geometry.now) zero_block))
        (D.seen dev.old) (D.seen dev.new) }
{
    let info = write_info(&Info {
        start: 0,
        number: 1,
    });
    dev.write(geometry.info_at(), &info)?;
    write_copies(dev, geometry.slot_at(0), geometry.ring(), &zeros())
}

/// Writes the superblock of a volume without a blob, whose fields all lie in one sector.
fn put_super<D: Device>(dev: &mut D, geometry: &Geometry) -> Result<(), Failed>
    requires counts { IsGeometry geometry.now }
    requires room { 0 < (D.seen dev.old).block_count }
    ensures { Performs result (super_plan geometry.now) (D.seen dev.old) (D.seen dev.new) }
{
    let sup = write_super(&Super {
        geometry: *geometry,
        blobs: 0,
        used_blocks: 1,
        used_nodes: 0,
    });
    dev.write(0, &sup)?;
    dev.sync()
}

/// A block of zeros.
#[tactic(auto, unfolding(spec_image::specs::Empty::zero_block))]
fn zeros() -> Block
    ensures { result ≡ zero_block }
{
    [0; 8192]
}

/// A bitmap block with its first bit set.
fn first_bit() -> Block
    ensures { result ≡ first_bit_block }
{
    let mut block = zeros();
    block[0] = 1;
    block
}
