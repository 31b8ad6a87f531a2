//! Data blocks in two extents, bits that say the wrong thing, and the counts of a superblock.
ghost use Rattle.std.specs.Prelude.{◌≡◌, ◌++◌, ◌+◌, ◌-◌, ◌*◌, ◌<◌, ◌≤◌, ◌^◌, ◌||◌, ◌==◌, nat_le, count_by, sum_by, OnOk, length, slice_index};
ghost use Rattle.spec_disk.specs.Disk.{block};
ghost use Rattle.spec_record.specs.Geometry.{bitmap_blocks};
ghost use Rattle.spec_record.specs.declared.field_name.FieldName.TheVariants as names;
ghost use Rattle.spec_meta.specs.Survey.{of_each, count_fault};
ghost use Rattle.bv_txn.specs.Drafts.{bits_at};
ghost use Rattle.bv_txn.specs.Metas.{IsLawful};
ghost use Rattle.bv_txn.specs.Surveys.{overlap_fault, bit_fault};

use crate::SurveyFault;
use bv_bitmap::bit_in;
use bv_bytes::Block;
use bv_node::BlobRec;
use spec_record::{FieldName, Geometry, Super};
use std::alloc::AllocError;

/// Adds the fault of data block `d`, where the data blocks are in so many extents.
fn add_overlap(depths: &[u32], d: usize, faults: &mut Vec<SurveyFault>) -> Result<(), AllocError>
    requires { d < length depths.now }
    ensures { OnOk result (faults.new.items ≡ faults.old.items ++ overlap_fault depths.now d) }
{
    if depths[d] > 1 {
        faults.push(SurveyFault::Overlap { block: d as u64 })?;
    }
    Ok(())
}

/// Adds the faults of the data blocks in two extents, where each is in so many.
pub(crate) fn add_overlaps(depths: &[u32], faults: &mut Vec<SurveyFault>) -> Result<(), AllocError>
    ensures { OnOk result (faults.new.items ≡ faults.old.items
        ++ of_each (length depths.now) (overlap_fault depths.now)) }
{
    for d in 0..depths.len() {
        add_overlap(depths, d, faults)?;
    }
    Ok(())
}

/// Bit `d` of the bitmap in these metadata blocks.
fn bit_at(base: &[Block], d: u64) -> bool
    requires few { d < 2 ^ 32 }
    requires block { d < 65536 * (length base.now - 1) }
    ensures { result ≡ bits_at (block base.now) d }
{
    bit_in(&base[1 + (d / 65_536) as usize], d % 65_536)
}

/// Whether bit `d` is to be set, where the data blocks are in so many extents.
fn is_wanted(depths: &[u32], d: u64) -> bool
    ensures { result ≡ (d == 0) || nat_le 1 (slice_index depths.now d) }
{
    d == 0 || depths.get(d as usize).is_some_and(|depth| *depth >= 1)
}

/// Adds the fault of bit `d`, where it says the wrong thing.
fn add_bit(
    base: &[Block],
    depths: &[u32],
    d: u64,
    faults: &mut Vec<SurveyFault>,
) -> Result<(), AllocError>
    requires few { d < 2 ^ 32 }
    requires block { d < 65536 * (length base.now - 1) }
    ensures { OnOk result (faults.new.items ≡ faults.old.items ++ bit_fault base.now depths.now d) }
{
    let says = bit_at(base, d);
    if says != is_wanted(depths, d) {
        faults.push(SurveyFault::Bitmap { block: d, says })?;
    }
    Ok(())
}

/// Adds the faults of the bits of the bitmap that say the wrong thing.
pub(crate) fn add_bits(
    geometry: &Geometry,
    base: &[Block],
    depths: &[u32],
    faults: &mut Vec<SurveyFault>,
) -> Result<(), AllocError>
    requires { IsLawful geometry.now base.now }
    ensures { OnOk result (faults.new.items ≡ faults.old.items
        ++ of_each (65536 * bitmap_blocks geometry.now) (bit_fault base.now depths.now)) }
{
    for d in 0..65_536 * geometry.bitmap() {
        add_bit(base, depths, d, faults)?;
    }
    Ok(())
}

/// Adds the fault of a count that isn't the number that was found.
fn add_count(
    field: FieldName,
    said: u64,
    found: u64,
    faults: &mut Vec<SurveyFault>,
) -> Result<(), AllocError>
    ensures { OnOk result (faults.new.items ≡ faults.old.items ++ count_fault field said found) }
{
    if said != found {
        faults.push(SurveyFault::SuperCount { field, said, found })?;
    }
    Ok(())
}

/// How many nodes these blobs have.
fn nodes_in(blobs: &[BlobRec]) -> u64
    requires { sum_by (λ b. length b.nodes) blobs.now < 2 ^ 32 }
    ensures { result ≡ sum_by (λ b. length b.nodes) blobs.now }
{
    blobs.iter().map(|blob| blob.nodes().len() as u64).sum()
}

/// How many data blocks are in an extent.
fn blocks_in(depths: &[u32]) -> usize
    ensures { result ≡ count_by (λ depth. nat_le 1 depth) depths.now }
{
    depths.iter().filter(|depth| **depth >= 1).count()
}

/// Adds the faults of a superblock's counts.
pub(crate) fn add_counts(
    said: &Super,
    blobs: &[BlobRec],
    depths: &[u32],
    faults: &mut Vec<SurveyFault>,
) -> Result<(), AllocError>
    requires { sum_by (λ b. length b.nodes) blobs.now < 2 ^ 32 }
    ensures { OnOk result (faults.new.items ≡ faults.old.items
        ++ (count_fault names.Blobs said.now.blobs (length blobs.now)
        ++ count_fault names.UsedBlocks said.now.used_blocks
        (1 + count_by (λ depth. nat_le 1 depth) depths.now)
        ++ count_fault names.UsedNodes said.now.used_nodes
        (sum_by (λ b. length b.nodes) blobs.now))) }
{
    add_count(FieldName::Blobs, said.blobs, blobs.len() as u64, faults)?;
    let used_blocks = 1 + blocks_in(depths) as u64;
    add_count(FieldName::UsedBlocks, said.used_blocks, used_blocks, faults)?;
    add_count(
        FieldName::UsedNodes,
        said.used_nodes,
        nodes_in(blobs),
        faults,
    )?;
    Ok(())
}
