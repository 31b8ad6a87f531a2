//! In how many extents each data block is.
ghost use Rattle.std.specs.Prelude.{◌≡◌, ◌+◌, ◌<◌, ◌≤◌, ◌^◌, ℕ, All, IfOk, OnOk, length, sum_by, count_by, slice_index};
ghost use Rattle.spec_record.specs.Extent.{IsExtent};
ghost use Rattle.bv_txn.specs.Surveys.{AreDepths, extents_that, starts_at, ends_at};

use bv_node::{BlobRec, Extent};
use std::alloc::{AllocError, Global};

/// Counts the extents that start, and those that end, at each data block.
fn count_edges(starts: &mut [u32], ends: &mut [u32], extents: &[Extent])
    requires length { length ends.old ≡ length starts.old + 1 }
    requires extents { All (IsExtent (length starts.old)) extents.now }
    requires starts_few { (d : ℕ) → d < length starts.old
        → slice_index starts.old d + length extents.now < 2 ^ 32 }
    requires ends_few { (d : ℕ) → d < length ends.old
        → slice_index ends.old d + length extents.now < 2 ^ 32 }
    ensures starts { (d : ℕ) → d < length starts.old → slice_index starts.new d
        ≡ slice_index starts.old d + count_by (starts_at d) extents.now }
    ensures ends { (d : ℕ) → d < length ends.old → slice_index ends.new d
        ≡ slice_index ends.old d + count_by (ends_at d) extents.now }
{
    for extent in extents {
        starts[extent.start as usize] += 1;
        ends[(extent.start + extent.len) as usize] += 1;
    }
}

/// Counts the extents of these blobs that start, and those that end, at each data block.
fn count_all_edges(starts: &mut [u32], ends: &mut [u32], blobs: &[BlobRec])
    requires length { length ends.old ≡ length starts.old + 1 }
    requires extents { All (λ b. All (IsExtent (length starts.old)) b.extents) blobs.now }
    requires few { sum_by (λ b. length b.extents) blobs.now < 2 ^ 32 }
    requires no_start { (d : ℕ) → slice_index starts.old d ≡ 0 }
    requires no_end { (d : ℕ) → slice_index ends.old d ≡ 0 }
    ensures starts { (d : ℕ) → d < length starts.old
        → slice_index starts.new d ≡ extents_that (starts_at d) blobs.now }
    ensures ends { (d : ℕ) → d < length ends.old
        → slice_index ends.new d ≡ extents_that (ends_at d) blobs.now }
{
    for blob in blobs {
        count_edges(starts, ends, blob.extents());
    }
}

/// Counts in how many extents of these blobs each data block is. Both slices are zero; the second
/// lends its memory.
fn fill_depths(depths: &mut [u32], ends: &mut [u32], blobs: &[BlobRec])
    requires length { length ends.old ≡ length depths.old + 1 }
    requires extents { All (λ b. All (IsExtent (length depths.old)) b.extents) blobs.now }
    requires few { sum_by (λ b. length b.extents) blobs.now < 2 ^ 32 }
    requires no_start { (d : ℕ) → slice_index depths.old d ≡ 0 }
    requires no_end { (d : ℕ) → slice_index ends.old d ≡ 0 }
    ensures { AreDepths blobs.now depths.new }
{
    count_all_edges(depths, ends, blobs);
    let mut depth = 0;
    for d in 0..depths.len() {
        depth = depth + depths[d] - ends[d];
        depths[d] = depth;
    }
}

/// In how many extents of these blobs each data block is, of which there are `count`.
pub(crate) fn depths_of(
    alloc: Global,
    count: u64,
    blobs: &[BlobRec],
) -> Result<Vec<u32>, AllocError>
    requires count { count < 2 ^ 32 }
    requires extents { All (λ b. All (IsExtent count) b.extents) blobs.now }
    requires few { sum_by (λ b. length b.extents) blobs.now < 2 ^ 32 }
    ensures count { IfOk result (λ depths. length depths.items ≡ count) }
    ensures depths { IfOk result (λ depths. AreDepths blobs.now depths.items) }
{
    let mut depths = Vec::from_elem(alloc, 0, count as usize)?;
    let mut ends = Vec::from_elem(alloc, 0, count as usize + 1)?;
    fill_depths(&mut depths, &mut ends, blobs);
    Ok(depths)
}
