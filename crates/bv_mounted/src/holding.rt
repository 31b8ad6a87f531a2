//! The blocks of a volume's blobs, which the boss of the reservations owns.
ghost use Rattle.std.specs.Prelude.{◌≡◌, ◌≤◌, ◌+◌, ◌++◌, [], length, All};
ghost use Rattle.spec_image.specs.Stored.{blocks_of};
ghost use Rattle.bv_claims.specs.Blocks.{HasEachOnce};
ghost use Rattle.bv_claims.specs.Tokens.{IsBossOf, block_count, boss_owned, boss_room};
ghost use Rattle.bv_mounted.specs.Mounts.{blocks_of_all};

use bv_claims::{Boss, Claims};
use bv_node::{BlobRec, Extent};
use bv_space::Space;
use std::alloc::Global;

/// Has the boss own the blocks of these extents.
fn hold_extents(claims: &Claims, boss: &mut Boss, extents: &[Extent])
    requires table { IsBossOf claims.now boss.old }
    requires idle { length (boss_owned boss.old) + boss_room boss.old + 1 ≡ block_count claims.now }
    requires within { All (λ e. (1 ≤ e.start) × (e.start + e.len ≤ block_count claims.now))
        extents.now }
    requires once { HasEachOnce (boss_owned boss.old ++ blocks_of extents.now) }
    ensures table { IsBossOf claims.now boss.new }
    ensures owned { boss_owned boss.new ≡ boss_owned boss.old ++ blocks_of extents.now }
    ensures room { boss_room boss.new + length (blocks_of extents.now) ≡ boss_room boss.old }
{
    for extent in extents {
        boss.hold_run(claims, extent.start, extent.len);
    }
}

/// Has the boss own the blocks of these blobs, while it owns no others.
fn hold_blobs(claims: &Claims, boss: &mut Boss, blobs: &[BlobRec])
    requires table { IsBossOf claims.now boss.old }
    requires none { boss_owned boss.old ≡ [] }
    requires room { boss_room boss.old + 1 ≡ block_count claims.now }
    requires within { All (λ b. All
        (λ e. (1 ≤ e.start) × (e.start + e.len ≤ block_count claims.now)) b.extents) blobs.now }
    requires once { HasEachOnce (blocks_of_all blobs.now) }
    ensures table { IsBossOf claims.now boss.new }
    ensures owned { boss_owned boss.new ≡ blocks_of_all blobs.now }
    ensures room { boss_room boss.new + length (blocks_of_all blobs.now) ≡ boss_room boss.old }
{
    for blob in blobs {
        hold_extents(claims, boss, blob.extents());
    }
}

/// The space of a volume that has these blobs, on a table of which block 0 alone is taken.
pub(crate) fn space_of<'t>(
    alloc: Global,
    claims: &'t Claims,
    mut boss: Boss,
    blobs: &[BlobRec],
) -> Space<'t>
    requires table { IsBossOf claims.now boss }
    requires none { boss_owned boss ≡ [] }
    requires room { boss_room boss + 1 ≡ block_count claims.now }
    requires within { All (λ b. All
        (λ e. (1 ≤ e.start) × (e.start + e.len ≤ block_count claims.now)) b.extents) blobs.now }
    requires once { HasEachOnce (blocks_of_all blobs.now) }
    ensures once { HasEachOnce result.owned }
    ensures claims { result.claims ≡ claims.now }
    ensures owned { result.owned ≡ blocks_of_all blobs.now }
    ensures room { result.room + length (blocks_of_all blobs.now) + 1 ≡ block_count claims.now }
    ensures none { (result.adds ≡ []) × (result.gone ≡ []) × (result.nodes ≡ []) }
    ensures spare { result.spare ≡ 0 }
{
    hold_blobs(claims, &mut boss, blobs);
    Space::new(alloc, claims, boss)
}
