//! An entry drawn up: its images, and its blocks as they are written.

ghost use Rattle.std.specs.Prelude.{◌≡◌, ◌^◌, ◌-◌, map, true, All, IfOk};
ghost use Rattle.spec_record.specs.EntryBlocks.{entry_blocks};
ghost use Rattle.spec_record.specs.Field.{IsBlock, IsBytes};
ghost use Rattle.spec_record.specs.Tests.{IsBetween};
ghost use Rattle.spec_image.specs.WellFormed.{is_well_formed};
ghost use Rattle.spec_meta.specs.Change.{after_all};
ghost use Rattle.spec_meta.specs.Fits.{AllFit};
ghost use Rattle.bv_txn.specs.Changes.{change_of};
ghost use Rattle.bv_txn.specs.Metas.{metadata_of};
ghost use Rattle.bv_txn.specs.Plans.{Plans};

use bv_bytes::Block;
use bv_entry::{Entry, write_entry};
use bv_txn::{Change, Meta};
use std::alloc::{AllocError, Global};

/// Tells of bytes what their type says.
fn tell_bytes(_bytes: &[u8])
    ensures { IsBytes _bytes.now }
{}

/// Tells of a block what its type says.
fn tell_block(block: &Block)
    ensures { IsBlock block.now }
{
    tell_bytes(&block[..]);
}

/// Tells of targets what their types say.
fn tell_targets(targets: &[(u64, Block)])
    ensures { All (λ t. IsBlock t.1) targets.now }
{
    for target in targets {
        tell_block(&target.1);
    }
}

/// The entry of a number that makes changes of the metadata, in order, and its blocks.
pub(crate) fn draw_up(
    alloc: Global,
    meta: &Meta,
    number: u64,
    changes: &[Change],
) -> Result<(Entry, Vec<Block>), AllocError>
    requires well_formed { is_well_formed (metadata_of meta.now) ≡ true }
    requires number { IsBetween 1 number (2 ^ 62 - 1) }
    requires fit { AllFit (metadata_of meta.now) (map change_of changes.now) }
    ensures plans { IfOk result (λ drawn. Plans meta.now.geometry meta.now.blocks number
        (after_all (metadata_of meta.now) (map change_of changes.now)) drawn.0) }
    ensures whole { IfOk result (λ drawn. All (λ t. IsBlock t.1) drawn.0.targets) }
    ensures blocks { IfOk result (λ drawn. drawn.1.items ≡ entry_blocks drawn.0) }
{
    let entry = meta.plan(alloc, number, changes)?;
    tell_targets(entry.targets());
    let blocks = write_entry(alloc, &entry, meta.geometry().meta())?;
    Ok((entry, blocks))
}
