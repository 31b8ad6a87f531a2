//! The publication of an entry.

ghost use Rattle.std.specs.Prelude.{◌≡◌, true, IfOk};
ghost use Rattle.spec_image.specs.WellFormed.{is_well_formed};
ghost use Rattle.bv_txn.specs.Changes.{change_of};
ghost use Rattle.bv_txn.specs.Metas.{metadata_of};
ghost use Rattle.bv_journaled.specs.Publishing.{CanTake, Publishes};

use crate::freeing::free_nodes;
use bv_node::{nodes_for, runs_of};
use bv_store::Publication;
use bv_txn::{Change, Meta};
use std::alloc::{AllocError, Global};

/// The change that publishes a blob: its blocks in the fewest extents, in free nodes from this one on
/// where enough are.
pub(crate) fn publication_of(
    alloc: Global,
    meta: &Meta,
    from: u64,
    published: &Publication,
) -> Result<Change, AllocError>
    requires formed { is_well_formed (metadata_of meta.now) ≡ true }
    requires fits { CanTake meta.now published.now }
    ensures { IfOk result (λ change.
        Publishes (metadata_of meta.now) published.now (change_of change)) }
{
    let version = meta.geometry().version as u16;
    let extents = runs_of(alloc, &published.blocks)?;
    let count = nodes_for(extents.len() as u64);
    let nodes = free_nodes(alloc, meta, from, count)?;
    Ok(Change::Publish {
        root: published.root,
        size: published.blob.size,
        version,
        extents,
        nodes,
    })
}
