//! Free nodes, for a blob that is published.

ghost use Rattle.std.specs.Prelude.{◌≡◌, ◌≤◌, ◌+◌, length, true, IfOk};
ghost use Rattle.spec_image.specs.WellFormed.{is_well_formed};
ghost use Rattle.bv_txn.specs.Metas.{metadata_of};
ghost use Rattle.bv_journaled.specs.Publishing.{AreFree};

use crate::reading::is_free;
use bv_txn::Meta;
use std::alloc::{AllocError, Global};

/// The first free nodes from one on, in order: so many at most.
fn free_nodes_from(
    alloc: Global,
    meta: &Meta,
    from: u64,
    count: u64,
) -> Result<Vec<u32>, AllocError>
    ensures few { IfOk result (λ nodes. length nodes.items ≤ count) }
    ensures free { IfOk result (λ nodes.
        AreFree (metadata_of meta.now) (length nodes.items) nodes.items) }
{
    let mut free = Vec::new(alloc);
    for node in from..meta.geometry().nodes {
        if free.len() as u64 == count {
            return Ok(free);
        }
        if is_free(meta, node) {
            free.push(node as u32)?;
        }
    }
    Ok(free)
}

/// The first free nodes, in order: so many.
fn first_free_nodes(alloc: Global, meta: &Meta, count: u64) -> Result<Vec<u32>, AllocError>
    requires formed { is_well_formed (metadata_of meta.now) ≡ true }
    requires room { (metadata_of meta.now).super.used_nodes + count ≤ meta.now.geometry.nodes }
    ensures { IfOk result (λ nodes. AreFree (metadata_of meta.now) count nodes.items) }
{
    let mut free = Vec::new(alloc);
    for node in 0..meta.geometry().nodes {
        if free.len() as u64 == count {
            return Ok(free);
        }
        if is_free(meta, node) {
            free.push(node as u32)?;
        }
    }
    Ok(free)
}

/// Free nodes, so many: from this one on, or the first ones where too few are free from there on.
pub(crate) fn free_nodes(
    alloc: Global,
    meta: &Meta,
    from: u64,
    count: u64,
) -> Result<Vec<u32>, AllocError>
    requires formed { is_well_formed (metadata_of meta.now) ≡ true }
    requires room { (metadata_of meta.now).super.used_nodes + count ≤ meta.now.geometry.nodes }
    ensures { IfOk result (λ nodes. AreFree (metadata_of meta.now) count nodes.items) }
{
    let free = free_nodes_from(alloc, meta, from, count)?;
    if free.len() as u64 == count {
        return Ok(free);
    }
    first_free_nodes(alloc, meta, count)
}
