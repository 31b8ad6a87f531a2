//! The blob of a root, looked up in the metadata.

ghost use Rattle.std.specs.Prelude.{◌≡◌, ◌<◌, ◌*◌, length, find, is_some, true, IfOk};
ghost use Rattle.std.specs.Option.{option_to_list};
ghost use Rattle.spec_image.specs.Chain.{chain as chain_of};
ghost use Rattle.spec_image.specs.Volume.{blob_in};
ghost use Rattle.spec_image.specs.WellFormed.{is_well_formed, read_of};
ghost use Rattle.spec_meta.proofs.MapLemmas.{named};
ghost use Rattle.bv_node.specs.Chains.{nodes_of};
ghost use Rattle.bv_txn.specs.Metas.{metadata_of};

use crate::hints::Hints;
use crate::reading::is_inode_of;
use bv_node::{BlobRec, ChainFault, NodeMap, chain};
use bv_txn::Meta;
use spec_record::Geometry;
use spec_tree::Digest;
use std::alloc::{AllocError, Global};

/// The blob of the inode at node `k`, where its chain reads.
fn blob_at(
    alloc: Global,
    nodes: &NodeMap,
    geometry: &Geometry,
    k: u32,
) -> Result<Option<BlobRec>, AllocError>
    requires { k < 128 * length nodes.now }
    ensures { IfOk result (λ found. option_to_list found
        ≡ read_of (chain_of (nodes_of nodes.now geometry.now.version) geometry.now.blocks k)) }
{
    match chain(alloc, nodes, geometry.blocks, geometry.version, k) {
        Ok(blob) => Ok(Some(blob)),
        Err(ChainFault::Node(_)) => Ok(None),
        Err(ChainFault::NoMemory) => Err(AllocError),
    }
}

/// The blob of the inode at a node of the metadata, where its chain reads.
fn blob_of(alloc: Global, meta: &Meta, node: u64) -> Result<Option<BlobRec>, AllocError>
    requires { node < meta.now.geometry.nodes }
    ensures { IfOk result (λ found. option_to_list found
        ≡ read_of (chain_of (metadata_of meta.now).nodes meta.now.geometry.blocks node)) }
{
    let geometry = meta.geometry();
    let from = (1 + geometry.bitmap()) as usize;
    let nodes = NodeMap::new(&meta.blocks()[from..]);
    blob_at(alloc, &nodes, &geometry, node as u32)
}

/// The blob of the inode at a node, where its chain reads and it has this root.
fn blob_named(
    alloc: Global,
    meta: &Meta,
    node: u64,
    root: &Digest,
) -> Result<Option<BlobRec>, AllocError>
    requires { node < meta.now.geometry.nodes }
    ensures { IfOk result (λ found. found ≡ find (named root.now)
        (read_of (chain_of (metadata_of meta.now).nodes meta.now.geometry.blocks node))) }
{
    if !is_inode_of(meta, node, root) {
        return Ok(None);
    }
    blob_of(alloc, meta, node)
}

/// The blob with this root, or none, by all inodes. Only the chains of those that have the root are
/// read.
fn search_blob(alloc: Global, meta: &Meta, root: &Digest) -> Result<Option<BlobRec>, AllocError>
    ensures { IfOk result (λ found. found ≡ blob_in (metadata_of meta.now) root.now) }
{
    for node in 0..meta.geometry().nodes {
        let found = blob_named(alloc, meta, node, root)?;
        if found.is_some() {
            return Ok(found);
        }
    }
    Ok(None)
}

/// The blob with this root, where the hint tells its inode.
fn hinted_blob(
    alloc: Global,
    meta: &Meta,
    hints: &Hints,
    root: &Digest,
) -> Result<Option<BlobRec>, AllocError>
    requires { is_well_formed (metadata_of meta.now) ≡ true }
    ensures { IfOk result (λ found. is_some found ≡ true
        → found ≡ blob_in (metadata_of meta.now) root.now) }
{
    let Some(inode) = hints.inode_of(root) else {
        return Ok(None);
    };
    let node = u64::from(inode);
    if node >= meta.geometry().nodes {
        return Ok(None);
    }
    blob_named(alloc, meta, node, root)
}

/// The blob with this root, or none.
pub(crate) fn find_blob(
    alloc: Global,
    meta: &Meta,
    hints: &Hints,
    root: &Digest,
) -> Result<Option<BlobRec>, AllocError>
    requires { is_well_formed (metadata_of meta.now) ≡ true }
    ensures { IfOk result (λ found. found ≡ blob_in (metadata_of meta.now) root.now) }
{
    let found = hinted_blob(alloc, meta, hints, root)?;
    if found.is_some() {
        return Ok(found);
    }
    search_blob(alloc, meta, root)
}
