//! The purges of an entry.

ghost use Rattle.std.specs.Prelude.{◌≡◌, ◌++◌, cond, true, None, map, if◌then◌else◌, IfOk, OnOk};
ghost use Rattle.std.specs.List.{list_any};
ghost use Rattle.spec_core.specs.State as S;
ghost use Rattle.spec_tree.specs.declared.Digest.{Digest};
ghost use Rattle.spec_tree.specs.Order.{same_digest};
ghost use Rattle.spec_image.specs.Volume.{blob_in};
ghost use Rattle.spec_image.specs.WellFormed.{is_well_formed};
ghost use Rattle.spec_meta.specs.Change.{Purge as Purged};
ghost use Rattle.bv_txn.specs.Changes.{change_of};
ghost use Rattle.bv_txn.specs.Metas.{metadata_of};
ghost use Rattle.bv_journaled.specs.Purging.{purge_change, purge_changes};

use crate::hints::Hints;
use crate::lookup::find_blob;
use bv_node::BlobRec;
use bv_txn::{Change, Meta};
use spec_tree::Digest;
use std::alloc::{AllocError, Global};
use std::collections::BTreeSet;

/// The purge of a blob.
fn purge_of(alloc: Global, blob: &BlobRec) -> Result<Change, AllocError>
    ensures { IfOk result (λ c. change_of c ≡ Purged blob.now.nodes blob.now.extents) }
{
    let nodes = Vec::from_slice(alloc, blob.nodes())?;
    let extents = Vec::from_slice(alloc, blob.extents())?;
    Ok(Change::Purge { nodes, extents })
}

/// Adds the purge of a root's blob, where there is one that no root before it has purged.
fn add_purge(
    alloc: Global,
    meta: &Meta,
    hints: &Hints,
    before: &BTreeSet<Digest>,
    root: &Digest,
    changes: &mut Vec<Change>,
) -> Result<(), AllocError>
    requires { is_well_formed (metadata_of meta.now) ≡ true }
    ensures { OnOk result (map change_of changes.new.items ≡ map change_of changes.old.items
        ++ purge_change (if list_any (same_digest root.now) before.now.keys then None
        else blob_in (metadata_of meta.now) root.now)) }
{
    if before.contains(root) {
        return Ok(());
    }
    let Some(blob) = find_blob(alloc, meta, hints, root)? else {
        return Ok(());
    };
    changes.push(purge_of(alloc, &blob)?)?;
    Ok(())
}

/// Puts a root among those before.
fn note_root(before: &mut BTreeSet<Digest>, root: &Digest) -> Result<(), AllocError>
    ensures { OnOk result ((r : Digest) → S.among before.new.keys r
        ≡ cond (same_digest root.now r) true (S.among before.old.keys r)) }
{
    match before.insert(*root) {
        Ok(_) => Ok(()),
        Err(_) => Err(AllocError),
    }
}

/// The purges of the blobs of these roots, in order.
pub(crate) fn purges(
    alloc: Global,
    meta: &Meta,
    hints: &Hints,
    roots: &[Digest],
) -> Result<Vec<Change>, AllocError>
    requires { is_well_formed (metadata_of meta.now) ≡ true }
    ensures { IfOk result (λ changes. map change_of changes.items
        ≡ purge_changes (metadata_of meta.now) roots.now) }
{
    let mut changes = Vec::new(alloc);
    let mut before = BTreeSet::new(alloc);
    for root in roots {
        add_purge(alloc, meta, hints, &before, root, &mut changes)?;
        note_root(&mut before, root)?;
    }
    Ok(changes)
}
