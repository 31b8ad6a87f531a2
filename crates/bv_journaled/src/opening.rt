//! Laws of a mount: what a recovery keeps, and what purges make.

ghost use Rattle.std.specs.Prelude.{◌≡◌, ◌<◌, ◌≤◌, ℕ, List, [], ◌∷◌, ◌++◌, true, None, if◌then◌else◌, All, Contains};
ghost use Rattle.std.specs.List.{list_any};
ghost use Rattle.spec_tree.specs.Order.{same_digest};
ghost use Rattle.spec_image.specs.Volume.{blob_in};
ghost use Rattle.spec_tree.specs.declared.Digest.{Digest};
ghost use Rattle.spec_tree.specs.Tree.{root_of};
ghost use Rattle.spec_disk.specs.Disk.{Blocks};
ghost use Rattle.spec_record.specs.declared.geometry.Geometry.{Geometry};
ghost use Rattle.spec_record.specs.declared.info.Info.{Info};
ghost use Rattle.spec_record.specs.Geometry.{IsGeometry, ring_slots};
ghost use Rattle.spec_record.specs.Entry.{Entry};
ghost use Rattle.spec_image.specs.Blobs.{blob_map};
ghost use Rattle.spec_image.specs.Chain.{BlobRecord};
ghost use Rattle.spec_image.specs.Metadata.{Metadata};
ghost use Rattle.spec_image.specs.Stored.{bytes_in};
ghost use Rattle.spec_image.specs.WellFormed.{records_of, is_well_formed};
ghost use Rattle.spec_core.specs.Log.{purges};
ghost use Rattle.spec_meta.specs.Blocks.{metadata_at};
ghost use Rattle.spec_meta.specs.Change.{after_all, log_of_all};
ghost use Rattle.spec_meta.specs.Fits.{AllFit};
ghost use Rattle.bv_device.specs.Told.{disk_with};
ghost use Rattle.bv_journal.specs.Plans.{recover_plan};
ghost use Rattle.bv_store.specs.Stored.{placed_without};
ghost use Rattle.bv_journaled.specs.Kept.{records_at, map_at, KeepsMap};
ghost use Rattle.bv_journaled.specs.Purging.{purge_change, purge_changes};
ghost use Rattle.bv_journaled.specs.Standing.{placed_of};

/// A recovery writes to no data block: a disk that was opened as an image keeps, over a recovery of
/// its journal, the map of the replayed metadata, where the image has each of its blobs whole.
pub fn a_recovery_keeps_each_blob()
    ensures { (g : Geometry) (meta image : Blocks) (es : List Entry) (stale : List ℕ) (next : Info)
        → IsGeometry g → All (λ s. s < ring_slots g) stale
        → is_well_formed (metadata_at g meta) ≡ true
        → ((r : BlobRecord) → Contains (records_at g meta) r
        → root_of (bytes_in g image r) ≡ r.root)
        → KeepsMap g (disk_with (record { base = image; trace = [] })
        (recover_plan g es stale next)) meta (map_at g meta) }
{}

/// The purges of the blobs of some roots fit well-formed metadata, and change its map and the places
/// of its blobs as the purges of these roots do. They take no nodes.
pub fn purges_of_roots_are_those_of_the_log()
    ensures fit { (m : Metadata) (roots : List Digest) → is_well_formed m ≡ true
        → AllFit m (purge_changes m roots) }
    ensures logged { (m : Metadata) (roots : List Digest) → is_well_formed m ≡ true
        → log_of_all m (purge_changes m roots) ≡ purges (blob_map (records_of m)) roots }
    ensures placed { (m : Metadata) (roots : List Digest) → is_well_formed m ≡ true
        → placed_of (records_of (after_all m (purge_changes m roots)))
        ≡ placed_without (placed_of (records_of m)) roots }
    ensures nodes { (m : Metadata) (roots : List Digest) → is_well_formed m ≡ true
        → (after_all m (purge_changes m roots)).super.used_nodes ≤ m.super.used_nodes }
    // a root more has the purge of its blob, where no root before it has purged it
    ensures next { (m : Metadata) (roots : List Digest) (root : Digest)
        → is_well_formed m ≡ true → purge_changes m (roots ++ root ∷ [])
        ≡ purge_changes m roots ++ purge_change
        (if list_any (same_digest root) roots then None else blob_in m root) }
{}
