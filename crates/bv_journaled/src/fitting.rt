//! Laws of a publication: its extents, and that it fits behind purges.

ghost use Rattle.std.specs.Prelude.{◌≡◌, ◌≤◌, ℕ, List, true, All, Contains};
ghost use Rattle.spec_tree.specs.declared.Digest.{Digest};
ghost use Rattle.spec_record.specs.Extent.{IsExtent};
ghost use Rattle.spec_record.specs.Geometry.{IsGeometry};
ghost use Rattle.spec_image.specs.Metadata.{Metadata};
ghost use Rattle.spec_image.specs.WellFormed.{records_of, is_well_formed};
ghost use Rattle.spec_meta.specs.Change.{uses, after_all};
ghost use Rattle.spec_meta.specs.Fits.{FitsPublish};
ghost use Rattle.bv_claims.specs.Blocks.{Rises};
ghost use Rattle.bv_node.specs.Runs.{runs};
ghost use Rattle.bv_store.specs.declared.publication.Publication.{Publication};
ghost use Rattle.bv_store.specs.Stored.{CanPublish, blocks_in, nodes_of};
ghost use Rattle.bv_journaled.specs.Publishing.{AreFree, record_of};
ghost use Rattle.bv_journaled.specs.Purging.{purge_changes};
ghost use Rattle.bv_journaled.specs.Standing.{placed_of};

/// The extents of blocks that rise lie on the volume, and none has a block of another.
pub fn extents_of_rising_blocks_lie_apart()
    ensures lie { (bs : List ℕ) (blocks : ℕ) → Rises 1 bs blocks → All (IsExtent blocks) (runs bs) }
    ensures once { (bs : List ℕ) (low blocks d : ℕ) → Rises low bs blocks → uses d (runs bs) ≤ 1 }
    ensures within { (bs : List ℕ) (low blocks d : ℕ) → Rises low bs blocks → 1 ≤ uses d (runs bs)
        → Contains bs d }
{}

/// A publication of blocks that belong to no blob, in free nodes and under a root that is new, fits
/// the metadata behind purges.
pub fn a_publication_fits_behind_purges()
    ensures { (m : Metadata) (roots : List Digest) (p : Publication) (ks : List ℕ)
        → is_well_formed m ≡ true → IsGeometry m.super.geometry
        → CanPublish m.super.geometry (placed_of (records_of m)) p
        → ((d : ℕ) → Contains p.blocks.items d
        → ¬ Contains (blocks_in (placed_of (records_of m))) d)
        → m.super.geometry.blocks ≤ m.bit_count → AreFree m (nodes_of p) ks
        → FitsPublish (after_all m (purge_changes m roots)) (record_of p ks) }
{}
