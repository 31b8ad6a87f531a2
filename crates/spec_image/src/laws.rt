//! Laws of the definitions: what each function here ensures holds of all values.

ghost use Rattle.std.specs.Prelude.{◌≡◌, ◌<◌, ◌≤◌, ℕ, List, [], length, true, find, Some, IsSomeAnd, option_map};
ghost use Rattle.std.specs.BTreeMap.{is_at};
ghost use Rattle.std.specs.List.Sorted.{IsStrictlySortedBy};
ghost use Rattle.std.specs.Map.{lookup, keys_of};
ghost use Rattle.spec_disk.specs.declared.event.Event.{Event};
ghost use Rattle.spec_tree.specs.declared.Digest.{Digest};
ghost use Rattle.spec_tree.specs.Tree.{root_of, windows_of};
ghost use Rattle.spec_tree.specs.Order.{digest_cmp, same_digest};
ghost use Rattle.spec_record.specs.declared.geometry.Geometry.{Geometry};
ghost use Rattle.spec_record.specs.declared.info.Info.{Info};
ghost use Rattle.spec_record.specs.Entry.{Entry};
ghost use Rattle.spec_record.specs.Geometry.{IsGeometry};
ghost use Rattle.spec_image.specs.After.{after};
ghost use Rattle.spec_image.specs.Journal.{Journal, journal_of};
ghost use Rattle.spec_image.specs.Replay.{IsReplay, replay};
ghost use Rattle.spec_image.specs.Same.{SameJournal, SameMetadata, SameBlocks};
ghost use Rattle.spec_image.specs.Blobs.{value_of, blob_map};
ghost use Rattle.spec_image.specs.Chain.{BlobRecord};
ghost use Rattle.spec_image.specs.Stored.{blocks_of, bytes_in};
ghost use Rattle.spec_image.specs.Chance.{NoChance};
ghost use Rattle.spec_image.specs.Metadata.{Metadata};
ghost use Rattle.spec_image.specs.Torn.{TornAdd};
ghost use Rattle.spec_image.specs.WellFormed.{is_well_formed};
ghost use Rattle.spec_image.specs.WellFormedParts.{WellFormed, CountsUse};
ghost use Rattle.spec_image.specs.Empty.{BeginsEmpty};
ghost use Rattle.spec_image.specs.Volume.{HasGeometry, metadata_of, blobs, IsWhole, IsSound};

/// A journal has one longest list of entries, and `replay` is that list.
pub fn a_journal_has_one_replay()
    ensures is { (j : Journal) → IsReplay j (replay j) }
    ensures alone { (j : Journal) (a b : List Entry) → IsReplay j a → IsReplay j b → a ≡ b }
{}

/// In images that hold all blocks of a geometry, of whatever length, the replay depends on the info
/// block and the ring alone, and the replayed metadata on these and the metadata blocks. So does the
/// map, in such images whose superblock has that geometry. The bytes of a blob depend on its own
/// blocks.
pub fn an_image_depends_on_its_parts()
    ensures replay { (g : Geometry) (a b : List (List ℕ)) → SameJournal g a b
        → replay (journal_of g a) ≡ replay (journal_of g b) }
    ensures after { (g : Geometry) (a b : List (List ℕ)) → SameJournal g a b → SameMetadata g a b
        → after g a ≡ after g b }
    ensures blobs { (g : Geometry) (a b : List (List ℕ))
        → HasGeometry a g → SameJournal g a b → SameMetadata g a b → blobs a ≡ blobs b }
    ensures bytes { (g : Geometry) (a b : List (List ℕ)) (r : BlobRecord)
        → SameBlocks g a b (blocks_of r.extents) → bytes_in g a r ≡ bytes_in g b r }
{}

/// An image whose info block and accepted entries are as synced isn't one by chance where it lacks
/// the header or the commit of the entry that was being written, or has all of that entry as it was
/// last written and lacks the header or the commit of the next.
///
/// The header is lacking where the entry's first slot doesn't bear the magic of entries and the
/// entry's number, and the commit where no other slot of the ring does.
pub fn a_torn_add_is_no_chance()
    ensures { (g : Geometry) (i : Info) (base : List (List ℕ)) (p : List Event) (j : List (List ℕ))
        → TornAdd g i base p j → NoChance base p j }
{}

/// An image whose replay has no entry isn't one by chance, whatever was being written: so where a
/// checkpoint has left every entry before the journal's start, and where no info block is read.
pub fn an_image_without_entries_is_no_chance()
    ensures { (g : Geometry) (base : List (List ℕ)) (p : List Event) (j : List (List ℕ))
        → HasGeometry j g → replay (journal_of g j) ≡ [] → NoChance base p j }
{}

/// Where each window of a blob verifies, its bytes have its root.
pub fn a_sound_blob_is_whole()
    ensures { (image : List (List ℕ)) (root : Digest) → IsSound image root → IsWhole image root }
{}

/// The tests of metadata say that it is well formed, part by part.
pub fn well_formed_metadata_has_all_its_parts()
    ensures parts { (m : Metadata) → is_well_formed m ≡ true → WellFormed m }
    ensures tests { (m : Metadata) → WellFormed m → is_well_formed m ≡ true }
{}

/// The counts of well-formed metadata are the inodes in use, the bits that are set and the nodes in
/// use, where the bitmap isn't empty and has a bit for each data block.
pub fn the_counts_are_what_is_in_use()
    ensures { (m : Metadata) → WellFormed m → 0 < m.bit_count
        → m.super.geometry.blocks ≤ m.bit_count → CountsUse m }
{}

/// The map of some blobs stands in the order of the roots, and has at a root what the first blob
/// with that root says.
pub fn a_map_has_its_blobs_in_order()
    ensures order { (bs : List BlobRecord) → IsStrictlySortedBy digest_cmp (keys_of (blob_map bs)) }
    ensures value { (bs : List BlobRecord) (root : Digest)
        → lookup (is_at (digest_cmp root)) (blob_map bs)
        ≡ option_map value_of (find (λ b. same_digest root b.root) bs) }
{}

/// An image that begins with the blocks of a volume without a blob is such a volume: its metadata
/// has this geometry, and there is no blob in it.
pub fn a_volume_begins_empty()
    ensures made { (g : Geometry) (j : List (List ℕ)) → IsGeometry g → BeginsEmpty g j
        → IsSomeAnd (metadata_of j) (λ m. m.super.geometry ≡ g) }
    ensures empty { (g : Geometry) (j : List (List ℕ)) → IsGeometry g → BeginsEmpty g j
        → blobs j ≡ Some [] }
{}
