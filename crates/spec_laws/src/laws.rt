//! Laws of the definitions: what each function here ensures holds of all values.

ghost use Rattle.std.specs.Prelude.{◌≡◌, ◌↔◌, ◌<◌, ◌≤◌, ◌-◌, ℕ, List, [], ◌++◌, length, sum_by};
ghost use Rattle.std.specs.Prelude.{Some, IsSomeAnd, is_some, Contains};
ghost use Rattle.std.specs.BTreeMap.{is_at};
ghost use Rattle.std.specs.List.Sorted.{IsStrictlySortedBy};
ghost use Rattle.std.specs.Map.{lookup, keys_of, values_of};
ghost use Rattle.spec_tree.specs.declared.Digest.{Digest};
ghost use Rattle.spec_tree.specs.declared.blob.Blob.{Blob};
ghost use Rattle.spec_tree.specs.Order.{digest_cmp};
ghost use Rattle.spec_tree.specs.Tree.{need_of, root_of};
ghost use Rattle.spec_disk.specs.declared.event.Event.{Event};
ghost use Rattle.spec_disk.specs.Disk.{Blocks};
ghost use Rattle.spec_record.specs.declared.geometry.Geometry.{Geometry};
ghost use Rattle.spec_image.specs.After.{after};
ghost use Rattle.spec_image.specs.Blobs.{value_of, blob_map};
ghost use Rattle.spec_image.specs.Chain.{BlobRecord};
ghost use Rattle.spec_image.specs.Journal.{journal_of};
ghost use Rattle.spec_image.specs.Leaves.{LeavesWithin};
ghost use Rattle.spec_image.specs.Metadata.{Metadata, metadata_in};
ghost use Rattle.spec_image.specs.Stored.{bytes_in, AllVerify};
ghost use Rattle.spec_image.specs.Volume.{HasGeometry, metadata_of, blobs, blob_in, bytes_of, IsWhole, IsSound};
ghost use Rattle.spec_image.specs.WellFormed.{records_of, chains_with};
ghost use Rattle.spec_image.specs.WellFormedParts.{WellFormed};
ghost use Rattle.spec_core.specs.History.{History, setting_of, opening_map, first_state, log_of};
ghost use Rattle.spec_core.specs.Room.{blob_need, taken};
ghost use Rattle.spec_crash.specs.Crash.{HoldsWhole, CrashPrefix};
ghost use Rattle.spec_laws.specs.Keeps.{KeepsBlobs};

/// Images of one geometry and one length, whose info blocks are both read or both not, have the
/// same metadata and the same map where the replay leaves the same metadata blocks.
pub fn equal_metadata_blocks_are_equal_metadata()
    ensures metadata { (g : Geometry) (a b : Blocks) → HasGeometry a g → HasGeometry b g
        → length a ≡ length b
        → is_some (journal_of g a).info ≡ is_some (journal_of g b).info → after g a ≡ after g b
        → metadata_of a ≡ metadata_of b }
    ensures map { (g : Geometry) (a b : Blocks) → HasGeometry a g → HasGeometry b g
        → length a ≡ length b
        → is_some (journal_of g a).info ≡ is_some (journal_of g b).info → after g a ≡ after g b
        → blobs a ≡ blobs b }
{}

/// Where an image has metadata, these are well formed, of the geometry of the image's superblock,
/// and what the replayed blocks say with the superblock that they begin with.
pub fn metadata_of_an_image_is_well_formed()
    ensures formed { (j : Blocks) (m : Metadata) → metadata_of j ≡ Some m → WellFormed m }
    ensures geometry { (j : Blocks) (m : Metadata) → metadata_of j ≡ Some m
        → HasGeometry j m.super.geometry }
    ensures read { (j : Blocks) (m : Metadata) → metadata_of j ≡ Some m
        → m ≡ metadata_in m.super (after m.super.geometry j) }
{}

/// In well-formed metadata a node stands in at most one chain, and in it once.
pub fn a_node_stands_in_one_chain()
    ensures { (m : Metadata) → WellFormed m → (k : ℕ) → chains_with (records_of m) k ≤ 1 }
{}

/// The blobs of an image need no more blocks than there are but block 0, and their chains no more
/// nodes than there are. So they fit where a mount begins with them.
pub fn the_blobs_of_an_image_fit()
    ensures blocks { (m : Metadata) → WellFormed m
        → sum_by (λ b. need_of b.version b.size) (records_of m) ≤ m.super.geometry.blocks - 1 }
    ensures nodes { (m : Metadata) → WellFormed m
        → sum_by (λ b. length b.nodes) (records_of m) ≤ m.nodes.count }
    ensures map { (j : Blocks) (held : List (Digest × Blob)) → blobs j ≡ Some held
        → IsSomeAnd (metadata_of j) (λ m.
        sum_by blob_need (values_of held) ≤ m.super.geometry.blocks - 1) }
    ensures room { (j : Blocks) (h : History) (next : ℕ) → blobs j ≡ Some (opening_map h)
        → IsSomeAnd (metadata_of j) (λ m. m.super.geometry.blocks ≡ h.blocks)
        → taken (setting_of h) (first_state (opening_map h) next) ≤ h.blocks - 1 }
{}

/// In an image with metadata a record is the one of its root, and tells whether the blob is Whole
/// and whether it is Sound.
pub fn a_blob_is_known_by_its_record()
    ensures found { (m : Metadata) (b : BlobRecord) → WellFormed m → Contains (records_of m) b
        → blob_in m b.root ≡ Some b }
    ensures value { (m : Metadata) (b : BlobRecord) → WellFormed m → Contains (records_of m) b
        → lookup (is_at (digest_cmp b.root)) (blob_map (records_of m)) ≡ Some (value_of b) }
    ensures known { (m : Metadata) (root : Digest) (b : BlobRecord) → blob_in m root ≡ Some b
        → Contains (records_of m) b × (b.root ≡ root) }
    ensures bytes { (j : Blocks) (m : Metadata) (b : BlobRecord) → metadata_of j ≡ Some m
        → Contains (records_of m) b
        → bytes_of j b.root ≡ Some (bytes_in m.super.geometry j b) }
    ensures whole { (j : Blocks) (m : Metadata) (b : BlobRecord) → metadata_of j ≡ Some m
        → Contains (records_of m) b
        → IsWhole j b.root ↔ (root_of (bytes_in m.super.geometry j b) ≡ b.root) }
    ensures sound { (j : Blocks) (m : Metadata) (b : BlobRecord) → metadata_of j ≡ Some m
        → Contains (records_of m) b → IsSound j b.root ↔ AllVerify m.super.geometry j b }
{}

/// Two maps in the order of their roots that have the same at each root are the same list.
pub fn sorted_maps_with_equal_lookups_are_equal()
    ensures { (a b : List (Digest × Blob)) → IsStrictlySortedBy digest_cmp (keys_of a)
        → IsStrictlySortedBy digest_cmp (keys_of b)
        → ((root : Digest) → lookup (is_at (digest_cmp root)) a
        ≡ lookup (is_at (digest_cmp root)) b)
        → a ≡ b }
{}

/// A mount whose history has no event keeps the theorem of stops exactly where each stop leaves
/// the blobs with which it began: so over a recovery. A run that keeps blobs goes on keeping them
/// where each stop within what follows does.
pub fn a_mount_without_an_event_keeps_its_blobs()
    ensures theorem { (base : Blocks) (events : List Event) (h : History) → h.events ≡ []
        → KeepsBlobs base events (opening_map h) → CrashPrefix base events h }
    ensures blobs { (base : Blocks) (events : List Event) (h : History) → log_of h ≡ []
        → CrashPrefix base events h → KeepsBlobs base events (opening_map h) }
    ensures first { (base : Blocks) (held : List (Digest × Blob)) → HoldsWhole base held
        → KeepsBlobs base [] held }
    ensures more { (base : Blocks) (events more : List Event) (held : List (Digest × Blob))
        → KeepsBlobs base events held
        → LeavesWithin base events more (λ j. HoldsWhole j held)
        → KeepsBlobs base (events ++ more) held }
{}
