//! Laws of what a disk keeps: each is the contract of a function that does nothing.

ghost use Rattle.std.specs.Prelude.{◌≡◌, ◌≤◌, ◌^◌, ℕ, List, [], ◌++◌, Option, Some, None, Contains};
ghost use Rattle.spec_tree.specs.Tree.{root_of};
ghost use Rattle.spec_disk.specs.Disk.{Blocks};
ghost use Rattle.spec_disk.specs.Images.{IsSettled};
ghost use Rattle.spec_record.specs.declared.geometry.Geometry.{Geometry};
ghost use Rattle.spec_record.specs.declared.info.Info.{Info};
ghost use Rattle.spec_record.specs.Geometry.{block_at};
ghost use Rattle.spec_record.specs.Entry.{Entry};
ghost use Rattle.spec_record.specs.EntryBlocks.{entry_blocks};
ghost use Rattle.spec_image.specs.Blobs.{value_of};
ghost use Rattle.spec_image.specs.Chain.{BlobRecord};
ghost use Rattle.spec_image.specs.Metadata.{Metadata};
ghost use Rattle.spec_image.specs.Stored.{stored, bytes_in, AllVerify};
ghost use Rattle.spec_image.specs.Volume.{metadata_of, IsWhole, IsSound};
ghost use Rattle.spec_image.specs.WellFormed.{records_of};
ghost use Rattle.spec_core.specs.Log.{changed};
ghost use Rattle.spec_meta.specs.Blocks.{metadata_at};
ghost use Rattle.spec_meta.specs.Change.{Change, Publish, after_all, log_of_all};
ghost use Rattle.spec_meta.specs.Fits.{AllFit};
ghost use Rattle.spec_image.specs.Leaves.{Leaves};
ghost use Rattle.spec_rest.specs.Rest.{Map, HoldsEither};
ghost use Rattle.bv_device.specs.Told.{Disk, disk_with, now_of};
ghost use Rattle.bv_device.specs.Plan.{a_write, a_sync};
ghost use Rattle.bv_journal.specs.Holds.{entries_of, with_entry, patched};
ghost use Rattle.bv_journal.specs.Plans.{ring_writes, checkpoint_plan};
ghost use Rattle.bv_journal.specs.Rests.{IsNext, slot_behind, number_behind};
ghost use Rattle.bv_journal.specs.Stops.{Stops};
ghost use Rattle.bv_store.specs.Stored.{HasBlob};
ghost use Rattle.bv_journaled.specs.Kept.{IsFree, IsKept, KeepsMap, Keeps};

/// Each stop leaves one of the two maps that are kept, every blob whole.
pub fn what_is_kept_is_held()
    ensures { (g : Geometry) (i : Info) (es : List Entry) (more : Option Entry) (meta : Blocks)
        (d : Disk) (a b : Map) → Keeps g i es more meta d a b
        → Leaves d.base d.trace (HoldsEither a b) }
{}

/// A write of a data block that belongs to no blob of either map keeps both.
pub fn a_put_keeps_both_maps()
    ensures stops { (g : Geometry) (i : Info) (es : List Entry) (more : Option Entry)
        (meta : Blocks) (d : Disk) (a b : Map) (at : ℕ) (bytes : List ℕ)
        → Keeps g i es more meta d a b → IsFree g meta at → IsFree g (with_entry more meta) at
        → Stops d (a_write (block_at g at) bytes) (HoldsEither a b) }
    ensures done { (g : Geometry) (i : Info) (es : List Entry) (more : Option Entry)
        (meta : Blocks) (d : Disk) (a b : Map) (at : ℕ) (bytes : List ℕ)
        → Keeps g i es more meta d a b → IsFree g meta at → IsFree g (with_entry more meta) at
        → Keeps g i es more meta (disk_with d (a_write (block_at g at) bytes)) a b }
{}

/// A sync leaves one of the two maps at each stop, and at its end the newest.
pub fn a_sync_keeps_the_newest_map()
    ensures stops { (g : Geometry) (i : Info) (es : List Entry) (more : Option Entry)
        (meta : Blocks) (d : Disk) (a b : Map) → Keeps g i es more meta d a b
        → Stops d a_sync (HoldsEither a b) }
    ensures done { (g : Geometry) (i : Info) (es : List Entry) (more : Option Entry)
        (meta : Blocks) (d : Disk) (a b : Map) → Keeps g i es more meta d a b
        → Keeps g i (es ++ entries_of more) None (with_entry more meta) (disk_with d a_sync) b b }
{}

/// A checkpoint leaves one of the two maps at each stop, and at its end the newest.
pub fn a_checkpoint_keeps_the_newest_map()
    ensures stops { (g : Geometry) (i next : Info) (es : List Entry) (more : Option Entry)
        (meta : Blocks) (d : Disk) (a b : Map) → Keeps g i es more meta d a b
        → next.start ≡ slot_behind g i (es ++ entries_of more)
        → next.number ≡ number_behind i (es ++ entries_of more) → next.number ≤ 2 ^ 62
        → Stops d (checkpoint_plan g (with_entry more meta) next) (HoldsEither a b) }
    ensures done { (g : Geometry) (i next : Info) (es : List Entry) (more : Option Entry)
        (meta : Blocks) (d : Disk) (a b : Map) → Keeps g i es more meta d a b
        → next.start ≡ slot_behind g i (es ++ entries_of more)
        → next.number ≡ number_behind i (es ++ entries_of more) → next.number ≤ 2 ^ 62
        → Keeps g next [] None (with_entry more meta)
        (disk_with d (checkpoint_plan g (with_entry more meta) next)) b b }
{}

/// An entry whose metadata has a map that is kept leaves the map before it or its own at each stop.
pub fn an_append_keeps_the_map_or_makes_its_own()
    ensures stops { (g : Geometry) (i : Info) (es : List Entry) (meta : Blocks) (d : Disk)
        (b c : Map) (e : Entry) → Keeps g i es None meta d b b → IsNext g i es meta e
        → KeepsMap g d (patched e.targets meta) c
        → Stops d (ring_writes g (slot_behind g i es) (entry_blocks e)) (HoldsEither b c) }
    ensures done { (g : Geometry) (i : Info) (es : List Entry) (meta : Blocks) (d : Disk)
        (b c : Map) (e : Entry) → Keeps g i es None meta d b b → IsNext g i es meta e
        → KeepsMap g d (patched e.targets meta) c
        → Keeps g i es (Some e) meta
        (disk_with d (ring_writes g (slot_behind g i es) (entry_blocks e))) b c }
{}

/// Blocks that have a blob have its bytes, whole and sound, in an image where they are those of a
/// record of it.
pub fn blocks_that_have_a_blob_are_whole_and_sound()
    ensures sound { (g : Geometry) (image : Blocks) (r : BlobRecord)
        → HasBlob r.root (value_of r) (stored g image r) → AllVerify g image r }
    ensures whole { (g : Geometry) (image : Blocks) (r : BlobRecord)
        → HasBlob r.root (value_of r) (stored g image r)
        → root_of (bytes_in g image r) ≡ r.root }
    // in an image with that record, of the blob by its name
    ensures of_image { (j : Blocks) (m : Metadata) (r : BlobRecord) → metadata_of j ≡ Some m
        → Contains (records_of m) r
        → HasBlob r.root (value_of r) (stored m.super.geometry j r)
        → IsSound j r.root × IsWhole j r.root }
{}

/// Metadata blocks that say what changes make that fit have the map that the log makes of it. It is
/// kept where each blob is that is published.
pub fn changes_that_fit_keep_their_map()
    ensures { (g : Geometry) (d : Disk) (meta new : Blocks) (held : Map) (cs : List Change)
        → KeepsMap g d meta held → AllFit (metadata_at g meta) cs
        → metadata_at g new ≡ after_all (metadata_at g meta) cs
        → ((r : BlobRecord) → Contains cs (Publish r) → IsKept g d r)
        → KeepsMap g d new (changed held (log_of_all (metadata_at g meta) cs)) }
{}

/// On a disk where no write is pending a blob is kept whose blocks have it.
pub fn a_blob_that_lasts_is_kept()
    ensures { (g : Geometry) (d : Disk) (r : BlobRecord) → IsSettled d.trace
        → HasBlob r.root (value_of r) (stored g (now_of d) r) → IsKept g d r }
{}
