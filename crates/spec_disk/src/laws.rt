//! The laws that show the definitions of the disk to be meant right: each is the contract of a
//! function that does nothing.

ghost use Rattle.std.specs.Prelude.{◌≡◌, ◌≢◌, ◌⊎◌, ◌↔◌, ℕ, List, [], ◌∷◌, ◌++◌, length, Bool, true, false, slice_set};
ghost use Rattle.spec_disk.specs.declared.event.Event.{Event};
ghost use Rattle.spec_disk.specs.declared.event.Event.TheVariants.{Write, Sync};
ghost use Rattle.spec_disk.specs.Disk.{Blocks, block, sector, has_sync, now_after, synced_part, unsynced_part, synced_after, reads_right};
ghost use Rattle.spec_disk.specs.Images.{pending, IsImage, IsSettled};
ghost use Rattle.spec_disk.specs.Laws.{IsSyncedPart, IsImageWith, FailedLast, AreWhole};

/// The synced part is the one longest prefix that ends with an Ok sync or is empty.
pub fn synced_part_is_the_longest()
    ensures is { (p : List Event) → IsSyncedPart p (synced_part p) }
    ensures only { (p q : List Event) → IsSyncedPart p q → q ≡ synced_part p }
    ensures rest { (p : List Event) → synced_part p ++ unsynced_part p ≡ p }
{}

/// Without events there is one image, the base.
pub fn no_event_leaves_the_base()
    ensures { (base j : Blocks) → IsImage base [] j ↔ (j ≡ base) }
{}

/// After an Ok sync there is one image, Now.
pub fn a_sync_leaves_now()
    ensures { (base j : Blocks) (p : List Event)
        → IsImage base (p ++ Sync true ∷ []) j ↔ (j ≡ now_after base p) }
{}

/// Where no write came after the last Ok sync there is one image, which is both Synced and Now.
pub fn a_settled_disk_has_one_image()
    ensures image { (base j : Blocks) (p : List Event)
        → IsSettled p → IsImage base p j ↔ (j ≡ synced_after base p) }
    ensures now { (base : Blocks) (p : List Event)
        → IsSettled p → synced_after base p ≡ now_after base p }
    ensures sync { (p : List Event) → IsSettled (p ++ Sync true ∷ []) }
{}

/// Two disks that a stop may leave in any case: what the last Ok sync found, and what reads gave.
pub fn synced_and_now_are_images()
    ensures synced { (base : Blocks) (p : List Event) → IsImage base p (synced_after base p) }
    ensures now { (base : Blocks) (p : List Event) → IsImage base p (now_after base p) }
{}

/// A block that nothing after the last Ok sync writes is in every image what Synced has.
pub fn an_unwritten_block_is_as_synced()
    ensures { (base j : Blocks) (p : List Event) (b : ℕ)
        → pending p b ≡ [] → IsImage base p j → block j b ≡ block (synced_after base p) b }
{}

/// One more write changes an image in its own block alone, sector by sector, and takes none away.
pub fn a_write_changes_sectors_of_its_block()
    ensures sectors { (base j : Blocks) (p : List Event) (at : ℕ) (bytes : List ℕ) (ok : Bool)
        → IsImage base (p ++ Write at bytes ok ∷ []) j ↔ IsImageWith base p at bytes j }
    // with this block put back as any image of p has it, an image of p is left
    ensures block { (base i j : Blocks) (p : List Event) (at : ℕ) (bytes : List ℕ) (ok : Bool)
        → IsImage base (p ++ Write at bytes ok ∷ []) j → IsImage base p i
        → IsImage base p (slice_set j at (block i at)) }
    ensures stays { (base j : Blocks) (p : List Event) (at : ℕ) (bytes : List ℕ) (ok : Bool)
        → IsImage base p j → IsImage base (p ++ Write at bytes ok ∷ []) j }
{}

/// A failed write leaves the images of an Ok one, and a failed sync those that there were.
pub fn a_failure_leaves_known_images()
    ensures write { (base j : Blocks) (p : List Event) (at : ℕ) (bytes : List ℕ)
        → IsImage base (p ++ Write at bytes false ∷ []) j
        ↔ IsImage base (p ++ Write at bytes true ∷ []) j }
    ensures sync { (base j : Blocks) (p : List Event)
        → IsImage base (p ++ Sync false ∷ []) j ↔ IsImage base p j }
{}

/// A read may give something else than Now only where the block's last write failed with no Ok sync
/// after it.
pub fn reads_are_wrong_after_a_failed_write()
    ensures { (p : List Event) (b : ℕ) → (reads_right p b ≡ false) ↔ FailedLast p b }
{}

/// From a settled disk on, what matters of the past is what the disk is now.
pub fn a_settled_disk_goes_on_as_it_is()
    ensures { (base j : Blocks) (p q : List Event)
        → IsSettled p → IsImage base (p ++ q) j ↔ IsImage (now_after base p) q j }
{}

/// Until a sync is Ok, no image is lost.
pub fn an_image_stays_until_a_sync()
    ensures { (base j : Blocks) (p q : List Event)
        → has_sync q ≡ false → IsImage base p j → IsImage base (p ++ q) j }
{}

/// A write that changes one sector of its block is done or not.
pub fn a_write_of_one_sector_is_done_or_not()
    ensures { (base j : Blocks) (p : List Event) (b t : ℕ) (bytes : List ℕ)
        → pending p b ≡ bytes ∷ []
        → ((s : ℕ) → s ≢ t → sector bytes s ≡ sector (block (synced_after base p) b) s)
        → IsImage base p j
        → (block j b ≡ block (synced_after base p) b) ⊎ (block j b ≡ bytes) }
{}

/// A write of what Synced has there changes no image.
pub fn a_write_of_what_is_synced_changes_nothing()
    ensures { (base j : Blocks) (p : List Event) (at : ℕ) (ok : Bool)
        → IsImage base (p ++ Write at (block (synced_after base p) at) ok ∷ []) j
        ↔ IsImage base p j }
{}

/// A block of an image has 8,192 bytes, where the synced one and each that is pending have.
pub fn a_block_of_an_image_is_whole()
    ensures { (base j : Blocks) (p : List Event) (b : ℕ)
        → length (block (synced_after base p) b) ≡ 8192 → AreWhole (pending p b)
        → IsImage base p j → length (block j b) ≡ 8192 }
{}
