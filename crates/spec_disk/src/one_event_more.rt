//! The laws of one event more: what a write or a sync changes of all that is told of the disk.

ghost use Rattle.std.specs.Prelude.{◌≡◌, ◌==◌, ℕ, List, [], ◌∷◌, ◌++◌, Bool, true, false, if◌then◌else◌, slice_set};
ghost use Rattle.spec_disk.specs.declared.event.Event.{Event};
ghost use Rattle.spec_disk.specs.declared.event.Event.TheVariants.{Write, Sync};
ghost use Rattle.spec_disk.specs.Disk.{Blocks, block, sector, now_after, last_after, synced_after, reads_right};
ghost use Rattle.spec_disk.specs.Images.{pending, candidates};

/// What reads give changes by an Ok write alone.
pub fn now_with_one_event_more()
    ensures write { (base : Blocks) (p : List Event) (at : ℕ) (bytes : List ℕ)
        → now_after base (p ++ Write at bytes true ∷ []) ≡ slice_set (now_after base p) at bytes }
    ensures failed { (base : Blocks) (p : List Event) (at : ℕ) (bytes : List ℕ)
        → now_after base (p ++ Write at bytes false ∷ []) ≡ now_after base p }
    ensures sync { (base : Blocks) (p : List Event) (ok : Bool)
        → now_after base (p ++ Sync ok ∷ []) ≡ now_after base p }
{}

/// What was written last changes by each write, Ok or failed.
pub fn last_with_one_event_more()
    ensures write { (base : Blocks) (p : List Event) (at : ℕ) (bytes : List ℕ) (ok : Bool)
        → last_after base (p ++ Write at bytes ok ∷ []) ≡ slice_set (last_after base p) at bytes }
    ensures sync { (base : Blocks) (p : List Event) (ok : Bool)
        → last_after base (p ++ Sync ok ∷ []) ≡ last_after base p }
{}

/// What is synced changes by an Ok sync alone, and is then what reads give.
pub fn synced_with_one_event_more()
    ensures write { (base : Blocks) (p : List Event) (at : ℕ) (bytes : List ℕ) (ok : Bool)
        → synced_after base (p ++ Write at bytes ok ∷ []) ≡ synced_after base p }
    ensures sync { (base : Blocks) (p : List Event)
        → synced_after base (p ++ Sync true ∷ []) ≡ now_after base p }
    ensures failed { (base : Blocks) (p : List Event)
        → synced_after base (p ++ Sync false ∷ []) ≡ synced_after base p }
{}

/// What is pending at a block gains what is written to it, and an Ok sync ends it.
pub fn pending_with_one_event_more()
    ensures write { (p : List Event) (at : ℕ) (bytes : List ℕ) (ok : Bool) (b : ℕ)
        → pending (p ++ Write at bytes ok ∷ []) b
        ≡ pending p b ++ (if at == b then bytes ∷ [] else []) }
    ensures sync { (p : List Event) (b : ℕ) → pending (p ++ Sync true ∷ []) b ≡ [] }
    ensures failed { (p : List Event) (b : ℕ) → pending (p ++ Sync false ∷ []) b ≡ pending p b }
{}

/// The candidates of a sector gain what is written to it, and an Ok sync leaves one.
pub fn candidates_with_one_event_more()
    ensures write { (base : Blocks) (p : List Event) (at : ℕ) (bytes : List ℕ) (ok : Bool) (b s : ℕ)
        → candidates base (p ++ Write at bytes ok ∷ []) b s
        ≡ candidates base p b s ++ (if at == b then sector bytes s ∷ [] else []) }
    ensures sync { (base : Blocks) (p : List Event) (b s : ℕ)
        → candidates base (p ++ Sync true ∷ []) b s ≡ sector (block (now_after base p) b) s ∷ [] }
    ensures failed { (base : Blocks) (p : List Event) (b s : ℕ)
        → candidates base (p ++ Sync false ∷ []) b s ≡ candidates base p b s }
{}

/// A write decides whether its block reads right, and an Ok sync makes every block do so.
pub fn reads_with_one_event_more()
    ensures write { (p : List Event) (at : ℕ) (bytes : List ℕ) (ok : Bool) (b : ℕ)
        → reads_right (p ++ Write at bytes ok ∷ []) b ≡ (if at == b then ok else reads_right p b) }
    ensures sync { (p : List Event) (b : ℕ) → reads_right (p ++ Sync true ∷ []) b ≡ true }
    ensures failed { (p : List Event) (b : ℕ)
        → reads_right (p ++ Sync false ∷ []) b ≡ reads_right p b }
{}
