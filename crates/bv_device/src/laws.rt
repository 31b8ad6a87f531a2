//! What plans say of stops: each law is the contract of a function that does nothing.

ghost use Rattle.std.specs.Prelude.{◌≡◌, ℕ, ◌+◌, List, ◌++◌, length, Bool, IsTrue, Option, Some, None, Result};
ghost use Rattle.spec_disk.specs.declared.event.Event.{Event};
ghost use Rattle.spec_disk.specs.Disk.{Blocks};
ghost use Rattle.bv_device.specs.declared.failed.Failed.{Failed};
ghost use Rattle.bv_device.specs.Told.{Disk, disk_with};
ghost use Rattle.bv_device.specs.Plan.{IsPlan, writes, with_events, Follows};
ghost use Rattle.bv_device.specs.Seen.{Seen};
ghost use Rattle.bv_device.specs.Reads.{OnlyReads, Reads};
ghost use Rattle.bv_device.specs.Crash.{Ran, LeftByPlan};

/// Whatever a stop of a run leaves, a stop of the plan that it follows leaves too, and not after
/// more events: whichever of its calls failed, and in whichever way.
pub fn a_run_leaves_what_its_plan_leaves()
    ensures { (result : Result Unit Failed) (d : Disk) (plan : List Event) (new : Option Disk)
        → IsPlan plan → Follows result plan (Some d) new → Ran d new (LeftByPlan d plan) }
{}

/// A device that tells nothing never will, and one that tells keeps its opening blocks.
pub fn what_is_told_goes_on()
    ensures none { (result : Result Unit Failed) (plan : List Event) (new : Option Disk)
        → Follows result plan None new → new ≡ None }
    ensures all { (d : Disk) (plan : List Event)
        → with_events (Some d) plan ≡ Some (disk_with d plan) }
{}

/// Plans are joined by `++`, and so are writes of blocks that lie one after another.
pub fn plans_are_joined()
    ensures plan { (p q : List Event) → IsPlan p → IsPlan q → IsPlan (p ++ q) }
    ensures writes { (at : ℕ) (blocks : Blocks) → IsPlan (writes at blocks) }
    ensures one_after_another { (at : ℕ) (a b : Blocks)
        → writes at (a ++ b) ≡ writes at a ++ writes (at + length a) b }
{}

/// Runs that only read are joined: none, one after another, each with its fault or none, and what is
/// seen in a first and a second run is seen in both. What is seen may be said more weakly.
pub fn runs_that_only_read_are_joined()
    ensures nothing { (s : Seen) → OnlyReads None s s }
    ensures joined { (reported : Option ℕ) (old mid new : Seen)
        → OnlyReads None old mid → OnlyReads reported mid new → OnlyReads reported old new }
    ensures both { (reported : Option ℕ) (old mid new : Seen) (p q : Blocks → Bool)
        → Reads None old mid (λ j. IsTrue (p j)) → Reads reported mid new (λ j. IsTrue (q j))
        → Reads reported old new (λ j. IsTrue (p j) × IsTrue (q j)) }
    ensures weaker { (reported : Option ℕ) (old new : Seen) (p q : Blocks → Bool)
        → Reads reported old new (λ j. IsTrue (p j))
        → ((j : Blocks) → IsTrue (p j) → IsTrue (q j))
        → Reads reported old new (λ j. IsTrue (q j)) }
{}
