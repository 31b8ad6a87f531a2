//! The event call of the unmount.

ghost use Rattle.std.specs.Prelude.{◌≡◌, ◌≤◌, ◌<◌, ◌^◌, ◌+◌, ◌⊎◌, ℕ, [], List, IfSome, OnOk, None, Some, Contains};
ghost use Rattle.spec_disk.specs.Images.{IsSettled};
ghost use Rattle.spec_core.specs.History.{Legal, last_state};
ghost use Rattle.spec_core.specs.State.{find};
ghost use Rattle.spec_tree.specs.declared.Digest.{Digest as Root};
ghost use Rattle.bv_ledger.specs.Entries.{let_go_of_all};
ghost use Rattle.bv_ledger.specs.Tables as L;
ghost use Rattle.bv_ledger.specs.Tables.{Tables};
ghost use Rattle.bv_store.specs.Stored.{CanWrite, Entry, Grows, IsThere, SameData, entry_changes, placed_after, placed_without, taken_by};
ghost use Rattle.bv_volume.specs.Answers.{unmount_reply as reply_of};
ghost use Rattle.bv_volume.specs.Ended.{Unmounts, device_answer, refusal_answer};
ghost use Rattle.bv_volume.specs.Events.{Does};
ghost use Rattle.bv_volume.specs.Seen.{HasBlobsNow, IsSafe, Seen};
ghost use Rattle.bv_volume.specs.Sound.{FoundAreSoundNow, PublishedAreSoundNow};
ghost use Rattle.bv_volume.specs.Wrote.{Ends, Lasts};

use crate::device::{commit_and_sync, sync_store};
use crate::noting::note;
use crate::replies::unmount_reply;
use crate::volume::Volume;
use bv_ledger::{Ledger, Refusal};
use bv_model::History;
use bv_store::{Failed, Store};
use spec_core::{Act, Who};
use std::alloc::Global;

/// Why the volume wasn't unmounted in order; it is given up all the same.
#[derive(Drop, Debug)]
pub enum UnmountFault {
    /// A write or sync failed earlier in this mount, with this fault.
    Stopped { fault: u64 },
    /// Purges are queued, and there is no further number for their entry.
    NumberEnd,
    /// The device is as it was.
    NoMemory,
    /// A write or sync failed now.
    DeviceFault { fault: u64 },
}

fn unmount_answer(failed: Option<u64>) -> Result<(), UnmountFault>
    ensures { result ≡ device_answer failed }
{
    match failed {
        None => Ok(()),
        Some(fault) => Err(UnmountFault::DeviceFault { fault }),
    }
}

fn unmount_refusal(refusal: Refusal) -> Result<(), UnmountFault>
    ensures { result ≡ refusal_answer refusal }
{
    match refusal {
        Refusal::Stopped { fault } => Err(UnmountFault::Stopped { fault }),
        Refusal::NumberEnd => Err(UnmountFault::NumberEnd),
    }
}

/// Empties the journal, and answers the fault of a call that failed.
fn checkpoint_store<S: Store>(store: &mut S) -> Option<u64>
    ensures ends { Ends (S.seen store.old) (S.seen store.new) (S.both store.old) (S.both store.new)
        result }
    ensures same { Grows (S.seen store.old).told (S.seen store.new).told
        (λ d more. SameData (S.seen store.old).geometry d more) }
    ensures placed { (S.seen store.new).placed ≡ (S.seen store.old).placed }
    ensures settled { result ≡ None → IfSome (S.seen store.new).told (λ d. IsSettled d.trace) }
{
    match store.checkpoint() {
        Ok(()) => None,
        Err(Failed) => Some(store.faults()),
    }
}

/// Makes the map last in place.
fn end_without_purges<S: Store>(store: &mut S) -> Option<u64>
    ensures lasts { Lasts (S.seen store.old) (S.seen store.new) (S.both store.old) (S.both store.new)
        (λ m. []) result }
    ensures same { Grows (S.seen store.old).told (S.seen store.new).told
        (λ d more. SameData (S.seen store.old).geometry d more) }
    ensures placed { (S.seen store.new).placed ≡ (S.seen store.old).placed }
    ensures number { (S.seen store.new).number ≡ (S.seen store.old).number }
    ensures settled { result ≡ None → IfSome (S.seen store.new).told (λ d. IsSettled d.trace) }
{
    match sync_store(store) {
        Some(fault) => Some(fault),
        None => checkpoint_store(store),
    }
}

/// Writes the planned entry, and makes the map last in place.
fn end_with_purges<S: Store>(store: &mut S) -> Option<u64>
    requires planned { (e : Entry) × ((S.seen store.old).planned ≡ Some e)
        × CanWrite (S.seen store.old).geometry (S.seen store.old).placed e
        × IsThere (S.seen store.old).geometry (S.seen store.old).told e.published
        × ((b : ℕ) → Contains (taken_by e.published) b → ¬ S.held store.old b) }
    requires number { (S.seen store.old).number < 2 ^ 62 }
    ensures lasts { IfSome (S.seen store.old).planned (λ e.
        Lasts (S.seen store.old) (S.seen store.new) (S.both store.old) (S.both store.new)
        (λ m. entry_changes m e) result) }
    ensures same { Grows (S.seen store.old).told (S.seen store.new).told
        (λ d more. SameData (S.seen store.old).geometry d more) }
    ensures either { IfSome (S.seen store.old).planned (λ e.
        ((S.seen store.new).placed ≡ (S.seen store.old).placed)
        ⊎ ((S.seen store.new).placed ≡ placed_after (S.seen store.old).placed e)) }
    ensures number { result ≡ None
        → (S.seen store.new).number ≡ (S.seen store.old).number + 1 }
    ensures settled { result ≡ None → IfSome (S.seen store.new).told (λ d. IsSettled d.trace) }
{
    match commit_and_sync(store) {
        Some(fault) => Some(fault),
        None => checkpoint_store(store),
    }
}

/// Purges the queue, if there is one, makes the map last in place, and notes in the tables how that
/// went.
fn end_mount<S: Store>(
    ledger: &mut Ledger,
    store: &mut S,
    alloc: Global,
    who: Who,
) -> Result<(), UnmountFault>
    requires number { ledger.old.stopped ≡ None → (S.seen store.old).number ≡ ledger.old.next }
    ensures row { (t : Tables) → t.adds ≡ [] → ledger.old ≡ let_go_of_all t
        → IfSome (reply_of result) (λ q. L.Does t ledger.new who Act.Unmount (Some q)) }
    ensures wrote { Unmounts ledger.old.stopped (S.seen store.old) (S.seen store.new)
        (S.both store.old) (S.both store.new) ledger.old.queue result }
    ensures same { Grows (S.seen store.old).told (S.seen store.new).told
        (λ d more. SameData (S.seen store.old).geometry d more) }
    ensures either { ((S.seen store.new).placed ≡ (S.seen store.old).placed)
        ⊎ ((S.seen store.new).placed
        ≡ placed_without (S.seen store.old).placed ledger.old.queue) }
{
    if let Some(refusal) = ledger.unmount_refused(who) {
        return unmount_refusal(refusal);
    }
    if ledger.queue().is_empty() {
        let failed = end_without_purges(store);
        ledger.unmounted(who, failed);
        return unmount_answer(failed);
    }
    match store.plan(alloc, ledger.queue(), None) {
        Err(_) => return Err(UnmountFault::NoMemory),
        Ok(()) => (),
    }
    let failed = end_with_purges(store);
    ledger.unmounted(who, failed);
    unmount_answer(failed)
}

impl<'t, S: Store> Volume<'t, S> {
    /// Closes every slot, purges all that was unlinked, makes the map last and empties the journal;
    /// then gives out the history and what kept the blobs. The event and what the device was asked are
    /// those that a volume with this history and store would show, and the history is legal. The data
    /// blocks are as they were, and blobs that are still there lie where they lay. After `NoMemory` the
    /// device is as it was.
    pub fn unmount(self, alloc: Global, who: Who) -> (History, S, Result<(), UnmountFault>)
        requires spare { 1 ≤ self.spare }
        requires none { (last_state self.history self.next).adds ≡ [] }
        ensures row { (v : Seen) × (v.history ≡ result.0.history)
            × (v.store ≡ record (S.seen result.1) { planned = None })
            × Does self.entry v who Act.Unmount (reply_of result.2) × Legal v.history v.next
            × IsSafe v × HasBlobsNow v
            × PublishedAreSoundNow v × FoundAreSoundNow v }
        ensures same { Grows self.entry.store.told (S.seen result.1).told
            (λ d more. SameData self.entry.store.geometry d more) }
        ensures placed { (r : Root) (places : List ℕ)
            → (last_state self.entry.history self.entry.next).stopped ≡ None
            → find (S.seen result.1).placed r ≡ Some places
            → find self.entry.store.placed r ≡ Some places }
        ensures settled { OnOk result.2 (IfSome (S.seen result.1).told (λ d. IsSettled d.trace)) }
    {
        let Volume {
            mut history,
            first: _,
            mut ledger,
            space: _,
            mut store,
        } = self;
        ledger.let_go_of_all();
        let answer = end_mount(&mut ledger, &mut store, alloc, who);
        let reply = unmount_reply(&answer);
        note(&mut history, who, Act::Unmount, reply, store.calls());
        (history, store, answer)
    }
}
