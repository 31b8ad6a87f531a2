//! The event calls of a value behind the lock, which know nothing of the lock.
ghost use Rattle.std.specs.Prelude.{◌≡◌, ℕ, ◌+◌, ◌<◌, ◌≤◌, true, false, List, Some, None, OnErr, IfOk, IfErr, IfSome, IsSomeAnd, length};
ghost use Rattle.spec_tree.specs.Tree.{need_of, windows_of};
ghost use Rattle.spec_core.specs.Synced.{Caused};
ghost use Rattle.spec_core.specs.declared.act.Act.TheVariants.{Begin, Admit, Put, Settle, Retire, Open, Fetch, Read, Scan, Close, Unlink, Sync, List as ListAll};
ghost use Rattle.spec_core.specs.declared.reply.Reply.TheVariants.{Granted, Admitted, Written, Published, Retired, Opened, Fetched, Reading, Closed, Unlinked, Synced, Listed};
ghost use Rattle.spec_disk.specs.declared.event.Event.{Event};
ghost use Rattle.spec_session.specs.Own.{OwnAdd, new_add, admitted_add, add_of, slot_holds};
ghost use Rattle.bv_claims.specs.Tokens.{IsGrantOf, IsClaimedOf, grant_need, claimed_gained, claimed_left};
ghost use Rattle.bv_session.specs.declared.entry.Entry.{Entry};
ghost use Rattle.bv_session.specs.declared.entry.Basis.{Basis};
ghost use Rattle.bv_turn.specs.Entries.{entries_of};
ghost use Rattle.bv_writer.specs.Blocks.{IsBlobOf};
ghost use Rattle.bv_session.specs.Events.{own_events, history_of, Notes, NotesAs, IfRefused, IsReadFault, IsRefusal, IfDone, IfRefuses, reply_by, reply_or, IsUnderWay, IsLook, put_by};
ghost use Rattle.bv_session.specs.Written.{Wrote, written};
ghost use Rattle.bv_session.specs.Pages.{SlotFrom};
ghost use Rattle.bv_session.specs.Disk.{AreThere, IsOnDisk, EachAfter, EachTells, EachLists};
ghost use Rattle.bv_pager.specs.Reading.{FitsIn};

use crate::entry::{Basis, Entry};
use bv_claims::{Claimed, Grant};
use bv_pager::Reader;
use bv_proof::RawWindow;
use bv_turn::Keeps;
use spec_core::{Act, Reply, Who};
use spec_tree::Digest;
use std::alloc::{AllocError, Global};

/// What an event gave: it went well, or it was refused with this reply.
#[derive(Drop)]
pub enum Answer<T> {
    Done(T),
    Refused(Reply),
}

/// The same of an event that gives nothing.
#[derive(Clone, Copy, Debug)]
pub enum Outcome {
    Done,
    Refused(Reply),
}

/// A volume as sessions use it: each call makes room for one event and makes it, in one holding of
/// the lock. An `Err` is want of memory, and then nothing has changed.
///
/// Of a session contracts know its own events, by which it knows its add and its slots.
pub trait Serves: Keeps<Entry = Entry, Basis = Basis> {
    /// An add that is begun, seen as the session's add.
    type Begun;

    /// An add that is admitted, seen as the session's add.
    type Admitted;

    ghost begun: { Self.Begun → OwnAdd };

    ghost admitted: { Self.Admitted → OwnAdd };

    /// The device's events since the basis, where the device tells.
    ghost device_events: { Self → List Event };

    /// How many calls of the device have failed.
    ghost fault_count: { Self → ℕ };

    /// Puts an add under way, of a blob of at most 65,535 blocks. The session has no other.
    fn begin(
        &mut self,
        alloc: Global,
        who: Who,
        root: Digest,
        size: u64,
    ) -> Result<Answer<(Self::Begun, Grant)>, AllocError>
        requires need { need_of (Self.basis self.old).geometry.version size ≤ 65535 }
        requires idle { add_of (own_events Self.session who.session (Self.entries self.old)) ≡ None }
        ensures basis { Self.basis self.new ≡ Self.basis self.old }
        ensures ok { IfOk result (λ a. Notes (Self.entries self.old) (Self.entries self.new) who
            (Begin root size) (reply_by (λ x. Granted) a)) }
        ensures done { IfOk result (λ a. IfDone a (λ x. (begun x.0 ≡ new_add root size)
            × IsGrantOf (Self.basis self.old).claims x.1
            × (grant_need x.1 ≡ need_of (Self.basis self.old).geometry.version size))) }
        ensures refused { IfOk result (λ a. IfRefused a IsRefusal) }
        ensures err { OnErr result (Self.entries self.new ≡ Self.entries self.old) };

    /// Gives an add its blocks and nodes. Want of memory hands both tokens back.
    fn admit(
        &mut self,
        alloc: Global,
        who: Who,
        add: Self::Begun,
        claimed: Claimed,
    ) -> Result<Answer<Self::Admitted>, (Self::Begun, Claimed)>
        requires add { IsUnderWay (begun add) false
            (own_events Self.session who.session (Self.entries self.old)) }
        requires table { IsClaimedOf (Self.basis self.old).claims claimed }
        requires need { length (claimed_gained claimed) + claimed_left claimed
            ≡ need_of (Self.basis self.old).geometry.version (begun add).size }
        ensures basis { Self.basis self.new ≡ Self.basis self.old }
        ensures ok { IfOk result (λ a. Notes (Self.entries self.old) (Self.entries self.new) who
            (Admit (begun add).root) (reply_by (λ x. Admitted) a)) }
        ensures done { IfOk result (λ a. IfDone a (λ x. admitted x ≡ admitted_add (begun add))) }
        ensures refused { IfOk result (λ a. IfRefused a IsRefusal) }
        ensures err { OnErr result (Self.entries self.new ≡ Self.entries self.old) }
        ensures back { IfErr result (λ r. (begun r.0 ≡ begun add) × (r.1 ≡ claimed)) };

    /// Writes the add's next block. Where the device tells, that is its last event.
    fn put(
        &mut self,
        alloc: Global,
        who: Who,
        add: &mut Self::Admitted,
        block: &[u8; 8192],
    ) -> Result<Outcome, AllocError>
        requires add { IsUnderWay (admitted add.old) true
            (own_events Self.session who.session (Self.entries self.old)) }
        requires next { (admitted add.old).puts
            < need_of (Self.basis self.old).geometry.version (admitted add.old).size }
        ensures add { IfOk result (λ a. admitted add.new ≡ put_by a (admitted add.old)) }
        ensures basis { Self.basis self.new ≡ Self.basis self.old }
        ensures ok { IfOk result (λ a. NotesAs (Self.entries self.old) (Self.entries self.new) who
            (Put (admitted add.old).puts) (reply_or Written a)
            (Wrote (Self.basis self.old).told a block.now)) }
        ensures refused { IfOk result (λ a. IfRefuses a IsRefusal) }
        ensures err { OnErr result ((Self.entries self.new ≡ Self.entries self.old)
            × (admitted add.new ≡ admitted add.old)) };

    /// Publishes an add whose blocks are all put; where the device tells, they are those of a blob
    /// with its root and size. Want of memory hands it back.
    fn settle(
        &mut self,
        alloc: Global,
        who: Who,
        add: Self::Admitted,
    ) -> Result<Outcome, Self::Admitted>
        requires add { IsUnderWay (admitted add) true
            (own_events Self.session who.session (Self.entries self.old)) }
        requires all { (admitted add).puts
            ≡ need_of (Self.basis self.old).geometry.version (admitted add).size }
        requires written { IfSome (Self.basis self.old).told (λ d.
            IsBlobOf (Self.basis self.old).geometry.version (admitted add).root (admitted add).size
            (written (entries_of Self.session who.session (Self.entries self.old)))) }
        ensures basis { Self.basis self.new ≡ Self.basis self.old }
        ensures ok { IfOk result (λ a. Notes (Self.entries self.old) (Self.entries self.new) who
            (Settle (admitted add).root) (reply_or Published a)) }
        ensures refused { IfOk result (λ a. IfRefuses a IsRefusal) }
        ensures err { OnErr result (Self.entries self.new ≡ Self.entries self.old) }
        ensures back { IfErr result (λ r. admitted r ≡ admitted add) };

    /// Ends an add that isn't admitted.
    fn retire_begun(&mut self, who: Who, add: Self::Begun, claimed: Claimed)
        requires add { IsUnderWay (begun add) false
            (own_events Self.session who.session (Self.entries self.old)) }
        requires table { IsClaimedOf (Self.basis self.old).claims claimed }
        requires need { length (claimed_gained claimed) + claimed_left claimed
            ≡ need_of (Self.basis self.old).geometry.version (begun add).size }
        ensures basis { Self.basis self.new ≡ Self.basis self.old }
        ensures ok { Notes (Self.entries self.old) (Self.entries self.new) who
            (Retire (begun add).root) Retired };

    /// Ends an add that is admitted.
    fn retire(&mut self, who: Who, add: Self::Admitted)
        requires add { IsUnderWay (admitted add) true
            (own_events Self.session who.session (Self.entries self.old)) }
        ensures basis { Self.basis self.new ≡ Self.basis self.old }
        ensures ok { Notes (Self.entries self.old) (Self.entries self.new) who
            (Retire (admitted add).root) Retired };

    /// Has the session's slot hold a blob, and says its size, and its pages where they were kept.
    fn open(
        &mut self,
        alloc: Global,
        who: Who,
        slot: u32,
        root: Digest,
    ) -> Result<Answer<(u64, Option<Reader>)>, AllocError>
        requires slot { slot < 64 }
        ensures basis { Self.basis self.new ≡ Self.basis self.old }
        ensures ok { IfOk result (λ a. NotesAs (Self.entries self.old) (Self.entries self.new) who
            (Open slot root) (reply_by (λ x. Opened x.0) a)
            (λ e. IfDone a (λ x. IfSome x.1 (AreThere (Self.basis self.old) e)))) }
        ensures done { IfOk result (λ a. IfDone a (λ x.
            IfSome x.1 (λ p. (p.root ≡ root) × (p.size ≡ x.0)))) }
        ensures refused { IfOk result (λ a. IfRefused a IsRefusal) }
        ensures err { OnErr result (Self.entries self.new ≡ Self.entries self.old) };

    /// Empties the session's slot. Its pages are kept, where there are any and the blob is present.
    fn close(
        &mut self,
        alloc: Global,
        who: Who,
        slot: u32,
        pages: Option<Reader>,
    ) -> Result<Outcome, AllocError>
        requires pages { IfSome pages (λ r. SlotFrom (Self.basis self.old) slot r
            (entries_of Self.session who.session (Self.entries self.old))) }
        ensures basis { Self.basis self.new ≡ Self.basis self.old }
        ensures ok { IfOk result (λ a. Notes (Self.entries self.old) (Self.entries self.new) who
            (Close slot) (reply_or Closed a)) }
        ensures refused { IfOk result (λ a. IfRefuses a IsRefusal) }
        ensures err { OnErr result (Self.entries self.new ≡ Self.entries self.old) };

    /// Begins a read or a scan of the slot's blob, and says its root and size.
    fn look(
        &mut self,
        alloc: Global,
        who: Who,
        slot: u32,
        act: Act,
    ) -> Result<Answer<(Digest, u64)>, AllocError>
        requires act { IsLook act slot }
        ensures basis { Self.basis self.new ≡ Self.basis self.old }
        ensures ok { IfOk result (λ a. Notes (Self.entries self.old) (Self.entries self.new) who
            act (reply_by (λ x. Reading) a)) }
        ensures done { IfOk result (λ a. IfDone a (λ x.
            slot_holds slot (own_events Self.session who.session (Self.entries self.old))
            ≡ Some x)) }
        ensures refused { IfOk result (λ a. IfRefused a IsRefusal) }
        ensures err { OnErr result (Self.entries self.new ≡ Self.entries self.old) };

    /// Reads a window of the blob that the slot holds, and its path. A fault of the device alone
    /// refuses it.
    fn fetch(
        &mut self,
        alloc: Global,
        who: Who,
        slot: u32,
        window: u64,
    ) -> Result<Answer<RawWindow>, AllocError>
        requires window { IsSomeAnd
            (slot_holds slot (own_events Self.session who.session (Self.entries self.old)))
            (λ blob. window < windows_of blob.1) }
        ensures basis { Self.basis self.new ≡ Self.basis self.old }
        ensures ok { IfOk result (λ a. NotesAs (Self.entries self.old) (Self.entries self.new) who
            (Fetch slot window) (reply_by (λ x. Fetched) a)
            (λ e. IfDone a (λ x. IfSome
            (slot_holds slot (own_events Self.session who.session (Self.entries self.old)))
            (λ blob. IsOnDisk (Self.basis self.old) blob e x)))) }
        ensures done { IfOk result (λ a. IfDone a (λ x.
            IfSome (slot_holds slot (own_events Self.session who.session (Self.entries self.old)))
            (λ blob. (x.window ≡ window) × FitsIn blob.1 x))) }
        ensures refused { IfOk result (λ a. IfRefused a IsReadFault) }
        ensures err { OnErr result (Self.entries self.new ≡ Self.entries self.old) };

    /// Takes a blob away.
    fn unlink(&mut self, alloc: Global, who: Who, root: Digest) -> Result<Outcome, AllocError>
        ensures basis { Self.basis self.new ≡ Self.basis self.old }
        ensures ok { IfOk result (λ a. Notes (Self.entries self.old) (Self.entries self.new) who
            (Unlink root) (reply_or Unlinked a)) }
        ensures refused { IfOk result (λ a. IfRefuses a IsRefusal) }
        ensures err { OnErr result (Self.entries self.new ≡ Self.entries self.old) };

    /// Makes all changes so far durable.
    fn sync(&mut self, alloc: Global, who: Who) -> Result<Outcome, AllocError>
        ensures basis { Self.basis self.new ≡ Self.basis self.old }
        ensures ok { IfOk result (λ a. Notes (Self.entries self.old) (Self.entries self.new) who
            Sync (reply_or Synced a)) }
        ensures refused { IfOk result (λ a. IfRefuses a IsRefusal) }
        ensures err { OnErr result (Self.entries self.new ≡ Self.entries self.old) };

    /// The blobs that are present, with their sizes.
    fn list(&mut self, alloc: Global, who: Who) -> Result<Vec<(Digest, u64)>, AllocError>
        ensures basis { Self.basis self.new ≡ Self.basis self.old }
        ensures ok { IfOk result (λ blobs. NotesAs (Self.entries self.old) (Self.entries self.new)
            who ListAll (Listed (length blobs.items)) (λ e. e.listed ≡ Some blobs.items)) }
        ensures err { OnErr result (Self.entries self.new ≡ Self.entries self.old) };

    /// An entry is of the session that made its event.
    ghost session_is: { (e : Entry) → Self.session e ≡ e.event.who.session };

    /// An entry has what the device told by its end.
    ghost tells: { (v : Self)
        → EachTells (Self.basis v).told (device_events v) (Self.entries v) };

    /// A listing is what was present when its event began.
    ghost lists: { (v : Self) → EachLists (Self.basis v) (Self.entries v) };

    /// An entry has the events before it.
    ghost afters: { (v : Self) → EachAfter (Self.entries v) };

    /// Its faults came from the device.
    ghost caused: { (v : Self) → Caused (history_of (Self.basis v) (Self.entries v))
        (Self.basis v).faults (fault_count v) };
}
