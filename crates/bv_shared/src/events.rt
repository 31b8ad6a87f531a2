//! The event calls of the volume that make no call of an add: each appends one entry, or nothing
//! for want of memory.
ghost use Rattle.std.specs.Prelude.{ℕ, ◌≡◌, ◌<◌, ◌≤◌, ◌^◌, length, IfOk, IfSome, OnErr, OnOk, Some};
ghost use Rattle.spec_core.specs.History.{Legal, last_state};
ghost use Rattle.spec_core.specs.Choice.{place_of};
ghost use Rattle.spec_core.specs.State as C;
ghost use Rattle.spec_core.specs.declared.act.Act.TheVariants.{Open, Close, Fetch, Unlink, Sync, List as ListAll};
ghost use Rattle.spec_core.specs.declared.reply.Reply.TheVariants.{Listed};
ghost use Rattle.bv_ledger.specs.Answers as A;
ghost use Rattle.bv_session.specs.Events.{NotesAs};
ghost use Rattle.spec_tree.specs.Tree.{windows_of};
ghost use Rattle.bv_volume.specs.Answers.{sync_reply};
ghost use Rattle.bv_volume.specs.Events.{Does};
ghost use Rattle.bv_volume.specs.Fetched.{HasFetched, fetch_reply};
ghost use Rattle.bv_pager.specs.Reading.{Reading};
ghost use Rattle.bv_shared.specs.Entries.{Gains, GainsAs, basis_of, entries_in};
ghost use Rattle.bv_shared.specs.KeptPages.{OpensKept, ReaderHas};
ghost use Rattle.bv_shared.specs.Since.{AreWithin};

use crate::shared::Shared;
use bv_store::Store;
use bv_volume::{BadSlot, FetchFault, Look, OpenFault, RawWindow, SyncFault, UnlinkFault};
use spec_core::Who;
use spec_tree::Digest;
use std::alloc::{AllocError, Global};

impl<'t, S: Store> Shared<'t, S> {
    /// Makes room for so many events.
    pub(crate) fn make_room(&mut self, alloc: Global, events: u64) -> Result<(), AllocError>
        requires { events < 2 ^ 32 }
        ensures opening { self.new.opening.value ≡ self.old.opening.value }
        ensures volume { self.new.volume
            ≡ record self.old.volume { spare = self.new.volume.spare } }
        ensures room { OnOk result (events ≤ self.new.volume.spare) }
        ensures within { AreWithin self.new.volume }
        ensures legal { Legal self.new.volume.history self.new.volume.next }
    {
        let answer = self.volume.reserve(alloc, events);
        let _history = self.volume.history();
        answer
    }

    pub(crate) fn note_unlink(
        &mut self,
        alloc: Global,
        who: Who,
        root: Digest,
    ) -> Result<(), UnlinkFault>
        requires spare { 1 ≤ self.old.volume.spare }
        requires within { AreWithin self.old.volume }
        ensures opening { self.new.opening.value ≡ self.old.opening.value }
        ensures basis { (faults : ℕ) → basis_of self.new.volume faults
            ≡ basis_of self.old.volume faults }
        ensures gains { Gains (entries_in self.old.volume)
            (entries_in self.new.volume) who (Unlink root)
            (A.unlink_reply result) }
    {
        let volume = &mut self.volume;
        let answer = volume.unlink(alloc, who, root);
        let _after = volume.history();
        answer
    }

    pub(crate) fn note_sync(&mut self, alloc: Global, who: Who) -> Result<(), SyncFault>
        requires spare { 1 ≤ self.old.volume.spare }
        requires within { AreWithin self.old.volume }
        ensures opening { self.new.opening.value ≡ self.old.opening.value }
        ensures basis { (faults : ℕ) → basis_of self.new.volume faults
            ≡ basis_of self.old.volume faults }
        ensures gains { Gains (entries_in self.old.volume)
            (entries_in self.new.volume) who Sync (sync_reply result) }
    {
        let volume = &mut self.volume;
        let answer = volume.sync(alloc, who);
        let _after = volume.history();
        answer
    }

    pub(crate) fn note_open(
        &mut self,
        alloc: Global,
        who: Who,
        slot: u32,
        root: Digest,
    ) -> Result<u64, OpenFault>
        requires spare { 1 ≤ self.old.volume.spare }
        requires within { AreWithin self.old.volume }
        requires slot { slot < 64 }
        ensures opening { self.new.opening.value ≡ self.old.opening.value }
        ensures basis { (faults : ℕ) → basis_of self.new.volume faults
            ≡ basis_of self.old.volume faults }
        ensures gains { GainsAs (entries_in self.old.volume)
            (entries_in self.new.volume) who (Open slot root) (A.open_reply result)
            (OpensKept self.new.volume
            (basis_of self.old.volume self.old.opening.value.store.faults) root result) }
    {
        let volume = &mut self.volume;
        let answer = volume.open_slot(alloc, who, slot, root);
        let _after = volume.history();
        answer
    }

    pub(crate) fn note_close(&mut self, who: Who, slot: u32) -> Result<(), BadSlot>
        requires spare { 1 ≤ self.old.volume.spare }
        requires within { AreWithin self.old.volume }
        ensures opening { self.new.opening.value ≡ self.old.opening.value }
        ensures basis { (faults : ℕ) → basis_of self.new.volume faults
            ≡ basis_of self.old.volume faults }
        ensures gains { Gains (entries_in self.old.volume)
            (entries_in self.new.volume) who (Close slot)
            (Some (A.close_reply result)) }
        ensures has { (r : Reading) → ReaderHas self.old.volume r
            → ReaderHas self.new.volume r }
    {
        let volume = &mut self.volume;
        let answer = volume.close_slot(who, slot);
        let _after = volume.history();
        answer
    }

    pub(crate) fn note_look(&mut self, who: Who, slot: u32, what: Look) -> Result<Digest, BadSlot>
        requires spare { 1 ≤ self.old.volume.spare }
        requires within { AreWithin self.old.volume }
        ensures opening { self.new.opening.value ≡ self.old.opening.value }
        ensures basis { (faults : ℕ) → basis_of self.new.volume faults
            ≡ basis_of self.old.volume faults }
        ensures gains { Gains (entries_in self.old.volume)
            (entries_in self.new.volume) who (A.look_act slot what)
            (Some (A.look_reply result)) }
        ensures root { IfOk result (λ root. C.held
            (last_state self.old.volume.history self.old.volume.next).slots (place_of who slot)
            ≡ Some root) }
    {
        let volume = &mut self.volume;
        let answer = volume.look(who, slot, what);
        let _after = volume.history();
        answer
    }

    pub(crate) fn note_list(
        &mut self,
        alloc: Global,
        who: Who,
    ) -> Result<Vec<(Digest, u64)>, AllocError>
        requires spare { 1 ≤ self.old.volume.spare }
        requires within { AreWithin self.old.volume }
        ensures opening { self.new.opening.value ≡ self.old.opening.value }
        ensures basis { (faults : ℕ) → basis_of self.new.volume faults
            ≡ basis_of self.old.volume faults }
        ensures ok { IfOk result (λ blobs. NotesAs
            (entries_in self.old.volume)
            (entries_in self.new.volume) who ListAll
            (Listed (length blobs.items)) (λ e. e.listed ≡ Some blobs.items)) }
        ensures err { OnErr result (entries_in self.new.volume
            ≡ entries_in self.old.volume) }
    {
        let volume = &mut self.volume;
        let answer = volume.list(alloc, who);
        let _after = volume.history();
        answer
    }

    /// A window of the blob that the slot holds, which the map has.
    pub(crate) fn note_fetch(
        &mut self,
        alloc: Global,
        who: Who,
        slot: u32,
        window: u64,
    ) -> Result<RawWindow, FetchFault>
        requires spare { 1 ≤ self.old.volume.spare }
        requires within { AreWithin self.old.volume }
        requires window { IfSome (C.held
            (last_state self.old.volume.history self.old.volume.next).slots (place_of who slot))
            (λ root. IfSome
            (C.find (last_state self.old.volume.history self.old.volume.next).map root)
            (λ blob. window < windows_of blob.size)) }
        ensures opening { self.new.opening.value ≡ self.old.opening.value }
        ensures basis { (faults : ℕ) → basis_of self.new.volume faults
            ≡ basis_of self.old.volume faults }
        ensures row { Does self.old.volume self.new.volume who (Fetch slot window)
            (fetch_reply result) }
        ensures fetched { IfOk result (HasFetched self.old.volume (place_of who slot) window) }
        ensures counted { IfSome self.new.volume.store.told (λ d.
            length d.trace ≡ self.new.volume.store.calls) }
    {
        let volume = &mut self.volume;
        let answer = volume.fetch(alloc, who, slot, window);
        let _after = volume.history();
        answer
    }
}
