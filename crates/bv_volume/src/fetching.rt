//! The event call that fetches a window of an open blob.

ghost use Rattle.std.specs.Prelude.{◌≡◌, ◌≤◌, ◌<◌, is_some, true, length, All, IfOk, IfSome, None, Some};
ghost use Rattle.spec_core.specs.Choice.{place_of};
ghost use Rattle.spec_core.specs.History.{last_state};
ghost use Rattle.spec_core.specs.State as C;
ghost use Rattle.spec_tree.specs.Tree.{need_of, windows_of};
ghost use Rattle.bv_fetch.specs.Reading.{AreOfBlobs};
ghost use Rattle.bv_fetch.specs.Windows.{HasRoom};
ghost use Rattle.bv_volume.specs.Events.{Does};
ghost use Rattle.bv_volume.specs.Fetched.{Fetches, HasFetched, HoldsBlob, fetch_reply as reply_of};
ghost use Rattle.bv_volume.specs.Seen.{IsSafe};

use crate::noting::note;
use crate::replies::fetch_reply;
use crate::volume::Volume;
use bv_fetch::{RawWindow, read_window, room_for};
use bv_store::{Failed, Store};
use spec_core::{Act, Reply, Who};
use spec_tree::{Blob, Digest};
use std::alloc::{AllocError, Global};

/// Why a window wasn't fetched.
#[derive(Drop, Debug)]
pub enum FetchFault {
    /// The slot holds nothing.
    BadSlot,
    NoMemory,
    /// A read failed now. The volume goes on.
    ReadFault { fault: u64 },
}

/// The memory for a window, and where the blob's blocks are.
#[derive(Drop)]
struct Prepared {
    places: Vec<u64>,
    raw: RawWindow,
}

/// Takes the memory for a window of a blob of so many bytes, and looks up where its blocks are.
fn prepare<S: Store>(
    store: &S,
    alloc: Global,
    root: Digest,
    size: u64,
    window: u64,
) -> Result<Prepared, AllocError>
    requires there { is_some (C.find (S.seen store.now).placed root) ≡ true }
    requires window { window < windows_of size }
    ensures places { IfOk result (λ p.
        C.find (S.seen store.now).placed root ≡ Some p.places.items) }
    ensures room { IfOk result (λ p. HasRoom size window p.raw) }
{
    let places = store.blocks_of(alloc, root)?;
    let raw = room_for(alloc, size, window)?;
    Ok(Prepared { places, raw })
}

/// Reads a window of a blob whose blocks are at these places, or answers the fault of a read that
/// failed.
fn read_from<S: Store>(
    store: &mut S,
    places: &[u64],
    blob: Blob,
    mut raw: RawWindow,
) -> Result<RawWindow, FetchFault>
    requires window { raw.window < windows_of blob.size }
    requires need { length places.now ≡ need_of blob.version blob.size }
    requires within { All (λ b. b < (S.seen store.old).geometry.blocks) places.now }
    requires blobs { AreOfBlobs (S.seen store.old) places.now }
    requires room { HasRoom blob.size raw.window raw }
    ensures { Fetches (S.seen store.old) (S.seen store.new) (S.both store.old) (S.both store.new)
        (S.held store.old) (S.held store.new) places.now blob raw.window result }
{
    match read_window(store, places, blob, &mut raw) {
        Ok(()) => Ok(raw),
        Err(Failed) => Err(FetchFault::ReadFault {
            fault: store.faults(),
        }),
    }
}

impl<'t, S: Store> Volume<'t, S> {
    /// Fetches a window of the blob that the session's slot holds.
    fn fetch_held(
        &mut self,
        alloc: Global,
        who: Who,
        slot: u32,
        window: u64,
        root: Digest,
        blob: Blob,
    ) -> Result<RawWindow, FetchFault>
        requires spare { 1 ≤ self.old.spare }
        requires held { C.held (last_state self.old.history self.old.next).slots
            (place_of who slot) ≡ Some root }
        requires blob { C.find (last_state self.old.history self.old.next).map root ≡ Some blob }
        requires window { window < windows_of blob.size }
        ensures row { Does self.old self.new who (Act.Fetch slot window) (reply_of result) }
        ensures fetched { IfOk result (HasFetched self.old (place_of who slot) window) }
        ensures crash { IsSafe self.new }
    {
        let prepared = match prepare(&self.store, alloc, root, blob.size, window) {
            Err(_) => return Err(FetchFault::NoMemory),
            Ok(prepared) => prepared,
        };
        let Prepared { places, raw } = prepared;
        self.space.owned_are_blocks();
        let answer = read_from(&mut self.store, &places, blob, raw);
        let reply = fetch_reply(&answer);
        note(
            &mut self.history,
            who,
            Act::Fetch { slot, window },
            reply,
            self.store.calls(),
        );
        answer
    }

    /// Notes that the session's slot holds nothing.
    fn fetch_nothing(&mut self, who: Who, slot: u32, window: u64) -> Result<RawWindow, FetchFault>
        requires spare { 1 ≤ self.old.spare }
        requires empty { C.held (last_state self.old.history self.old.next).slots
            (place_of who slot) ≡ None }
        ensures row { Does self.old self.new who (Act.Fetch slot window) (reply_of result) }
        ensures fetched { IfOk result (HasFetched self.old (place_of who slot) window) }
        ensures crash { IsSafe self.new }
    {
        note(
            &mut self.history,
            who,
            Act::Fetch { slot, window },
            Some(Reply::BadSlot),
            self.store.calls(),
        );
        Err(FetchFault::BadSlot)
    }

    /// The blob that the session's slot holds: its root and size.
    pub fn held(&self, who: Who, slot: u32) -> Option<(Digest, u64)>
        ensures some { IfSome result (λ p. HoldsBlob self.now (place_of who slot) p.0 p.1) }
        ensures none { result ≡ None
            → C.held (last_state self.now.history self.now.next).slots (place_of who slot) ≡ None }
    {
        match self.ledger.held_blob(who.place(slot)) {
            Some((root, blob)) => Some((root, blob.size)),
            None => None,
        }
    }

    /// A window of the blob that the session's slot holds, cut to the blob's size, and its path, as
    /// the device reads them. A read that failed doesn't stop the volume.
    pub fn fetch(
        &mut self,
        alloc: Global,
        who: Who,
        slot: u32,
        window: u64,
    ) -> Result<RawWindow, FetchFault>
        requires spare { 1 ≤ self.old.spare }
        requires window { IfSome (C.held (last_state self.old.history self.old.next).slots
            (place_of who slot)) (λ root.
            IfSome (C.find (last_state self.old.history self.old.next).map root) (λ blob.
            window < windows_of blob.size)) }
        ensures row { Does self.old self.new who (Act.Fetch slot window) (reply_of result) }
        ensures fetched { IfOk result (HasFetched self.old (place_of who slot) window) }
        ensures crash { IsSafe self.new }
    {
        match self.ledger.held_blob(who.place(slot)) {
            Some((root, blob)) => self.fetch_held(alloc, who, slot, window, root, blob),
            None => self.fetch_nothing(who, slot, window),
        }
    }
}
