//! What an event changes in the core's tables.
//!
//! After want of memory the tables may have a part of the change.

ghost use Rattle.std.specs.Prelude.{◌≡◌, ◌+◌, ◌<◌, ◌^◌, [], ◌∷◌, ◌++◌, OnOk, Some};
ghost use Rattle.spec_core.specs.Change as C;
ghost use Rattle.spec_core.specs.Choice as W;
ghost use Rattle.bv_text.specs.Core.{with_blob};
ghost use Rattle.spec_core.specs.Log as L;
ghost use Rattle.spec_core.specs.State as S;

use crate::lookups::is_held;
use crate::machine::Machine;
use crate::purging::{let_all_go, purge_all};
use spec_core::{Act, MapChange, Place, Reply, Who};
use spec_tree::{Blob, Digest};
use std::alloc::AllocError;
use std::collections::BTreeMap;

/// Adds the purges of these roots to a log, and leaves the map.
fn log_purges(
    map: &BTreeMap<Digest, Blob>,
    log: &mut Vec<MapChange>,
    roots: &[Digest],
) -> Result<(), AllocError>
    ensures { OnOk result (log.new.items ≡ log.old.items ++ L.purges map.now.entries roots.now) }
{
    let mut rest = map.clone()?;
    purge_all(&mut rest, log, roots)
}

impl Machine {
    /// The add of a root ends.
    fn end_add(&mut self, root: Digest)
        ensures setting { self.new.setting ≡ self.old.setting }
        ensures state { self.new.state ≡ C.add_ends self.old.state root }
    {
        self.adds.remove(&root);
    }

    /// The queue is purged.
    fn flush(&mut self) -> Result<(), AllocError>
        ensures setting { OnOk result (self.new.setting ≡ self.old.setting) }
        ensures state { OnOk result (self.new.state ≡ L.flushed self.old.state []) }
    {
        purge_all(&mut self.map, &mut self.log, &self.queue)?;
        self.queue.clear();
        Ok(())
    }

    /// A device that failed leaves the queue's purges in the log, and the core stopped.
    fn fail(&mut self, fault: u64) -> Result<(), AllocError>
        ensures setting { OnOk result (self.new.setting ≡ self.old.setting) }
        ensures state { OnOk result (self.new.state ≡ L.failed self.old.state [] fault) }
    {
        log_purges(&self.map, &mut self.log, &self.queue)?;
        self.stopped = Some(fault);
        Ok(())
    }

    fn begun(&mut self, root: Digest, size: u64, reply: Reply) -> Result<(), AllocError>
        ensures setting { OnOk result (self.new.setting ≡ self.old.setting) }
        ensures state { OnOk result (self.new.state ≡ C.begun self.old.state root size reply) }
    {
        if let Reply::Granted = reply {
            self.adds.insert(root, size)?;
        }
        Ok(())
    }

    fn admitted(&mut self, root: Digest, reply: Reply)
        ensures setting { self.new.setting ≡ self.old.setting }
        ensures state { self.new.state ≡ C.admitted self.old.state root reply }
    {
        match reply {
            Reply::Admitted => (),
            _ => self.end_add(root),
        }
    }

    fn put_done(&mut self, reply: Reply)
        ensures setting { self.new.setting ≡ self.old.setting }
        ensures state { self.new.state ≡ C.put_done self.old.state reply }
    {
        if let Reply::DeviceFault { fault } = reply {
            self.stopped = Some(fault);
        }
    }

    fn opened(&mut self, place: Place, root: Digest, reply: Reply) -> Result<(), AllocError>
        ensures setting { OnOk result (self.new.setting ≡ self.old.setting) }
        ensures state { OnOk result (self.new.state ≡ C.opened self.old.state place root reply) }
    {
        if let Reply::Opened { .. } = reply {
            self.slots.insert(place, root)?;
        }
        Ok(())
    }

    /// A leaving root that no slot holds goes to the queue's end.
    fn let_go(&mut self, root: Digest) -> Result<(), AllocError>
        ensures setting { OnOk result (self.new.setting ≡ self.old.setting) }
        ensures state { OnOk result (self.new.state ≡ C.let_go self.old.state root) }
    {
        if self.leaving.contains(&root) && !is_held(&self.slots, root) {
            self.leaving.remove(&root);
            self.queue.push(root)?;
        }
        Ok(())
    }

    fn closed(&mut self, place: Place, reply: Reply) -> Result<(), AllocError>
        ensures setting { OnOk result (self.new.setting ≡ self.old.setting) }
        ensures state { OnOk result (self.new.state ≡ C.closed self.old.state place reply) }
    {
        if let Reply::Closed = reply {
            if let Some(root) = self.slots.remove(&place) {
                self.let_go(root)?;
            }
        }
        Ok(())
    }

    fn unlinked(&mut self, root: Digest, reply: Reply) -> Result<(), AllocError>
        ensures setting { OnOk result (self.new.setting ≡ self.old.setting) }
        ensures state { OnOk result (self.new.state ≡ C.unlinked self.old.state root reply) }
    {
        if let Reply::Unlinked = reply {
            if is_held(&self.slots, root) {
                self.leaving.insert(root)?;
            } else {
                self.queue.push(root)?;
            }
        }
        Ok(())
    }

    /// The queue is purged, and the blob of an add is published with the next entry.
    fn publish(&mut self, root: Digest, blob: Blob) -> Result<(), AllocError>
        requires { self.old.state.next < 2 ^ 63 }
        ensures setting { OnOk result (self.new.setting ≡ self.old.setting) }
        ensures state { OnOk result (self.new.state ≡ with_blob self.old.state root blob) }
    {
        self.flush()?;
        self.log.push(MapChange::Publish { root, blob })?;
        self.map.insert(root, blob)?;
        self.next += 1;
        Ok(())
    }

    /// The device failed while the queue's purges and a publication were written.
    fn fail_to_publish(&mut self, root: Digest, blob: Blob, fault: u64) -> Result<(), AllocError>
        ensures setting { OnOk result (self.new.setting ≡ self.old.setting) }
        ensures state { OnOk result (self.new.state
            ≡ L.failed self.old.state (MapChange.Publish root blob ∷ []) fault) }
    {
        self.fail(fault)?;
        self.log.push(MapChange::Publish { root, blob })?;
        Ok(())
    }

    fn settled(&mut self, root: Digest, blob: Blob, reply: Reply) -> Result<(), AllocError>
        requires { self.old.state.next < 2 ^ 63 }
        ensures setting { OnOk result (self.new.setting ≡ self.old.setting) }
        ensures state { OnOk result (self.new.state ≡ C.settled self.old.state root blob reply) }
    {
        match reply {
            Reply::Published => {
                self.publish(root, blob)?;
                self.end_add(root);
                Ok(())
            }
            Reply::DeviceFault { fault } => {
                self.fail_to_publish(root, blob, fault)?;
                self.end_add(root);
                Ok(())
            }
            _ => {
                self.end_add(root);
                Ok(())
            }
        }
    }

    fn made_durable(&mut self) -> Result<(), AllocError>
        requires { self.old.state.next < 2 ^ 63 }
        ensures setting { OnOk result (self.new.setting ≡ self.old.setting) }
        ensures state { OnOk result (self.new.state ≡ C.made_durable self.old.state) }
    {
        if !self.queue.is_empty() {
            self.next += 1;
        }
        self.flush()?;
        self.durable = self.log.len() as u64;
        Ok(())
    }

    fn sync_done(&mut self, reply: Reply) -> Result<(), AllocError>
        requires { self.old.state.next < 2 ^ 63 }
        ensures setting { OnOk result (self.new.setting ≡ self.old.setting) }
        ensures state { OnOk result (self.new.state ≡ C.sync_done self.old.state reply) }
    {
        match reply {
            Reply::Synced => self.made_durable(),
            Reply::DeviceFault { fault } => self.fail(fault),
            _ => Ok(()),
        }
    }

    /// Every slot is emptied, and all leaving roots go to the queue's end.
    fn empty_slots(&mut self) -> Result<(), AllocError>
        ensures setting { OnOk result (self.new.setting ≡ self.old.setting) }
        ensures state { OnOk result (self.new.state ≡ C.slots_emptied self.old.state) }
    {
        self.slots.clear();
        let_all_go(&mut self.leaving, &mut self.queue)
    }

    fn unmount_done(&mut self, reply: Reply) -> Result<(), AllocError>
        requires { self.old.state.next < 2 ^ 63 }
        ensures setting { OnOk result (self.new.setting ≡ self.old.setting) }
        ensures state { OnOk result (self.new.state ≡ C.unmount_done self.old.state reply) }
    {
        match reply {
            Reply::Unmounted => self.made_durable(),
            Reply::DeviceFault { fault } => self.fail(fault),
            _ => Ok(()),
        }
    }

    /// The blob of an add.
    fn blob_of(&self, root: Digest) -> Blob
        ensures { result ≡ C.blob_of self.now.setting (S.find self.now.state.adds root) }
    {
        Blob {
            size: self.adds.get(&root).copied().unwrap_or(0),
            version: self.setting.version,
        }
    }

    /// Changes the state as an event with this reply does.
    pub fn change(&mut self, who: Who, act: Act, reply: Reply) -> Result<(), AllocError>
        requires { self.old.state.next < 2 ^ 63 }
        ensures setting { OnOk result (self.new.setting ≡ self.old.setting) }
        ensures state { OnOk result (self.new.state
            ≡ C.change self.old.setting self.old.state who act reply) }
    {
        match act {
            Act::Begin { root, size } => self.begun(root, size, reply),
            Act::Admit { root } => {
                self.admitted(root, reply);
                Ok(())
            }
            Act::Put { .. } => {
                self.put_done(reply);
                Ok(())
            }
            Act::Settle { root } => {
                let blob = self.blob_of(root);
                self.settled(root, blob, reply)
            }
            Act::Retire { root } => {
                self.end_add(root);
                Ok(())
            }
            Act::Open { slot, root } => self.opened(who.place(slot), root, reply),
            Act::Close { slot } => self.closed(who.place(slot), reply),
            Act::Unlink { root } => self.unlinked(root, reply),
            Act::Sync => self.sync_done(reply),
            Act::Unmount => {
                self.empty_slots()?;
                self.unmount_done(reply)
            }
            Act::Fetch { .. } | Act::Read { .. } | Act::Scan { .. } | Act::List => Ok(()),
        }
    }
}
