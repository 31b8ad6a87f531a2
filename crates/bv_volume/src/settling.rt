//! The event call that publishes an add.

ghost use Rattle.std.specs.Prelude.{◌≡◌, ◌≤◌, ◌<◌, ◌^◌, [], ℕ, length, None, Some};
ghost use Rattle.spec_core.specs.History.{last_state};
ghost use Rattle.bv_ledger.specs.Answers as A;
ghost use Rattle.bv_store.specs.Stored.{TakesRing};
ghost use Rattle.bv_volume.specs.Answers.{HandsBack, settle_reply};
ghost use Rattle.bv_volume.specs.Events.{Does};
ghost use Rattle.bv_volume.specs.Seen.{IsSafe};
ghost use Rattle.bv_volume.specs.Sessions.{HasAdmitted, HasPut};
ghost use Rattle.bv_volume.specs.Spaced.{Handed};

use crate::device::commit_store;
use crate::noting::note;
use crate::preparing::prepare_entry;
use crate::replies::{device_reply, refusal_reply};
use crate::tokens::Admitted;
use crate::volume::Volume;
use bv_ledger::Refusal;
use bv_space::Space;
use bv_store::Store;
use spec_core::{Act, Reply, Who};
use spec_tree::{Blob, Digest};
use std::alloc::Global;

/// Why an add wasn't published. All but want of memory end it.
pub enum SettleFault {
    /// A write or sync failed earlier in this mount, with this fault.
    Stopped { fault: u64 },
    /// There is no further number for an entry.
    NumberEnd,
    /// The add is handed back.
    NoMemory(Admitted),
    /// A write or sync failed now.
    DeviceFault { fault: u64 },
}

/// The answer of a settle, by the fault of a call that failed.
fn settle_answer(failed: Option<u64>) -> Result<(), SettleFault>
    ensures { settle_reply result ≡ Some (A.device_reply Reply.Published failed) }
{
    match failed {
        None => Ok(()),
        Some(fault) => Err(SettleFault::DeviceFault { fault }),
    }
}

/// The answer of a settle that was refused.
fn settle_refusal(refusal: Refusal) -> Result<(), SettleFault>
    ensures { settle_reply result ≡ Some (A.refusal_reply refusal) }
{
    match refusal {
        Refusal::Stopped { fault } => Err(SettleFault::Stopped { fault }),
        Refusal::NumberEnd => Err(SettleFault::NumberEnd),
    }
}

/// The add's blocks and nodes are handed over, and the blocks of the purges of its entry are buried,
/// unless a call failed.
fn hand_over(space: &mut Space, root: Digest, purged: &[u64], failed: Option<u64>)
    requires { length purged.now ≤ space.old.spare }
    ensures done { failed ≡ None → Handed space.old space.new root purged.now }
    ensures kept { (f : ℕ) → failed ≡ Some f → Handed space.old space.new root [] }
{
    space.hand_over(root);
    if failed.is_none() {
        space.bury(purged);
    }
}

impl<'t, S: Store> Volume<'t, S> {
    /// Purges the queue and publishes the add by one entry.
    fn publish(&mut self, alloc: Global, who: Who, add: Admitted) -> Result<(), SettleFault>
        requires spare { 1 ≤ self.old.spare }
        requires add { HasAdmitted self.old.history who.session add }
        requires put { HasPut self.old who.session add }
        requires going { (last_state self.old.history self.old.next).stopped ≡ None }
        requires number { (last_state self.old.history self.old.next).next < 2 ^ 62 }
        ensures row { Does self.old self.new who (Act.Settle add.root) (settle_reply result) }
        ensures back { HandsBack result add }
        ensures ring { TakesRing result self.old.store self.new.store }
        ensures crash { IsSafe self.new }
    {
        let root = add.root;
        let blob = Blob {
            size: add.size,
            version: self.ledger.setting().version,
        };
        let purged = match prepare_entry(
            &mut self.ledger,
            &mut self.space,
            &mut self.store,
            alloc,
            root,
            blob,
        ) {
            Err(_) => return Err(SettleFault::NoMemory(add)),
            Ok(purged) => purged,
        };
        let Admitted {
            root: _,
            size: _,
            put: _,
        } = add;
        let failed = commit_store(&mut self.store);
        self.ledger.settled(who, root, failed);
        hand_over(&mut self.space, root, &purged, failed);
        let reply = device_reply(Reply::Published, failed);
        note(
            &mut self.history,
            who,
            Act::Settle { root },
            Some(reply),
            self.store.calls(),
        );
        settle_answer(failed)
    }

    /// Purges the queue and publishes the add by one entry, which isn't durable before the next sync.
    /// Want of memory hands the add back; all else ends it.
    pub fn settle(&mut self, alloc: Global, who: Who, add: Admitted) -> Result<(), SettleFault>
        requires spare { 1 ≤ self.old.spare }
        requires add { HasAdmitted self.old.history who.session add }
        requires put { HasPut self.old who.session add }
        ensures row { Does self.old self.new who (Act.Settle add.root) (settle_reply result) }
        ensures back { HandsBack result add }
        ensures ring { TakesRing result self.old.store self.new.store }
        ensures crash { IsSafe self.new }
    {
        let root = add.root;
        if let Some(refusal) = self.ledger.settle_refused(who, root) {
            let Admitted {
                root: _,
                size: _,
                put: _,
            } = add;
            self.space.retire(root);
            let reply = refusal_reply(&refusal);
            note(
                &mut self.history,
                who,
                Act::Settle { root },
                reply,
                self.store.calls(),
            );
            return settle_refusal(refusal);
        }
        self.publish(alloc, who, add)
    }
}
