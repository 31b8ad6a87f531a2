//! The event call that writes a block of an add.

ghost use Rattle.std.specs.Prelude.{◌≡◌, ◌≤◌, ◌<◌, ◌+◌, ◌^◌, OnOk, OnErr, None, Some};
ghost use Rattle.spec_core.specs.History.{last_state};
ghost use Rattle.spec_tree.specs.Tree.{need_of};
ghost use Rattle.bv_ledger.specs.Answers as A;
ghost use Rattle.bv_volume.specs.Adding.{IsAdmitted, Writes};
ghost use Rattle.bv_volume.specs.Answers.{put_reply};
ghost use Rattle.bv_volume.specs.Events.{Does};
ghost use Rattle.bv_volume.specs.Seen.{IsSafe};
ghost use Rattle.bv_volume.specs.Sessions.{HasAdmitted};

use crate::device::put_store;
use crate::noting::note;
use crate::replies::device_reply;
use crate::tokens::Admitted;
use crate::volume::Volume;
use bv_store::{Block, Store};
use spec_core::{Act, Reply, Who};

/// Why a block wasn't written.
#[derive(Drop, Debug)]
pub enum PutFault {
    /// A write or sync failed earlier in this mount, with this fault.
    Stopped { fault: u64 },
    /// The write failed now.
    DeviceFault { fault: u64 },
}

/// The answer of a put, by the fault of a write that failed; one block more was put, if none did.
fn put_answer(add: &mut Admitted, failed: Option<u64>) -> Result<(), PutFault>
    requires { add.old.put < 2 ^ 32 }
    ensures reply { put_reply result ≡ A.device_reply Reply.Written failed }
    ensures ok { OnOk result ((failed ≡ None) × (add.new ≡ record add.old { put = add.old.put + 1 })) }
    ensures err { OnErr result (add.new ≡ add.old) }
{
    match failed {
        None => {
            add.put += 1;
            Ok(())
        }
        Some(fault) => Err(PutFault::DeviceFault { fault }),
    }
}

impl<'t, S: Store> Volume<'t, S> {
    /// Writes the add's next block, while no write or sync has failed.
    fn put_now(&mut self, who: Who, add: &mut Admitted, block: &Block) -> Result<(), PutFault>
        requires spare { 1 ≤ self.old.spare }
        requires add { HasAdmitted self.old.history who.session add.old }
        requires next { add.old.put < need_of self.old.history.version add.old.size }
        requires going { (last_state self.old.history self.old.next).stopped ≡ None }
        ensures row { Does self.old self.new who (Act.Put add.old.put) (Some (put_reply result)) }
        ensures ok { OnOk result (add.new ≡ record add.old { put = add.old.put + 1 }) }
        ensures err { OnErr result (add.new ≡ add.old) }
        ensures wrote { OnOk result (Writes self.old self.new add.old block.now) }
        ensures admitted { IsAdmitted self.new add.new }
        ensures crash { IsSafe self.new }
    {
        let index = add.put;
        let at = self.space.blocks(add.root)[index as usize];
        let failed = put_store(&mut self.store, at, block);
        self.ledger.put(who, index, failed);
        let reply = device_reply(Reply::Written, failed);
        note(
            &mut self.history,
            who,
            Act::Put { index },
            Some(reply),
            self.store.calls(),
        );
        put_answer(add, failed)
    }

    /// Writes the add's next block, in the order of its blocks. On an `Err` no block more was put.
    pub fn put(&mut self, who: Who, add: &mut Admitted, block: &Block) -> Result<(), PutFault>
        requires spare { 1 ≤ self.old.spare }
        requires add { HasAdmitted self.old.history who.session add.old }
        requires next { add.old.put < need_of self.old.history.version add.old.size }
        ensures row { Does self.old self.new who (Act.Put add.old.put) (Some (put_reply result)) }
        ensures ok { OnOk result (add.new ≡ record add.old { put = add.old.put + 1 }) }
        ensures err { OnErr result (add.new ≡ add.old) }
        ensures wrote { OnOk result (Writes self.old self.new add.old block.now) }
        ensures admitted { IsAdmitted self.new add.new }
        ensures crash { IsSafe self.new }
    {
        match self.ledger.stopped() {
            Some(fault) => {
                note(
                    &mut self.history,
                    who,
                    Act::Put { index: add.put },
                    Some(Reply::Stopped { fault }),
                    self.store.calls(),
                );
                Err(PutFault::Stopped { fault })
            }
            None => self.put_now(who, add, block),
        }
    }
}
