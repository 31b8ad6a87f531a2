//! The event calls that put an add under way, and that end one without a publication.

ghost use Rattle.std.specs.Prelude.{◌≡◌, ◌≤◌, ◌+◌, ◌-◌, ◌^◌, ◌<◌, IfOk, OnOk, OnErr, None, Ok, Some};
ghost use Rattle.std.specs.List.{sum_by};
ghost use Rattle.std.specs.Map.{values_of};
ghost use Rattle.bv_claims.specs.Tokens.{IsGrantOf, block_count, grant_need};
ghost use Rattle.bv_ledger.specs.Answers as A;
ghost use Rattle.bv_ledger.specs.Tables as L;
ghost use Rattle.spec_core.specs.Room.{blob_need};
ghost use Rattle.spec_core.specs.State.{find};
ghost use Rattle.spec_tree.specs.Tree.{need_of};
ghost use Rattle.spec_tree.specs.declared.Digest.{Digest as Root};
ghost use Rattle.bv_volume.specs.Adding.{Begins, ClaimsFor, IsBegun};
ghost use Rattle.bv_volume.specs.Events.{Does};
ghost use Rattle.bv_volume.specs.Seen.{IsSafe};
ghost use Rattle.bv_volume.specs.Sessions.{HasAdmitted, HasBegun, MayBegin};

use crate::noting::note;
use crate::replies::begin_reply;
use crate::tokens::{Admitted, Begun};
use crate::volume::Volume;
use bv_ledger::{BeginFault, Ledger};
use bv_merkle::blocks_needed_of;
use bv_space::{Claimed, Grant, Space};
use bv_store::Store;
use spec_core::{Act, Reply, Who};
use spec_tree::Digest;
use std::alloc::Global;

/// Puts an add under way in the tables and in the space, or leaves both as they were.
fn start(
    ledger: &mut Ledger,
    space: &mut Space,
    alloc: Global,
    who: Who,
    root: Digest,
    size: u64,
) -> Result<Grant, BeginFault>
    requires adds { (r : Root) → find ledger.old.adds r ≡ None → find space.old.adds r ≡ None }
    requires room { ledger.old.stopped ≡ None → space.old.room
        + (sum_by blob_need (values_of ledger.old.map)
        + sum_by (need_of ledger.old.setting.version) (values_of ledger.old.adds)
        + ledger.old.purged) ≡ ledger.old.setting.blocks - 1 }
    requires blocks { 2 ≤ block_count space.old.claims }
    ensures row { L.Does ledger.old ledger.new who (Act.Begin root size) (A.begin_reply result) }
    ensures grant { IfOk result (λ g. IsGrantOf space.old.claims g
        × (grant_need g ≡ need_of ledger.old.setting.version size)) }
    ensures ok { OnOk result (Begins ledger.old ledger.new space.old space.new root size) }
    ensures err { OnErr result (space.new ≡ space.old) }
{
    let version = ledger.setting().version;
    match ledger.begin(who, root, size) {
        Err(fault) => return Err(fault),
        Ok(()) => (),
    }
    let need = blocks_needed_of(version, size);
    match space.begin(alloc, root, need) {
        Ok(grant) => return Ok(grant),
        Err(_) => {
            ledger.end_add(root);
            return Err(BeginFault::NoMemory);
        }
    }
}

/// The token of an add that was put under way, with its grant.
fn begun(
    granted: Result<Grant, BeginFault>,
    root: Digest,
    size: u64,
) -> Result<(Begun, Grant), BeginFault>
    ensures reply { A.begin_reply result ≡ A.begin_reply granted }
    ensures ok { IfOk result (λ p. (granted ≡ Ok p.1)
        × (p.0 ≡ record { root = root; size = size })) }
{
    match granted {
        Ok(grant) => Ok((Begun { root, size }, grant)),
        Err(fault) => Err(fault),
    }
}

impl<'t, S: Store> Volume<'t, S> {
    /// Puts an add of a blob of so many bytes under way. The grant is for the blocks that it needs,
    /// which anyone may claim beside other calls.
    pub fn begin(
        &mut self,
        alloc: Global,
        who: Who,
        root: Digest,
        size: u64,
    ) -> Result<(Begun, Grant), BeginFault>
        requires spare { 2 ≤ self.old.spare }
        requires few { need_of self.old.history.version size ≤ 65535 }
        requires order { MayBegin self.old.history who.session root }
        ensures row { Does self.old self.new who (Act.Begin root size) (A.begin_reply result) }
        ensures begun { IfOk result (λ p. (p.0.root ≡ root) × (p.0.size ≡ size)
            × IsBegun self.new p.0) }
        ensures grant { IfOk result (λ p. IsGrantOf self.new.space.claims p.1
            × (grant_need p.1 ≡ need_of self.old.history.version size)) }
        ensures crash { IsSafe self.new }
    {
        let result = start(&mut self.ledger, &mut self.space, alloc, who, root, size);
        let reply = begin_reply(&result);
        note(
            &mut self.history,
            who,
            Act::Begin { root, size },
            reply,
            self.store.calls(),
        );
        begun(result, root, size)
    }

    /// Ends an add that wasn't admitted, and frees the blocks that were claimed for it.
    pub fn retire_begun(&mut self, who: Who, begun: Begun, claimed: Claimed)
        requires begun { HasBegun self.old.history who.session begun }
        requires claimed { ClaimsFor self.old.space.claims claimed
            (need_of self.old.history.version begun.size) }
        ensures row { Does self.old self.new who (Act.Retire begun.root) (Some Reply.Retired) }
        ensures crash { IsSafe self.new }
    {
        let Begun { root, size: _ } = begun;
        self.space.give_back(root, claimed);
        self.ledger.retire(who, root);
        note(
            &mut self.history,
            who,
            Act::Retire { root },
            Some(Reply::Retired),
            self.store.calls(),
        );
    }

    /// Ends an add that was admitted, without a publication, and frees its blocks.
    pub fn retire(&mut self, who: Who, add: Admitted)
        requires { HasAdmitted self.old.history who.session add }
        ensures row { Does self.old self.new who (Act.Retire add.root) (Some Reply.Retired) }
        ensures crash { IsSafe self.new }
    {
        let Admitted {
            root,
            size: _,
            put: _,
        } = add;
        self.space.retire(root);
        self.ledger.retire(who, root);
        note(
            &mut self.history,
            who,
            Act::Retire { root },
            Some(Reply::Retired),
            self.store.calls(),
        );
    }
}
