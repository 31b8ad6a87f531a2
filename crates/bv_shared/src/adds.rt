//! The event calls of the volume that take an add on: each appends one entry, or nothing for want
//! of memory.
ghost use Rattle.std.specs.Prelude.{◌≡◌, ◌≤◌, ◌<◌, ◌+◌, ℕ, IfOk, IfSome, OnOk, OnErr, None, Some};
ghost use Rattle.spec_tree.specs.Tree.{need_of};
ghost use Rattle.spec_core.specs.declared.act.Act.TheVariants.{Begin, Admit, Put, Settle, Retire};
ghost use Rattle.spec_core.specs.declared.reply.Reply.TheVariants.{Retired, Written};
ghost use Rattle.spec_session.specs.Conform.{events_of};
ghost use Rattle.spec_session.specs.Own.{add_of};
ghost use Rattle.bv_claims.specs.Tokens.{IsGrantOf, grant_need};
ghost use Rattle.bv_ledger.specs.Answers as A;
ghost use Rattle.bv_session.specs.Events.{NotesAs, reply_or};
ghost use Rattle.bv_session.specs.Written.{Wrote, written};
ghost use Rattle.bv_turn.specs.Entries.{entries_of};
ghost use Rattle.bv_volume.specs.Adding.{ClaimsFor};
ghost use Rattle.bv_volume.specs.Admitted.{HandsBoth, admit_reply};
ghost use Rattle.bv_volume.specs.Answers.{HandsBack, settle_reply};
ghost use Rattle.bv_volume.specs.Events.{Does};
ghost use Rattle.bv_volume.specs.Sessions.{HasAdmitted, HasBegun, HasPut};
ghost use Rattle.bv_writer.specs.Blocks.{IsBlobOf};
ghost use Rattle.bv_shared.specs.Answers.{put_outcome};
ghost use Rattle.bv_shared.specs.Entries.{Gains, basis_of, entries_in, told_of};
ghost use Rattle.bv_shared.specs.KeptPages.{kept_after, last_settled};
ghost use Rattle.bv_shared.specs.Moments.{HasNow};
ghost use Rattle.bv_shared.specs.Since.{AreWithin};

use crate::pages::forget_settled;
use crate::shared::Shared;
use bv_cache::Kept;
use bv_store::{Block, Store};
use bv_volume::{
    AdmitFault, Admitted, BeginFault, Begun, Claimed, Grant, PutFault, SettleFault, Volume,
};
use spec_core::Who;
use spec_tree::Digest;
use std::alloc::Global;

impl<'t, S: Store> Shared<'t, S> {
    pub(crate) fn note_begin(
        &mut self,
        alloc: Global,
        who: Who,
        root: Digest,
        size: u64,
    ) -> Result<(Begun, Grant), BeginFault>
        requires spare { 2 ≤ self.old.volume.spare }
        requires within { AreWithin self.old.volume }
        requires few { need_of self.old.volume.history.version size ≤ 65535 }
        requires idle { add_of (events_of who.session self.old.volume.history.events) ≡ None }
        ensures opening { self.new.opening.value ≡ self.old.opening.value }
        ensures basis { (faults : ℕ) → basis_of self.new.volume faults
            ≡ basis_of self.old.volume faults }
        ensures gains { Gains (entries_in self.old.volume) (entries_in self.new.volume) who
            (Begin root size) (A.begin_reply result) }
        ensures begun { IfOk result (λ p. (p.0.root ≡ root) × (p.0.size ≡ size)) }
        ensures grant { IfOk result (λ p. IsGrantOf self.old.volume.space.claims p.1
            × (grant_need p.1 ≡ need_of self.old.volume.history.version size)) }
    {
        let volume = &mut self.volume;
        let answer = volume.begin(alloc, who, root, size);
        let _after = volume.history();
        answer
    }

    pub(crate) fn note_admit(
        &mut self,
        alloc: Global,
        who: Who,
        begun: Begun,
        claimed: Claimed,
    ) -> Result<Admitted, AdmitFault>
        requires spare { 1 ≤ self.old.volume.spare }
        requires within { AreWithin self.old.volume }
        requires begun { HasBegun self.old.volume.history who.session begun }
        requires claimed { ClaimsFor self.old.volume.space.claims claimed
            (need_of self.old.volume.history.version begun.size) }
        ensures opening { self.new.opening.value ≡ self.old.opening.value }
        ensures basis { (faults : ℕ) → basis_of self.new.volume faults
            ≡ basis_of self.old.volume faults }
        ensures gains { Gains (entries_in self.old.volume) (entries_in self.new.volume) who
            (Admit begun.root) (admit_reply result) }
        ensures admitted { IfOk result (λ a. a ≡ record {
          root = begun.root;
          size = begun.size;
          put = 0;
        }) }
        ensures back { HandsBoth result begun claimed }
    {
        let volume = &mut self.volume;
        let answer = volume.admit(alloc, who, begun, claimed);
        let _after = volume.history();
        answer
    }

    /// Where the device tells, the put's write is the last that it has told by its end.
    pub(crate) fn note_put(
        &mut self,
        who: Who,
        add: &mut Admitted,
        block: &Block,
    ) -> Result<(), PutFault>
        requires spare { 1 ≤ self.old.volume.spare }
        requires within { AreWithin self.old.volume }
        requires add { HasAdmitted self.old.volume.history who.session add.old }
        requires next { add.old.put < need_of self.old.volume.history.version add.old.size }
        ensures opening { self.new.opening.value ≡ self.old.opening.value }
        ensures basis { (faults : ℕ) → basis_of self.new.volume faults
            ≡ basis_of self.old.volume faults }
        ensures gains { NotesAs (entries_in self.old.volume) (entries_in self.new.volume) who
            (Put add.old.put) (reply_or Written (put_outcome result))
            (Wrote (told_of self.old.volume.store.began) (put_outcome result) block.now) }
        ensures ok { OnOk result (add.new ≡ record add.old { put = add.old.put + 1 }) }
        ensures err { OnErr result (add.new ≡ add.old) }
    {
        let volume = &mut self.volume;
        let answer = volume.put(who, add, block);
        let _after = volume.history();
        answer
    }

    /// Where the device tells, the blocks that the session's add has written are those of its blob.
    pub(crate) fn note_settle(
        &mut self,
        alloc: Global,
        who: Who,
        add: Admitted,
    ) -> Result<(), SettleFault>
        requires spare { 1 ≤ self.old.volume.spare }
        requires within { AreWithin self.old.volume }
        requires add { HasAdmitted self.old.volume.history who.session add }
        requires all { add.put ≡ need_of self.old.volume.history.version add.size }
        requires written { IfSome (told_of self.old.volume.store.began) (λ d.
            IsBlobOf self.old.volume.history.version add.root add.size
            (written (entries_of (λ e. e.event.who.session) who.session
            (entries_in self.old.volume)))) }
        ensures opening { self.new.opening.value ≡ self.old.opening.value }
        ensures basis { (faults : ℕ) → basis_of self.new.volume faults
            ≡ basis_of self.old.volume faults }
        ensures gains { Gains (entries_in self.old.volume) (entries_in self.new.volume) who
            (Settle add.root) (settle_reply result) }
        ensures back { HandsBack result add }
    {
        let _history = self.volume.history();
        settle_anew(&mut self.volume, &mut self.kept, alloc, who, add)
    }

    pub(crate) fn note_retire_begun(&mut self, who: Who, begun: Begun, claimed: Claimed)
        requires begun { HasBegun self.old.volume.history who.session begun }
        requires claimed { ClaimsFor self.old.volume.space.claims claimed
            (need_of self.old.volume.history.version begun.size) }
        ensures opening { self.new.opening.value ≡ self.old.opening.value }
        ensures basis { (faults : ℕ) → basis_of self.new.volume faults
            ≡ basis_of self.old.volume faults }
        ensures gains { Gains (entries_in self.old.volume) (entries_in self.new.volume) who
            (Retire begun.root) (Some Retired) }
    {
        let _history = self.volume.history();
        let volume = &mut self.volume;
        volume.retire_begun(who, begun, claimed);
        let _after = volume.history();
    }

    pub(crate) fn note_retire(&mut self, who: Who, add: Admitted)
        requires add { HasAdmitted self.old.volume.history who.session add }
        ensures opening { self.new.opening.value ≡ self.old.opening.value }
        ensures basis { (faults : ℕ) → basis_of self.new.volume faults
            ≡ basis_of self.old.volume faults }
        ensures gains { Gains (entries_in self.old.volume) (entries_in self.new.volume) who
            (Retire add.root) (Some Retired) }
    {
        let _history = self.volume.history();
        let volume = &mut self.volume;
        volume.retire(who, add);
        let _after = volume.history();
    }
}

/// Settles an add, and drops what was kept of its blob: whoever publishes a root puts its blocks
/// anew.
fn settle_anew<S: Store>(
    volume: &mut Volume<'_, S>,
    kept: &mut Kept,
    alloc: Global,
    who: Who,
    add: Admitted,
) -> Result<(), SettleFault>
    requires spare { 1 ≤ volume.old.spare }
    requires add { HasAdmitted volume.old.history who.session add }
    requires put { HasPut volume.old who.session add }
    ensures row { Does volume.old volume.new who (Settle add.root) (settle_reply result) }
    ensures back { HandsBack result add }
    ensures now { HasNow volume.new }
    ensures kept { kept.new ≡ kept_after (last_settled volume.new.history.events) kept.old }
{
    let answer = volume.settle(alloc, who, add);
    let after = volume.history();
    forget_settled(kept, after.events());
    answer
}
