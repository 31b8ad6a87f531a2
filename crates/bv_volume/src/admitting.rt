//! The event call that admits an add: it gets its blocks, and nodes are set aside for it.

ghost use Rattle.std.specs.Prelude.{◌≡◌, ◌≤◌, ◌<◌, ◌^◌, ◌+◌, ◌-◌, ℕ, [], sum, is_some, length, vec_capacity, true, IfOk, IfSome, IfErr, OnOk, OnErr, None, Some};
ghost use Rattle.std.specs.List.{sum_by};
ghost use Rattle.std.specs.Map.{values_of};
ghost use Rattle.bv_claims.specs.Tokens.{IsClaimedOf, claimed_gained, claimed_left};
ghost use Rattle.bv_ledger.specs.Answers as A;
ghost use Rattle.bv_ledger.specs.Tables as L;
ghost use Rattle.bv_ledger.specs.Tables.{state_with};
ghost use Rattle.spec_record.specs.Node.{nodes_for};
ghost use Rattle.spec_core.specs.History.{last_state};
ghost use Rattle.spec_core.specs.Room.{least_free};
ghost use Rattle.spec_core.specs.State.{find};
ghost use Rattle.spec_tree.specs.Tree.{need_of};
ghost use Rattle.bv_volume.specs.Adding.{Admitting, ClaimsFor, Ending, IsAdmitted};
ghost use Rattle.bv_volume.specs.Admitted.{HandsBoth, IsAnswer, IsGiven, IsNeedOf, TellsNodes, admit_reply};
ghost use Rattle.bv_volume.specs.Events.{Does};
ghost use Rattle.bv_volume.specs.Seen.{IsSafe};
ghost use Rattle.bv_volume.specs.Sessions.{HasBegun};

use crate::noting::note;
use crate::replies::nodes_reply;
use crate::tokens::{Admitted, Begun};
use crate::volume::Volume;
use bv_ledger::{Ledger, NoNodes};
use bv_merkle::blocks_needed_of;
use bv_node::{nodes_for, runs_into};
use bv_space::{Claimed, Space};
use bv_store::Store;
use spec_core::{Act, Reply, Who};
use spec_record::Extent;
use spec_tree::Digest;
use std::alloc::Global;

/// Why an add wasn't admitted. All but want of memory end it, and free its blocks.
pub enum AdmitFault {
    /// A write or sync failed earlier in this mount, with this fault.
    Stopped { fault: u64 },
    /// The add and its claim are handed back.
    NoMemory(Begun, Claimed),
    /// The add's extents need more nodes than are free.
    NoNodes { need: u64, free: u64 },
}

/// How many nodes neither a blob of the map takes nor an add.
fn free_nodes<S: Store>(store: &S, space: &Space) -> u64
    requires { (S.seen store.now).used_nodes + sum (values_of space.now.nodes)
        ≤ (S.seen store.now).geometry.nodes }
    ensures few { (S.seen store.now).used_nodes
        ≤ sum_by (λ blocks. nodes_for (length blocks)) (values_of (S.seen store.now).placed) }
    ensures value { result ≡ (S.seen store.now).geometry.nodes - (S.seen store.now).used_nodes
        - sum (values_of space.now.nodes) }
{
    store.geometry().nodes - store.used_nodes() - space.nodes_aside()
}

/// Gives an add the blocks of its claim, and sets its nodes aside, of so many that are free; or ends
/// it. `extents` has room for as many as there are blocks.
fn give_space(
    ledger: &mut Ledger,
    space: &mut Space,
    who: Who,
    root: Digest,
    claimed: Claimed,
    mut extents: Vec<Extent>,
    free: u64,
) -> Result<(), NoNodes>
    requires going { ledger.old.stopped ≡ None }
    requires under_way { is_some (find ledger.old.adds root) ≡ true }
    requires need { IfSome (find ledger.old.adds root) (λ n.
        length (claimed_gained claimed) + claimed_left claimed
        ≡ need_of ledger.old.setting.version n) }
    requires table { IsClaimedOf space.old.claims claimed }
    requires add { is_some (find space.old.adds root) ≡ true }
    requires noted { is_some (find space.old.nodes root) ≡ true }
    requires empty { extents.items ≡ [] }
    requires room { length (claimed_gained claimed) + claimed_left claimed
        ≤ vec_capacity extents }
    requires least { least_free ledger.old.setting (state_with ledger.old [] 0) root ≤ free }
    ensures row { L.Does ledger.old ledger.new who (Act.Admit root)
        (Some (A.admit_reply result)) }
    ensures ok { OnOk result (Admitting space.old space.new root free
        (length (claimed_gained claimed) + claimed_left claimed)) }
    ensures given { OnOk result (IsGiven space.new.adds root space.old.claims claimed free) }
    ensures told { IfErr result (λ e. (free < e.need) × (e.free ≡ free)
        × IsNeedOf space.old.claims claimed e.need) }
    ensures err { OnErr result (Ending space.old space.new root
        (length (claimed_gained claimed) + claimed_left claimed)) }
{
    let blocks = space.gather(claimed);
    runs_into(&blocks, &mut extents);
    let need = nodes_for(extents.len() as u64);
    match ledger.admit(who, root, need, free) {
        Ok(()) => {
            space.give(root, blocks, need);
            Ok(())
        }
        Err(fault) => {
            space.release(root, &blocks);
            Err(fault)
        }
    }
}

/// The token of an add that was admitted.
fn admit_answer(
    answer: Result<(), NoNodes>,
    root: Digest,
    size: u64,
) -> Result<Admitted, AdmitFault>
    ensures reply { admit_reply result ≡ Some (A.admit_reply answer) }
    ensures same { IsAnswer answer result root size }
{
    match answer {
        Ok(()) => Ok(Admitted { root, size, put: 0 }),
        Err(NoNodes { need, free }) => Err(AdmitFault::NoNodes { need, free }),
    }
}

impl<'t, S: Store> Volume<'t, S> {
    /// Ends an add that is to be admitted, where a write or sync failed earlier.
    fn end_begun(&mut self, who: Who, begun: Begun, claimed: Claimed, fault: u64)
        requires spare { 1 ≤ self.old.spare }
        requires begun { HasBegun self.old.history who.session begun }
        requires claimed { ClaimsFor self.old.space.claims claimed
            (need_of self.old.history.version begun.size) }
        requires stopped { (last_state self.old.history self.old.next).stopped ≡ Some fault }
        ensures row { Does self.old self.new who (Act.Admit begun.root) (Some (Reply.Stopped fault)) }
        ensures crash { IsSafe self.new }
    {
        let Begun { root, size: _ } = begun;
        self.space.give_back(root, claimed);
        self.ledger.admit_stopped(who, root, fault);
        note(
            &mut self.history,
            who,
            Act::Admit { root },
            Some(Reply::Stopped { fault }),
            self.store.calls(),
        );
    }

    /// Gives an add the blocks of its claim, completed, and sets aside the nodes that their extents
    /// take. Want of memory hands back both; no-nodes comes exactly where that is more than neither
    /// the map's blobs nor other adds take.
    pub fn admit(
        &mut self,
        alloc: Global,
        who: Who,
        begun: Begun,
        claimed: Claimed,
    ) -> Result<Admitted, AdmitFault>
        requires spare { 1 ≤ self.old.spare }
        requires begun { HasBegun self.old.history who.session begun }
        requires claimed { ClaimsFor self.old.space.claims claimed
            (need_of self.old.history.version begun.size) }
        ensures row { Does self.old self.new who (Act.Admit begun.root) (admit_reply result) }
        ensures admitted { IfOk result (λ a. (a ≡ record {
          root = begun.root;
          size = begun.size;
          put = 0;
        }) × IsAdmitted self.new a) }
        ensures nodes { TellsNodes self.old self.new claimed result }
        ensures back { HandsBoth result begun claimed }
        ensures crash { IsSafe self.new }
    {
        if let Some(fault) = self.ledger.stopped() {
            self.end_begun(who, begun, claimed, fault);
            return Err(AdmitFault::Stopped { fault });
        }
        let need = blocks_needed_of(self.ledger.setting().version, begun.size);
        let extents = match Vec::with_capacity(alloc, need as usize) {
            Err(_) => return Err(AdmitFault::NoMemory(begun, claimed)),
            Ok(extents) => extents,
        };
        let free = free_nodes(&self.store, &self.space);
        match self.space.note_nodes(begun.root) {
            Err(_) => return Err(AdmitFault::NoMemory(begun, claimed)),
            Ok(()) => (),
        }
        let Begun { root, size } = begun;
        let answer = give_space(
            &mut self.ledger,
            &mut self.space,
            who,
            root,
            claimed,
            extents,
            free,
        );
        let reply = nodes_reply(&answer);
        note(
            &mut self.history,
            who,
            Act::Admit { root },
            reply,
            self.store.calls(),
        );
        admit_answer(answer, root, size)
    }
}
