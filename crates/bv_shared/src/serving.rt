//! The volume's events, as sessions ask for them.
ghost use Rattle.std.specs.Prelude.{true};
ghost use Rattle.spec_session.specs.Own.{new_add};
ghost use Rattle.bv_shared.specs.Entries as E;
ghost use Rattle.bv_shared.specs.ServeLaws as L;

use crate::answers::{
    admit_answer, begin_answer, close_outcome, fetch_answer, look_answer, look_of, open_answer,
    put_answer, settle_answer, sync_outcome, unlink_outcome,
};
use crate::pages::{forget_unlinked, keep_closed};
use crate::shared::Shared;
use bv_claims::{Claimed, Grant};
use bv_pager::Reader;
use bv_proof::RawWindow;
use bv_session::{Answer, Outcome, Serves};
use bv_store::Store;
use bv_volume::{Admitted, Begun};
use spec_core::{Act, Who};
use spec_tree::Digest;
use std::alloc::{AllocError, Global};

/// The room for one event.
const ONE: u64 = 1;

/// The room for the event that begins an add, and for the one that ends it.
const BEGINNING: u64 = 2;

impl<'t, S: Store> Serves for Shared<'t, S> {
    type Begun = Begun;

    type Admitted = Admitted;

    ghost begun = { λ b. new_add b.root b.size };

    ghost admitted = { λ a. record {
      root = a.root;
      size = a.size;
      admitted = true;
      puts = a.put;
    } };

    ghost device_events = { λ v. E.device_events v.volume.store.told };

    ghost fault_count = { λ v. v.volume.store.faults };

    ghost session_is = { L.of_session };

    ghost tells = { λ v. L.tells v.volume v.opening.value.store.faults };

    ghost lists = { λ v. L.lists v.volume v.opening.value.store.faults };

    ghost afters = { λ v. L.afters v.volume };

    ghost caused = { λ v. L.caused v.opening.value v.volume v.since };

    fn begin(
        &mut self,
        alloc: Global,
        who: Who,
        root: Digest,
        size: u64,
    ) -> Result<Answer<(Begun, Grant)>, AllocError> {
        match self.make_room(alloc, BEGINNING) {
            Ok(()) => (),
            Err(error) => return Err(error),
        }
        begin_answer(self.note_begin(alloc, who, root, size))
    }

    fn admit(
        &mut self,
        alloc: Global,
        who: Who,
        add: Begun,
        claimed: Claimed,
    ) -> Result<Answer<Admitted>, (Begun, Claimed)> {
        match self.make_room(alloc, ONE) {
            Ok(()) => (),
            Err(_) => return Err((add, claimed)),
        }
        admit_answer(self.note_admit(alloc, who, add, claimed))
    }

    fn put(
        &mut self,
        alloc: Global,
        who: Who,
        add: &mut Admitted,
        block: &[u8; 8192],
    ) -> Result<Outcome, AllocError> {
        match self.make_room(alloc, ONE) {
            Ok(()) => (),
            Err(error) => return Err(error),
        }
        Ok(put_answer(self.note_put(who, add, block)))
    }

    fn settle(&mut self, alloc: Global, who: Who, add: Admitted) -> Result<Outcome, Admitted> {
        match self.make_room(alloc, ONE) {
            Ok(()) => (),
            Err(_) => return Err(add),
        }
        settle_answer(self.note_settle(alloc, who, add))
    }

    fn retire_begun(&mut self, who: Who, add: Begun, claimed: Claimed) {
        self.note_retire_begun(who, add, claimed)
    }

    fn retire(&mut self, who: Who, add: Admitted) {
        self.note_retire(who, add)
    }

    fn open(
        &mut self,
        alloc: Global,
        who: Who,
        slot: u32,
        root: Digest,
    ) -> Result<Answer<(u64, Option<Reader>)>, AllocError> {
        match self.make_room(alloc, ONE) {
            Ok(()) => (),
            Err(error) => return Err(error),
        }
        let answer = self.note_open(alloc, who, slot, root);
        open_answer(&mut self.kept, root, answer)
    }

    fn close(
        &mut self,
        alloc: Global,
        who: Who,
        slot: u32,
        pages: Option<Reader>,
    ) -> Result<Outcome, AllocError> {
        match self.make_room(alloc, ONE) {
            Ok(()) => (),
            Err(error) => return Err(error),
        }
        let answer = self.note_close(who, slot);
        keep_closed(&mut self.kept, &self.volume, pages);
        close_outcome(answer)
    }

    fn look(
        &mut self,
        alloc: Global,
        who: Who,
        slot: u32,
        act: Act,
    ) -> Result<Answer<(Digest, u64)>, AllocError> {
        match self.make_room(alloc, ONE) {
            Ok(()) => (),
            Err(error) => return Err(error),
        }
        let blob = self.volume.held(who, slot);
        Ok(look_answer(self.note_look(who, slot, look_of(act, slot)), blob))
    }

    fn fetch(
        &mut self,
        alloc: Global,
        who: Who,
        slot: u32,
        window: u64,
    ) -> Result<Answer<RawWindow>, AllocError> {
        match self.make_room(alloc, ONE) {
            Ok(()) => (),
            Err(error) => return Err(error),
        }
        fetch_answer(self.note_fetch(alloc, who, slot, window))
    }

    fn unlink(&mut self, alloc: Global, who: Who, root: Digest) -> Result<Outcome, AllocError> {
        match self.make_room(alloc, ONE) {
            Ok(()) => (),
            Err(error) => return Err(error),
        }
        let answer = self.note_unlink(alloc, who, root);
        forget_unlinked(&mut self.kept, &answer, root);
        unlink_outcome(answer)
    }

    fn sync(&mut self, alloc: Global, who: Who) -> Result<Outcome, AllocError> {
        match self.make_room(alloc, ONE) {
            Ok(()) => (),
            Err(error) => return Err(error),
        }
        sync_outcome(self.note_sync(alloc, who))
    }

    fn list(&mut self, alloc: Global, who: Who) -> Result<Vec<(Digest, u64)>, AllocError> {
        match self.make_room(alloc, ONE) {
            Ok(()) => (),
            Err(error) => return Err(error),
        }
        self.note_list(alloc, who)
    }
}
