//! What the volume's answers are to a session.
ghost use Rattle.std.specs.Prelude.{◌≡◌, ◌⊎◌, IfOk, IfErr, IfSome, IsSomeAnd, Ok, Err, Some};
ghost use Rattle.spec_core.specs.declared.reply.Reply.TheVariants.{Admitted as AdmittedReply, Closed, Fetched, Granted, Opened, Published, Reading, Synced, Unlinked};
ghost use Rattle.std.specs.Map.{lookup, remove_entry};
ghost use Rattle.bv_cache.specs.Kept.{is_root};
ghost use Rattle.bv_ledger.specs.Answers as A;
ghost use Rattle.bv_session.specs.Events.{IfDone, IfRefused, IfRefuses, IsLook, IsReadFault, IsRefusal, reply_by};
ghost use Rattle.bv_volume.specs.Admitted.{admit_reply};
ghost use Rattle.bv_volume.specs.Answers.{settle_reply, sync_reply};
ghost use Rattle.bv_volume.specs.Fetched.{fetch_reply};
ghost use Rattle.bv_volume.specs.declared.fetching.FetchFault.TheVariants as fetching;
ghost use Rattle.bv_volume.specs.declared.admitting.AdmitFault.TheVariants as admitting;
ghost use Rattle.bv_volume.specs.declared.settling.SettleFault.TheVariants as settling;
ghost use Rattle.bv_shared.specs.Answers.{answer_reply, outcome_reply, put_outcome};

use crate::pages::pages_of;
use bv_cache::Kept;
use bv_claims::{Claimed, Grant};
use bv_pager::Reader;
use bv_proof::RawWindow;
use bv_session::{Answer, Outcome};
use bv_volume::{
    AdmitFault, Admitted, BadSlot, BeginFault, Begun, FetchFault, Look, OpenFault, PutFault,
    SettleFault, SyncFault, UnlinkFault,
};
use spec_core::{Act, Reply};
use spec_tree::Digest;
use std::alloc::AllocError;

/// What a begin is to a session.
pub(crate) fn begin_answer(
    answer: Result<(Begun, Grant), BeginFault>,
) -> Result<Answer<(Begun, Grant)>, AllocError>
    ensures reply { answer_reply (λ x. Granted) result ≡ A.begin_reply answer }
    ensures done { IfOk result (λ a. IfDone a (λ x. answer ≡ Ok x)) }
    ensures refused { IfOk result (λ a. IfRefused a IsRefusal) }
{
    match answer {
        Ok(add) => Ok(Answer::Done(add)),
        Err(BeginFault::Stopped { fault }) => Ok(Answer::Refused(Reply::Stopped { fault })),
        Err(BeginFault::Exists) => Ok(Answer::Refused(Reply::Exists)),
        Err(BeginFault::Leaving { handles }) => Ok(Answer::Refused(Reply::Leaving { handles })),
        Err(BeginFault::InFlight) => Ok(Answer::Refused(Reply::InFlight)),
        Err(BeginFault::NoSpace { need, room }) => {
            Ok(Answer::Refused(Reply::NoSpace { need, room }))
        }
        Err(BeginFault::NoMemory) => Err(AllocError),
    }
}

/// What an admit is to a session.
pub(crate) fn admit_answer(
    answer: Result<Admitted, AdmitFault>,
) -> Result<Answer<Admitted>, (Begun, Claimed)>
    ensures reply { answer_reply (λ x. AdmittedReply) result ≡ admit_reply answer }
    ensures done { IfOk result (λ a. IfDone a (λ x. answer ≡ Ok x)) }
    ensures refused { IfOk result (λ a. IfRefused a IsRefusal) }
    ensures back { IfErr result (λ r. answer ≡ Err (admitting.NoMemory r.0 r.1)) }
{
    match answer {
        Ok(add) => Ok(Answer::Done(add)),
        Err(AdmitFault::Stopped { fault }) => Ok(Answer::Refused(Reply::Stopped { fault })),
        Err(AdmitFault::NoMemory(add, claimed)) => Err((add, claimed)),
        Err(AdmitFault::NoNodes { need, free }) => {
            Ok(Answer::Refused(Reply::NoNodes { need, free }))
        }
    }
}

/// What a put is to a session.
pub(crate) fn put_answer(answer: Result<(), PutFault>) -> Outcome
    ensures value { result ≡ put_outcome answer }
    ensures refused { IfRefuses result IsRefusal }
{
    match answer {
        Ok(()) => Outcome::Done,
        Err(PutFault::Stopped { fault }) => Outcome::Refused(Reply::Stopped { fault }),
        Err(PutFault::DeviceFault { fault }) => Outcome::Refused(Reply::DeviceFault { fault }),
    }
}

/// What a settle is to a session.
pub(crate) fn settle_answer(answer: Result<(), SettleFault>) -> Result<Outcome, Admitted>
    ensures reply { outcome_reply Published result ≡ settle_reply answer }
    ensures refused { IfOk result (λ a. IfRefuses a IsRefusal) }
    ensures back { IfErr result (λ add. answer ≡ Err (settling.NoMemory add)) }
{
    match answer {
        Ok(()) => Ok(Outcome::Done),
        Err(SettleFault::Stopped { fault }) => Ok(Outcome::Refused(Reply::Stopped { fault })),
        Err(SettleFault::NumberEnd) => Ok(Outcome::Refused(Reply::NumberEnd)),
        Err(SettleFault::NoMemory(add)) => Err(add),
        Err(SettleFault::DeviceFault { fault }) => {
            Ok(Outcome::Refused(Reply::DeviceFault { fault }))
        }
    }
}

/// What an unlink is to a session.
pub(crate) fn unlink_outcome(answer: Result<(), UnlinkFault>) -> Result<Outcome, AllocError>
    ensures reply { outcome_reply Unlinked result ≡ A.unlink_reply answer }
    ensures refused { IfOk result (λ a. IfRefuses a IsRefusal) }
{
    match answer {
        Ok(()) => Ok(Outcome::Done),
        Err(UnlinkFault::Stopped { fault }) => Ok(Outcome::Refused(Reply::Stopped { fault })),
        Err(UnlinkFault::NotFound) => Ok(Outcome::Refused(Reply::NotFound)),
        Err(UnlinkFault::NoMemory) => Err(AllocError),
    }
}

/// What a sync is to a session.
pub(crate) fn sync_outcome(answer: Result<(), SyncFault>) -> Result<Outcome, AllocError>
    ensures reply { outcome_reply Synced result ≡ sync_reply answer }
    ensures refused { IfOk result (λ a. IfRefuses a IsRefusal) }
{
    match answer {
        Ok(()) => Ok(Outcome::Done),
        Err(SyncFault::Stopped { fault }) => Ok(Outcome::Refused(Reply::Stopped { fault })),
        Err(SyncFault::NumberEnd) => Ok(Outcome::Refused(Reply::NumberEnd)),
        Err(SyncFault::NoMemory) => Err(AllocError),
        Err(SyncFault::DeviceFault { fault }) => {
            Ok(Outcome::Refused(Reply::DeviceFault { fault }))
        }
    }
}

/// What a close is to a session.
pub(crate) fn close_outcome(answer: Result<(), BadSlot>) -> Result<Outcome, AllocError>
    ensures reply { outcome_reply Closed result ≡ Some (A.close_reply answer) }
    ensures refused { IfOk result (λ a. IfRefuses a IsRefusal) }
{
    match answer {
        Ok(()) => Ok(Outcome::Done),
        Err(BadSlot) => Ok(Outcome::Refused(Reply::BadSlot)),
    }
}

/// What an open is to a session: the blob's size, and its pages where they were kept.
pub(crate) fn open_answer(
    kept: &mut Kept,
    root: Digest,
    answer: Result<u64, OpenFault>,
) -> Result<Answer<(u64, Option<Reader>)>, AllocError>
    ensures reply { answer_reply (λ x. Opened x.0) result ≡ A.open_reply answer }
    ensures pages { IfOk result (λ a. IfDone a (λ x.
        IfSome x.1 (λ p. (p.root ≡ root) × (p.size ≡ x.0)))) }
    ensures found { IfOk result (λ a. IfDone a (λ x. (answer ≡ Ok x.0)
        × IfSome x.1 (λ p. lookup (is_root root) kept.old ≡ Some p))) }
    ensures kept { (kept.new ≡ kept.old) ⊎ (kept.new ≡ remove_entry (is_root root) kept.old) }
    ensures refused { IfOk result (λ a. IfRefused a IsRefusal) }
{
    match answer {
        Ok(size) => Ok(Answer::Done((size, pages_of(kept, root, size)))),
        Err(OpenFault::NotFound) => Ok(Answer::Refused(Reply::NotFound)),
        Err(OpenFault::SlotTaken) => Ok(Answer::Refused(Reply::SlotTaken)),
        Err(OpenFault::NoMemory) => Err(AllocError),
    }
}

/// What is looked at, by the act of a read or a scan.
pub(crate) fn look_of(act: Act, slot: u32) -> Look
    requires { IsLook act slot }
    ensures { A.look_act slot result ≡ act }
{
    match act {
        Act::Read { slot: _, off, len } => Look::Read { off, len },
        _ => Look::Scan,
    }
}

/// What a look is to a session: the root and size of the blob that the slot holds.
pub(crate) fn look_answer(
    answer: Result<Digest, BadSlot>,
    blob: Option<(Digest, u64)>,
) -> Answer<(Digest, u64)>
    requires { IfOk answer (λ root. IsSomeAnd blob (λ p. p.0 ≡ root)) }
    ensures reply { reply_by (λ x. Reading) result ≡ A.look_reply answer }
    ensures refused { IfRefused result IsRefusal }
    ensures done { IfDone result (λ x. blob ≡ Some x) }
{
    match answer {
        Err(BadSlot) => Answer::Refused(Reply::BadSlot),
        Ok(root) => match blob {
            Some(named) => Answer::Done(named),
            None => Answer::Refused(Reply::BadSlot),
        },
    }
}

/// What a fetch is to a session whose slot holds a blob.
pub(crate) fn fetch_answer(
    answer: Result<RawWindow, FetchFault>,
) -> Result<Answer<RawWindow>, AllocError>
    requires { ¬ (answer ≡ Err fetching.BadSlot) }
    ensures reply { answer_reply (λ x. Fetched) result ≡ fetch_reply answer }
    ensures done { IfOk result (λ a. IfDone a (λ x. answer ≡ Ok x)) }
    ensures refused { IfOk result (λ a. IfRefused a IsReadFault) }
{
    match answer {
        Ok(window) => Ok(Answer::Done(window)),
        Err(FetchFault::NoMemory) => Err(AllocError),
        Err(FetchFault::ReadFault { fault }) => Ok(Answer::Refused(Reply::ReadFault { fault })),
        // the slot holds a blob
        Err(FetchFault::BadSlot) => Err(AllocError),
    }
}
