//! The lines that are one event.
ghost use Rattle.std.specs.Prelude.{◌≡◌, IfSome};
ghost use Rattle.spec_core.specs.declared.act.Act.TheVariants.{Close, Unlink, Sync, List as ListAll};
ghost use Rattle.bv_session.specs.Pages.{ReaderKnows};
ghost use Rattle.bv_session.specs.Sessions.{own, IsFor, Stays, DoesOne};

use crate::reply::result_of;
use crate::serves::{Outcome, Serves};
use crate::{LineResult, steps};
use bv_pager::Reader;
use bv_turn::{Share, Turn};
use spec_core::Who;
use spec_tree::Digest;
use std::alloc::{AllocError, Global};
use std::sync::Wait;

/// A sync line.
pub fn sync<R: Wait, T: Serves>(
    rt: &R,
    alloc: Global,
    turn: &Turn<T>,
    share: &mut Share<T>,
    who: Who,
) -> Result<LineResult, AllocError>
    requires ready { IsFor turn.now who share.old }
    ensures stays { Stays turn.now share.old share.new }
    ensures line { DoesOne who Sync result (own share.old) (own share.new) }
{
    let outcome = match steps::sync(rt, turn, share, who, alloc) {
        Ok(outcome) => outcome,
        Err(error) => return Err(error),
    };
    match outcome {
        Outcome::Refused(reply) => Ok(result_of(reply)),
        Outcome::Done => Ok(LineResult::Synced),
    }
}

/// An unlink line.
pub fn unlink<R: Wait, T: Serves>(
    rt: &R,
    alloc: Global,
    turn: &Turn<T>,
    share: &mut Share<T>,
    who: Who,
    root: Digest,
) -> Result<LineResult, AllocError>
    requires ready { IsFor turn.now who share.old }
    ensures stays { Stays turn.now share.old share.new }
    ensures line { DoesOne who (Unlink root) result (own share.old) (own share.new) }
{
    let outcome = match steps::unlink(rt, turn, share, who, alloc, root) {
        Ok(outcome) => outcome,
        Err(error) => return Err(error),
    };
    match outcome {
        Outcome::Refused(reply) => Ok(result_of(reply)),
        Outcome::Done => Ok(LineResult::Unlinked),
    }
}

/// A close line, which hands the slot's pages on.
pub fn close<R: Wait, T: Serves>(
    rt: &R,
    alloc: Global,
    turn: &Turn<T>,
    share: &mut Share<T>,
    who: Who,
    slot: u32,
    pages: Option<Reader>,
) -> Result<LineResult, AllocError>
    requires ready { IsFor turn.now who share.old }
    requires pages { IfSome pages (λ r. ReaderKnows slot share.old r) }
    ensures stays { Stays turn.now share.old share.new }
    ensures line { DoesOne who (Close slot) result (own share.old) (own share.new) }
{
    let outcome = match steps::close(rt, turn, share, who, alloc, slot, pages) {
        Ok(outcome) => outcome,
        Err(error) => return Err(error),
    };
    match outcome {
        Outcome::Refused(reply) => Ok(result_of(reply)),
        Outcome::Done => Ok(LineResult::Closed),
    }
}

/// A list line.
pub fn list<R: Wait, T: Serves>(
    rt: &R,
    alloc: Global,
    turn: &Turn<T>,
    share: &mut Share<T>,
    who: Who,
) -> Result<LineResult, AllocError>
    requires ready { IsFor turn.now who share.old }
    ensures stays { Stays turn.now share.old share.new }
    ensures line { DoesOne who ListAll result (own share.old) (own share.new) }
{
    match steps::list(rt, turn, share, who, alloc) {
        Ok(blobs) => Ok(LineResult::Listed(blobs)),
        Err(error) => Err(error),
    }
}
