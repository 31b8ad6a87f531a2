//! An add line's events, by calls of a volume.

ghost use Rattle.std.specs.Prelude.{◌≡◌, ◌≤◌, [], None};
ghost use Rattle.spec_session.specs.Lines.{admits};
ghost use Rattle.spec_tree.specs.Tree.{need_of};
ghost use Rattle.bv_adder.specs.Goes.{Goes};
ghost use Rattle.bv_adder.specs.Steps.{HasClaimed, HasPuts};
ghost use Rattle.bv_session.specs.Adds.{AddEnds, all_put, begins};
ghost use Rattle.bv_volume.specs.Seen.{IsSafe};
ghost use Rattle.bv_volume.specs.Sessions.{own_add};
ghost use Rattle.bv_writer.specs.Blocks.{IsBlobOf};

use crate::answers::{begin_refused, put_refused};
use crate::putting::put_all;
use bv_claims::{Claimed, Claims};
use bv_session::LineResult;
use bv_store::Store;
use bv_volume::{AdmitFault, Admitted, Begun, SettleFault, Volume};
use bv_writer::Adding;
use spec_core::Who;
use std::alloc::{AllocError, Global};

/// The room for the events beside the puts: a begin, which takes room for the add's end too, an
/// admit and a settle.
const BESIDE_PUTS: u64 = 4;

/// Adds a blob that was planned, and answers as an add line does. After an `Err` the add is retired,
/// if it was begun; nothing is published.
pub fn add_whole<S: Store>(
    alloc: Global,
    volume: &mut Volume<'_, S>,
    claims: &Claims,
    who: Who,
    adding: &Adding,
) -> Result<LineResult, AllocError>
    requires table { volume.old.space.claims ≡ claims.now }
    requires version { volume.old.history.version ≡ adding.now.version }
    requires idle { own_add volume.old.history who.session ≡ None }
    requires need { need_of adding.now.version adding.now.size ≤ 65535 }
    requires blob { IsBlobOf adding.now.version adding.now.root adding.now.size adding.now.blocks }
    ensures goes { Goes volume.old volume.new }
    ensures line { AddEnds adding.now who [] result
        volume.old.history.events volume.new.history.events }
    ensures idle { own_add volume.new.history who.session ≡ None }
    ensures crash { IsSafe volume.new }
{
    match volume.reserve(alloc, adding.need() + BESIDE_PUTS) {
        Err(error) => return Err(error),
        Ok(()) => (),
    }
    match volume.begin(alloc, who, adding.root(), adding.size()) {
        Err(fault) => begin_refused(fault),
        Ok((begun, grant)) => {
            let claimed = claims.claim(grant);
            admit(alloc, volume, who, adding, begun, claimed)
        }
    }
}

/// Goes on once blocks are claimed.
fn admit<S: Store>(
    alloc: Global,
    volume: &mut Volume<'_, S>,
    who: Who,
    adding: &Adding,
    begun: Begun,
    claimed: Claimed,
) -> Result<LineResult, AllocError>
    requires claimed { HasClaimed adding.now who.session volume.old begun claimed }
    requires blob { IsBlobOf adding.now.version adding.now.root adding.now.size adding.now.blocks }
    ensures goes { Goes volume.old volume.new }
    ensures line { AddEnds adding.now who (begins adding.now) result
        volume.old.history.events volume.new.history.events }
    ensures idle { own_add volume.new.history who.session ≡ None }
    ensures crash { IsSafe volume.new }
{
    match volume.admit(alloc, who, begun, claimed) {
        Err(fault) => match fault {
            AdmitFault::NoMemory(begun, claimed) => {
                volume.retire_begun(who, begun, claimed);
                Err(AllocError)
            }
            AdmitFault::Stopped { fault } => Ok(LineResult::Stopped { fault }),
            AdmitFault::NoNodes { need, free } => Ok(LineResult::NoNodes { need, free }),
        },
        Ok(add) => put_and_settle(alloc, volume, who, adding, add),
    }
}

/// Goes on once the add is admitted.
fn put_and_settle<S: Store>(
    alloc: Global,
    volume: &mut Volume<'_, S>,
    who: Who,
    adding: &Adding,
    mut add: Admitted,
) -> Result<LineResult, AllocError>
    requires puts { HasPuts adding.now 0 who.session volume.old add }
    requires blob { IsBlobOf adding.now.version adding.now.root adding.now.size adding.now.blocks }
    ensures goes { Goes volume.old volume.new }
    ensures line { AddEnds adding.now who (admits adding.now.root adding.now.size) result
        volume.old.history.events volume.new.history.events }
    ensures idle { own_add volume.new.history who.session ≡ None }
    ensures crash { IsSafe volume.new }
{
    match put_all(volume, who, adding, &mut add) {
        Err(fault) => {
            volume.retire(who, add);
            Ok(put_refused(fault))
        }
        Ok(()) => settle(alloc, volume, who, adding, add),
    }
}

/// Goes on once all blocks are put.
fn settle<S: Store>(
    alloc: Global,
    volume: &mut Volume<'_, S>,
    who: Who,
    adding: &Adding,
    add: Admitted,
) -> Result<LineResult, AllocError>
    requires puts { HasPuts adding.now (need_of adding.now.version adding.now.size)
        who.session volume.old add }
    requires blob { IsBlobOf adding.now.version adding.now.root adding.now.size adding.now.blocks }
    ensures goes { Goes volume.old volume.new }
    ensures line { AddEnds adding.now who (all_put adding.now) result
        volume.old.history.events volume.new.history.events }
    ensures idle { own_add volume.new.history who.session ≡ None }
    ensures crash { IsSafe volume.new }
{
    match volume.settle(alloc, who, add) {
        Err(SettleFault::NoMemory(add)) => {
            volume.retire(who, add);
            Err(AllocError)
        }
        Err(SettleFault::Stopped { fault }) => Ok(LineResult::Stopped { fault }),
        Err(SettleFault::NumberEnd) => Ok(LineResult::NumberEnd),
        Err(SettleFault::DeviceFault { fault }) => Ok(LineResult::DeviceFault { fault }),
        Ok(()) => Ok(LineResult::Published),
    }
}
