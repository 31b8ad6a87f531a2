//! Windows of an open blob that a session comes to know.

ghost use Rattle.std.specs.Prelude.{◌≡◌, ℕ, ◌<◌, ◌≤◌, Some, OnOk, OnErr, IfOk, IsSome};
ghost use Rattle.spec_tree.specs.Tree.{windows_of};
ghost use Rattle.spec_session.specs.Own.{add_of, slot_holds};
ghost use Rattle.bv_pager.specs.Reading.{FitsIn, known_at};
ghost use Rattle.bv_session.specs.Sessions.{own, IsFor, Stays};
ghost use Rattle.bv_session.specs.Pages.{ReaderKnows};
ghost use Rattle.bv_session.specs.Shown.{EndsAt, EndsWithin};
ghost use Rattle.bv_session.specs.Windows.{KeepsKnown, Finds, FindsRange, Loads, Made};

use crate::reply::result_of;
use crate::serves::{Answer, Serves};
use crate::{LineResult, steps};
use bv_io::Gate;
use bv_merkle::windows;
use bv_pager::{LoadFault, Reader};
use bv_proof::RawWindow;
use bv_turn::{Share, Turn};
use spec_core::Who;
use std::alloc::{AllocError, Global};
use std::sync::Wait;

/// Has a reader of the slot's blob know a window: it is fetched and verified where the reader doesn't
/// know it. Gives the line's result where that fails.
pub(crate) fn know_window<R: Wait, T: Serves, G: Gate>(
    rt: &R,
    alloc: Global,
    turn: &Turn<T>,
    share: &mut Share<T>,
    who: Who,
    slot: u32,
    reader: &mut Reader,
    window: u64,
    gate: &G,
) -> Result<Option<LineResult>, AllocError>
    requires ready { IsFor turn.now who share.old }
    requires holds { slot_holds slot (own share.old) ≡ Some (reader.old.root, reader.old.size) }
    requires pages { ReaderKnows slot share.old reader.old }
    requires window { window < windows_of reader.old.size }
    ensures stays { Stays turn.now share.old share.new }
    ensures holds { slot_holds slot (own share.new) ≡ slot_holds slot (own share.old) }
    ensures idle { add_of (own share.new) ≡ add_of (own share.old) }
    ensures keeps { KeepsKnown reader.old reader.new }
    ensures finds { Finds who slot window reader.new result (own share.old) (own share.new) }
    ensures pages { ReaderKnows slot share.new reader.new }
    ensures shows { EndsAt slot share.new reader.new window result }
{
    if reader.hit(window).is_some() {
        return Ok(None);
    }
    let answer = match steps::fetch(rt, turn, share, who, alloc, slot, window) {
        Ok(answer) => answer,
        Err(error) => return Err(error),
    };
    match answer {
        Answer::Refused(reply) => Ok(Some(result_of(reply))),
        Answer::Done(raw) => {
            gate.work(who.session, who.line);
            load(alloc, reader, raw)
        }
    }
}

/// Has a reader of the slot's blob know all windows from one on and before another, in their order.
/// Gives the line's result where that fails.
pub(crate) fn know_range<R: Wait, T: Serves, G: Gate>(
    rt: &R,
    alloc: Global,
    turn: &Turn<T>,
    share: &mut Share<T>,
    who: Who,
    slot: u32,
    reader: &mut Reader,
    first: u64,
    past: u64,
    gate: &G,
) -> Result<Option<LineResult>, AllocError>
    requires ready { IsFor turn.now who share.old }
    requires holds { slot_holds slot (own share.old) ≡ Some (reader.old.root, reader.old.size) }
    requires pages { ReaderKnows slot share.old reader.old }
    requires order { first ≤ past }
    requires past { past ≤ windows_of reader.old.size }
    ensures stays { Stays turn.now share.old share.new }
    ensures idle { add_of (own share.new) ≡ add_of (own share.old) }
    ensures keeps { KeepsKnown reader.old reader.new }
    ensures finds { FindsRange who slot first past reader.new result
        (own share.old) (own share.new) }
    ensures pages { ReaderKnows slot share.new reader.new }
    ensures shows { EndsWithin slot share.new reader.new first past result }
{
    for window in first..past {
        let found = match know_window(rt, alloc, turn, share, who, slot, reader, window, gate) {
            Ok(found) => found,
            Err(error) => return Err(error),
        };
        match found {
            Some(result) => return Ok(Some(result)),
            None => (),
        }
    }
    Ok(None)
}

// Takes a window into what a reader knows, or gives the result of a line that finds a mismatch.
fn load(
    alloc: Global,
    reader: &mut Reader,
    raw: RawWindow,
) -> Result<Option<LineResult>, AllocError>
    requires { FitsIn reader.old.size raw }
    ensures keeps { KeepsKnown reader.old reader.new }
    ensures loads { Loads raw.window reader.new result }
    ensures made { Made reader.old raw reader.new result }
{
    let size = reader.size();
    prove!(raw.window < windows(size));
    let fault = match reader.load(alloc, raw) {
        Ok(()) => return Ok(None),
        Err(fault) => fault,
    };
    match fault {
        LoadFault::Mismatch(mismatch) => Ok(Some(LineResult::Mismatch(mismatch))),
        LoadFault::NoMemory => Err(AllocError),
    }
}
