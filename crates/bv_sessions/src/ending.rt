//! The end of a run: the program's unmount.
ghost use Rattle.std.specs.Prelude.{◌≡◌, ◌≤◌, [], true, false, is_some};
ghost use Rattle.spec_core.specs.History.{last_state};
ghost use Rattle.bv_volume.specs.Answers.{unmount_reply};
ghost use Rattle.bv_sessions.specs.Closes as C;
ghost use Rattle.bv_sessions.specs.Closes.{Closes, GivesUp, Unmounts};

use crate::ran::Ran;
use bv_store::Store;
use bv_volume::{UnmountFault, Volume};
use spec_core::Who;
use spec_session::SessionEnd;
use std::alloc::Global;

/// Who unmounts: the program itself.
const PROGRAM: Who = Who {
    session: 16,
    line: 0,
};

/// The room for the unmount's event.
const ONE: u64 = 1;

/// Whether no session ended for want of memory.
fn are_whole(ends: &[SessionEnd]) -> bool
    ensures { result ≡ C.are_whole ends.now }
{
    ends.iter().all(|end| !end.memory)
}

/// Whether an unmount has an event.
fn has_event(answer: &Result<(), UnmountFault>) -> bool
    ensures { result ≡ is_some (unmount_reply answer.now) }
{
    match answer {
        Ok(()) => true,
        Err(UnmountFault::NoMemory) => false,
        Err(UnmountFault::Stopped { .. }) => true,
        Err(UnmountFault::NumberEnd) => true,
        Err(UnmountFault::DeviceFault { .. }) => true,
    }
}

/// Gives a volume up as it is.
pub(crate) fn give_up<S: Store>(volume: Volume<'_, S>, ends: Vec<SessionEnd>) -> Ran<S>
    ensures ends { result.ends.items ≡ ends.items }
    ensures whole { result.whole ≡ false }
    ensures gives { GivesUp volume.entry result.history.history (S.seen result.store) }
{
    // A volume's history is legal, and the theorem of stops holds of it: this call says so.
    let _history = volume.history();
    let (history, store) = volume.give_up();
    Ran {
        history,
        ends,
        whole: false,
        store,
    }
}

/// Unmounts a volume. Without memory for that it is given up as it is.
fn unmount<S: Store>(alloc: Global, volume: Volume<'_, S>, ends: Vec<SessionEnd>) -> Ran<S>
    requires room { 1 ≤ volume.spare }
    requires none { (last_state volume.history volume.next).adds ≡ [] }
    ensures ends { result.ends.items ≡ ends.items }
    ensures gives { result.whole ≡ false
        → GivesUp volume.entry result.history.history (S.seen result.store) }
    ensures unmounts { result.whole ≡ true
        → Unmounts volume.entry result.history.history (S.seen result.store) }
{
    let _history = volume.history();
    let (history, store, answer) = volume.unmount(alloc, PROGRAM);
    Ran {
        history,
        ends,
        whole: has_event(&answer),
        store,
    }
}

/// Unmounts a volume whose sessions all did their lines, and gives it up where one did not.
pub(crate) fn close<S: Store>(
    alloc: Global,
    mut volume: Volume<'_, S>,
    ends: Vec<SessionEnd>,
) -> Ran<S>
    requires none { (last_state volume.history volume.next).adds ≡ [] }
    ensures ends { result.ends.items ≡ ends.items }
    ensures closes { Closes volume.entry ends.items result.history.history result.whole
        (S.seen result.store) }
{
    if !are_whole(&ends) {
        return give_up(volume, ends);
    }
    if volume.reserve(alloc, ONE).is_err() {
        return give_up(volume, ends);
    }
    unmount(alloc, volume, ends)
}
