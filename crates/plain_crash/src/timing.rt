//! The four sentences by which a device's events time a history.

ghost use Rattle.std.specs.Prelude.{◌≡◌, ◌+◌, ◌↔◌, IsTrue, IsSomeAnd, All, length};
ghost use Rattle.spec_core.specs.History.{FromEachToNext};
ghost use Rattle.spec_core.specs.Synced as Y;
ghost use Rattle.spec_crash.specs.Timing as T;

use crate::device_events::{is_ok_sync_at, is_ok_write_at};
use crate::history_events::{
    is_written, raises_one_where_written, rises_where_durable, rises_where_it_may, tells_durable,
};
use bv_model::History;
use spec_core::CoreEvent;
use spec_disk::Event;

/// Whether calls rises only in events that may write and sync.
fn rises_in_calls(h: &History) -> bool
    ensures { IsTrue result ↔ T.RisesInCalls h.now.history }
{
    let events = h.events();
    for i in 1..events.len() {
        if !rises_where_it_may(&events[i - 1], &events[i]) {
            return false;
        }
    }
    true
}

/// Whether each put that replied `written` raises calls by one.
fn puts_raise_by_one(events: &[CoreEvent]) -> bool
    ensures { IsTrue result
        ↔ FromEachToNext (λ old new. T.IsWritten new → new.calls ≡ old.calls + 1) events.now }
{
    for i in 1..events.len() {
        if !raises_one_where_written(&events[i - 1], &events[i]) {
            return false;
        }
    }
    true
}

/// Whether each put that replied `written` ends at a write that succeeded.
fn puts_are_writes(events: &[Event], history: &[CoreEvent]) -> bool
    ensures { IsTrue result
        ↔ All (λ e. T.IsWritten e → IsSomeAnd (T.event_at events.now e.calls) T.IsOkWrite)
        history.now }
{
    for event in history {
        if is_written(event) && !is_ok_write_at(events, event.calls) {
            return false;
        }
    }
    true
}

/// Whether each put that replied `written` is one write, which succeeded.
fn puts_write(events: &[Event], h: &History) -> bool
    ensures { IsTrue result ↔ T.PutsWrite events.now h.now.history }
{
    puts_raise_by_one(h.events()) && puts_are_writes(events, h.events())
}

/// Whether each event that replied `synced` or `unmounted` raises calls.
fn syncs_raise(h: &History) -> bool
    ensures { IsTrue result ↔ Y.SyncsInCalls h.now.history }
{
    let events = h.events();
    for i in 1..events.len() {
        if !rises_where_durable(&events[i - 1], &events[i]) {
            return false;
        }
    }
    true
}

/// Whether each event that replied `synced` or `unmounted` ends at a sync that succeeded.
fn replies_are_syncs(events: &[Event], history: &[CoreEvent]) -> bool
    ensures { IsTrue result
        ↔ All (λ e. IsTrue (Y.tells_durable e.reply)
        → IsSomeAnd (T.event_at events.now e.calls) T.IsOkSync) history.now }
{
    for event in history {
        if tells_durable(event) && !is_ok_sync_at(events, event.calls) {
            return false;
        }
    }
    true
}

/// Whether each event that replied `synced` or `unmounted` ends with a sync of its own.
fn replies_sync(events: &[Event], h: &History) -> bool
    ensures { IsTrue result ↔ T.RepliesSync events.now h.now.history }
{
    syncs_raise(h) && replies_are_syncs(events, h.events())
}

/// Whether an event ends at the device's last.
fn is_at_last(events: &[Event], event: &CoreEvent) -> bool
    ensures { IsTrue result ↔ (event.now.calls ≡ length events.now) }
{
    event.calls == events.len() as u64
}

/// Whether the last event ends at the device's last.
fn ends_at_last(events: &[Event], h: &History) -> bool
    ensures { IsTrue result ↔ T.EndsAtLast events.now h.now.history }
{
    match h.events() {
        [.., last] => is_at_last(events, last),
        [] => true,
    }
}

/// Whether a history is timed by these events of the device: those since the mount began.
pub fn is_timed(events: &[Event], h: &History) -> bool
    ensures { IsTrue result ↔ T.IsTimed events.now h.now.history }
{
    rises_in_calls(h) && puts_write(events, h) && replies_sync(events, h) && ends_at_last(events, h)
}
