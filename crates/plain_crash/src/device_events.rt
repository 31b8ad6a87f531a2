//! What stands at a place in the list of a device's events, counted from 1.

ghost use Rattle.std.specs.Prelude.{◌↔◌, IsTrue, IsSomeAnd};
ghost use Rattle.spec_crash.specs.Timing as T;

use spec_disk::Event;

fn is_ok_write(event: &Event) -> bool
    ensures { IsTrue result ↔ T.IsOkWrite event.now }
{
    matches!(event, Event::Write { ok: true, .. })
}

fn is_ok_sync(event: &Event) -> bool
    ensures { IsTrue result ↔ T.IsOkSync event.now }
{
    matches!(event, Event::Sync { ok: true })
}

/// Whether a write that succeeded stands at this place.
pub(crate) fn is_ok_write_at(events: &[Event], place: u64) -> bool
    ensures { IsTrue result ↔ IsSomeAnd (T.event_at events.now place) T.IsOkWrite }
{
    if place == 0 || place > events.len() as u64 {
        return false;
    }
    is_ok_write(&events[place as usize - 1])
}

/// Whether a sync that succeeded stands at this place.
pub(crate) fn is_ok_sync_at(events: &[Event], place: u64) -> bool
    ensures { IsTrue result ↔ IsSomeAnd (T.event_at events.now place) T.IsOkSync }
{
    if place == 0 || place > events.len() as u64 {
        return false;
    }
    is_ok_sync(&events[place as usize - 1])
}
