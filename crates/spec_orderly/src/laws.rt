//! Laws of the definitions: what each function here ensures holds of all values.

ghost use Rattle.spec_orderly.specs.Left.{NoAddIsLeft};
ghost use Rattle.spec_orderly.specs.Named.{ConformingTellRoots};
ghost use Rattle.spec_orderly.specs.Orderly.{AddsAreApart, OwnAddsAreUnderWay};
ghost use Rattle.spec_orderly.specs.Slots.{OwnSlotsAreHeld, SlotsHoldTheirOwn};

/// The add that a session has under way by its own events is under way in the core, with its size.
pub fn an_own_add_is_under_way()
    ensures { OwnAddsAreUnderWay }
{}

/// No two sessions have an add of one root under way.
pub fn adds_of_two_sessions_have_two_roots()
    ensures { AddsAreApart }
{}

/// Where each session did its lines, the history names the root of each line that has one.
pub fn conforming_sessions_tell_the_roots()
    ensures { ConformingTellRoots }
{}

/// A root that a slot holds is in the map, and by its own events the session holds it there.
pub fn slots_hold_what_their_sessions_opened()
    ensures { SlotsHoldTheirOwn }
{}

/// Before an unmount, a root that a slot holds by its session's own events is held there in the core.
pub fn own_slots_are_held()
    ensures { OwnSlotsAreHeld }
{}

/// Where each session's lines ended, no add is under way.
pub fn no_add_is_left()
    ensures { NoAddIsLeft }
{}
