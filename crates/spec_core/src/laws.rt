//! Laws of the core: what each function here ensures holds of all states and histories.

ghost use Rattle.spec_core.specs.Laws.{OneNewState, OneReply, SomeReply, NoNodesIsPastWorst, RoomIsBounded, WorstSumIsPassed, NumbersAreApart, LogMakesMap, HeldRootsStay, UnlinkedRootsLeave, LeavingRootsAreHeld, UnlinkedRootsStay, QueueIsPurged, SlotsStay};
ghost use Rattle.spec_core.specs.SyncedLaws.{SyncedIsDurable, SyncedIsLogged};

/// With the reply given, an event leads to one new state.
pub fn a_reply_fixes_the_new_state()
    ensures { OneNewState }
{}

/// Only an admit before any write or sync has failed, and a device that may fail, leave the reply
/// open.
pub fn only_admit_and_the_device_are_free()
    ensures { OneReply }
{}

/// Every event that may come has a reply.
pub fn some_reply_is_a_step()
    ensures { SomeReply }
{}

/// An admit is refused for want of nodes only where the most nodes of the map's blobs and of all adds
/// are more than there are.
pub fn no_nodes_comes_only_past_the_worst_case()
    ensures { NoNodesIsPastWorst }
{}

/// The room is between 0 and all blocks but one.
pub fn the_room_is_bounded()
    ensures { RoomIsBounded }
{}

/// After a history an admit is refused for want of nodes only where the worst sum is more than the
/// nodes.
pub fn no_nodes_follows_a_history_only_past_its_worst_sum()
    ensures { WorstSumIsPassed }
{}

/// With the replies given, the numbers of entries change nothing else of the state.
pub fn numbers_of_entries_are_apart()
    ensures { NumbersAreApart }
{}

/// The map is the opening changed by the log, until a write or sync fails.
pub fn the_log_makes_the_map()
    ensures { LogMakesMap }
{}

/// An unlinked blob stays in the map while a slot holds it.
pub fn held_roots_stay_in_the_map()
    ensures { HeldRootsStay }
{}

/// A root that an event has unlinked leaves or is queued.
pub fn unlinked_roots_leave_or_are_queued()
    ensures { UnlinkedRootsLeave }
{}

/// A root leaves only while some slot holds it.
pub fn leaving_roots_are_held()
    ensures { LeavingRootsAreHeld }
{}

/// A root is queued or leaves at most once, and only while it is in the map.
pub fn unlinked_roots_stay_in_the_map()
    ensures { UnlinkedRootsStay }
{}

/// A flush purges each root of the queue.
pub fn each_queued_root_is_purged()
    ensures { QueueIsPurged }
{}

/// A slot holds its root until a close or the unmount.
pub fn slots_keep_their_roots()
    ensures { SlotsStay }
{}

/// Once the calls of all events are made, what is synced is what is durable.
pub fn what_is_synced_is_durable()
    ensures { SyncedIsDurable }
{}

/// What is durable after so many calls was logged by then, where each sync makes a call of its own,
/// or each event that logs does.
pub fn what_is_synced_was_logged()
    ensures { SyncedIsLogged }
{}
