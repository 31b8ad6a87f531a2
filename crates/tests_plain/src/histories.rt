//! Histories, and what the calls that go over them say, against numbers worked out by hand.

use bv_model::{History, logged_by, room_of, synced_by};
use plain_core::{is_caused, is_legal, logged_of};
use spec_core::{Act, CoreEvent, MapChange, Reply, Setting, Who};
use spec_tree::{Blob, Digest};
use std::alloc::{AllocError, Global};
use std::process::Abort;
use std::test::Fail;

const A: Digest = Digest([1; 32]);

const B: Digest = Digest([2; 32]);

const C: Digest = Digest([3; 32]);

const D: Digest = Digest([4; 32]);

/// A block, in bytes.
const BLOCK: u64 = 8192;

/// An event of session 0, noted after so many calls of the device.
fn note(
    alloc: Global,
    history: &mut History,
    act: Act,
    reply: Reply,
    calls: u64,
) -> Result<(), AllocError> {
    let who = Who {
        session: 0,
        line: 1,
    };
    history.reserve(alloc, 1)?;
    history.note(CoreEvent {
        who,
        act,
        reply,
        calls,
    });
    Ok(())
}

/// A blob is unlinked while it is open, then closed between two syncs; the third sync, which has
/// another blob to purge, fails. Each event with the calls after it.
const PURGE: [(Act, Reply, u64); 8] = [
    (
        Act::Open { slot: 0, root: A },
        Reply::Opened { size: BLOCK },
        0,
    ),
    (Act::Unlink { root: A }, Reply::Unlinked, 0),
    (Act::Sync, Reply::Synced, 2),
    (Act::Close { slot: 0 }, Reply::Closed, 2),
    (Act::Sync, Reply::Synced, 4),
    (Act::Unlink { root: B }, Reply::Unlinked, 4),
    (Act::Sync, Reply::DeviceFault { fault: 9 }, 5),
    (Act::Unmount, Reply::Stopped { fault: 9 }, 5),
];

/// A history of these events, over two blobs of a block.
fn history_over(
    alloc: Global,
    roots: [Digest; 2],
    events: &[(Act, Reply, u64)],
) -> Result<History, AllocError> {
    let setting = Setting {
        blocks: 16,
        nodes: 4,
        version: 1,
    };
    let mut opening = Vec::new(alloc);
    opening.push((roots[0], BLOCK, 1))?;
    opening.push((roots[1], BLOCK, 1))?;
    let mut history = History::new(alloc, setting, opening);
    for (act, reply, calls) in events {
        note(alloc, &mut history, *act, *reply, *calls)?;
    }
    Ok(history)
}

#[test]
fn a_purge_is_durable_from_its_sync_on_and_logged_from_the_calls_past_the_event_before(
    rt: HostRuntime,
) -> Result<(), Fail> {
    let history = history_over(rt.alloc(), [A, B], &PURGE)?;
    assert!(rt; is_legal(rt.alloc(), &history, 1)?);
    // calls, with how much is synced and logged by them
    let rows = [
        (0, 0, 0),
        (2, 0, 0),
        (3, 0, 1),
        (4, 1, 1),
        (5, 1, 2),
        (9, 1, 2),
    ];
    for (calls, synced, logged) in rows {
        assert_eq!(rt; synced_by(&history, calls), synced, "{calls}");
        assert_eq!(rt; logged_by(&history, calls), logged, "{calls}");
    }
    let log = logged_of(rt.alloc(), &history)?;
    let blob = Blob {
        size: BLOCK,
        version: 1,
    };
    let purges = [
        MapChange::Purge { root: A, blob },
        MapChange::Purge { root: B, blob },
    ];
    assert_eq!(rt; log.changes.as_slice(), purges.as_slice());
    assert_eq!(rt; log.lengths.as_slice(), [0, 0, 0, 0, 1, 1, 2, 2].as_slice());
    Ok(())
}

#[test]
fn a_history_with_one_thing_changed_is_not_legal(rt: HostRuntime) -> Result<(), Fail> {
    // the place of an event, and the event that stands there in place of its own
    let rows = [
        (3, (Act::Close { slot: 0 }, Reply::Closed, 2), true, "none"),
        (
            3,
            (Act::Close { slot: 0 }, Reply::BadSlot, 2),
            false,
            "a reply that no row has",
        ),
        (
            3,
            (Act::Close { slot: 0 }, Reply::Closed, 1),
            false,
            "calls that fall",
        ),
        (
            3,
            (Act::Close { slot: 0 }, Reply::Closed, 3),
            true,
            "calls that rise",
        ),
    ];
    for (place, event, wanted, what) in rows {
        let mut events = PURGE;
        events[place] = event;
        let history = history_over(rt.alloc(), [A, B], &events)?;
        assert_eq!(rt; is_legal(rt.alloc(), &history, 1)?, wanted, "{what}");
    }
    for (roots, wanted) in [([A, B], true), ([B, A], false), ([A, A], false)] {
        let history = history_over(rt.alloc(), roots, &PURGE)?;
        assert_eq!(rt; is_legal(rt.alloc(), &history, 1)?, wanted, "{roots:?}");
    }
    Ok(())
}

#[test]
fn numbers_and_counts_of_faults_have_to_suffice(rt: HostRuntime) -> Result<(), Fail> {
    let history = history_over(rt.alloc(), [A, B], &PURGE)?;
    // the second sync writes an entry, and the third tries to
    for (left, wanted) in [(2, true), (1, false), (0, false)] {
        assert_eq!(rt;
            is_legal(rt.alloc(), &history, (1 << 62) - left)?,
            wanted,
            "{left}"
        );
    }
    for (first, last, wanted) in [(8, 9, true), (9, 9, false), (8, 8, false), (0, 12, true)] {
        assert_eq!(rt;
            is_caused(&history, first, last),
            wanted,
            "{first} to {last}"
        );
    }
    Ok(())
}

/// The size of a blob of 257 blocks of data. Its tree has 3 blocks in version 1, for 257 digests
/// and for 2, and 2 in version 2, for 259 digests joined.
const LARGE: u64 = 257 * BLOCK;

/// The events of a volume of 779 blocks, and the room after each.
const ROOMS: [(Act, Reply, u64); 17] = [
    (
        Act::Begin {
            root: C,
            size: LARGE,
        },
        Reply::Granted,
        0,
    ),
    (
        Act::Begin {
            root: D,
            size: BLOCK + 1,
        },
        Reply::NoSpace { need: 3, room: 0 },
        0,
    ),
    (
        Act::Admit { root: C },
        Reply::NoNodes { need: 44, free: 43 },
        259,
    ),
    (
        Act::Begin {
            root: C,
            size: LARGE,
        },
        Reply::Granted,
        0,
    ),
    (Act::Admit { root: C }, Reply::Admitted, 0),
    (Act::Settle { root: C }, Reply::Published, 0),
    (
        Act::Open { slot: 0, root: A },
        Reply::Opened { size: LARGE },
        0,
    ),
    (Act::Unlink { root: A }, Reply::Unlinked, 0),
    (Act::Unlink { root: B }, Reply::Unlinked, 0),
    (Act::Sync, Reply::Synced, 259),
    (Act::Close { slot: 0 }, Reply::Closed, 259),
    (Act::Begin { root: D, size: 1 }, Reply::Granted, 258),
    (Act::Retire { root: C }, Reply::Retired, 258),
    (Act::Settle { root: D }, Reply::Published, 258),
    (Act::Unlink { root: C }, Reply::Unlinked, 258),
    (Act::Sync, Reply::DeviceFault { fault: 7 }, 0),
    (Act::Unmount, Reply::Stopped { fault: 7 }, 0),
];

/// A history with a blob of each version, before any event.
fn history_of_two(alloc: Global) -> Result<History, AllocError> {
    let setting = Setting {
        blocks: 779,
        nodes: 132,
        version: 2,
    };
    let mut opening = Vec::new(alloc);
    opening.push((A, LARGE, 1))?;
    opening.push((B, LARGE, 2))?;
    Ok(History::new(alloc, setting, opening))
}

#[test]
fn the_room_counts_blobs_adds_and_purges_that_are_not_durable(rt: HostRuntime) -> Result<(), Fail> {
    let alloc = rt.alloc();
    let mut history = history_of_two(alloc)?;
    assert!(rt; is_legal(rt.alloc(), &history, 1)?);
    assert_eq!(rt; room_of(&history), 259);
    for (i, (act, reply, room)) in ROOMS.iter().enumerate() {
        note(alloc, &mut history, *act, *reply, 0)?;
        assert!(rt; is_legal(rt.alloc(), &history, 1)?, "event {i}");
        assert_eq!(rt; room_of(&history), *room, "event {i}");
    }
    Ok(())
}
