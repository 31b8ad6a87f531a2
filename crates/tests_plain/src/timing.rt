//! A put, a settle and a sync with the calls of the device that they make, and with one thing
//! changed.

use bv_model::History;
use plain_crash::is_timed;
use spec_core::{Act, CoreEvent, Reply, Setting, Who};
use spec_disk::Event;
use spec_tree::Digest;
use std::alloc::{AllocError, Global};
use std::process::Abort;
use std::test::Fail;

/// One call of a device.
#[derive(Clone, Copy)]
enum Call {
    Write,
    FailedWrite,
    Sync,
    FailedSync,
}

use Call::{FailedSync, FailedWrite, Sync, Write};

const A: Digest = Digest([1; 32]);

/// A blob of a block is added, opened, read and made durable.
const EVENTS: [(Act, Reply); 7] = [
    (
        Act::Begin {
            root: A,
            size: 8192,
        },
        Reply::Granted,
    ),
    (Act::Admit { root: A }, Reply::Admitted),
    (Act::Put { index: 0 }, Reply::Written),
    (Act::Settle { root: A }, Reply::Published),
    (Act::Open { slot: 0, root: A }, Reply::Opened { size: 8192 }),
    (Act::Fetch { slot: 0, window: 0 }, Reply::Fetched),
    (Act::Sync, Reply::Synced),
];

/// The history of these events, with the calls after each.
fn history_of(alloc: Global, calls: [u64; 7]) -> Result<History, AllocError> {
    let setting = Setting {
        blocks: 16,
        nodes: 4,
        version: 1,
    };
    let who = Who {
        session: 0,
        line: 1,
    };
    let mut history = History::new(alloc, setting, Vec::new(alloc));
    for (i, (act, reply)) in EVENTS.iter().enumerate() {
        history.reserve(alloc, 1)?;
        history.note(CoreEvent {
            who,
            act: *act,
            reply: *reply,
            calls: calls[i],
        });
    }
    Ok(history)
}

/// A write to one block.
fn write(ok: bool) -> Event {
    Event::Write {
        at: 9,
        bytes: [0; 8192],
        ok,
    }
}

/// The event that a call leaves.
fn event_of(call: Call) -> Event {
    match call {
        Call::Write => write(true),
        Call::FailedWrite => write(false),
        Call::Sync => Event::Sync { ok: true },
        Call::FailedSync => Event::Sync { ok: false },
    }
}

/// The events that these calls leave.
fn events_of(alloc: Global, calls: &[Call]) -> Result<Vec<Event>, AllocError> {
    let mut events = Vec::new(alloc);
    for call in calls {
        events.push(event_of(*call))?;
    }
    Ok(events)
}

/// What the device did: a sync while the mount began, the put's write, the settle's two writes,
/// and the sync.
const CALLS: [Call; 5] = [Sync, Write, Write, Write, Sync];

/// The calls after each event.
const PLACES: [u64; 7] = [1, 1, 2, 4, 4, 4, 5];

#[test]
fn a_history_is_timed_by_the_calls_that_its_events_made_and_by_no_others(
    rt: HostRuntime,
) -> Result<(), Fail> {
    let rows = [
        (CALLS, PLACES, true, "the calls that they made"),
        (
            CALLS,
            [1, 1, 2, 5, 5, 5, 5],
            false,
            "a sync with the calls of the event before it",
        ),
        (
            CALLS,
            [1, 1, 2, 3, 3, 4, 5],
            false,
            "a read that raises calls",
        ),
        (
            CALLS,
            [0, 0, 2, 4, 4, 4, 5],
            false,
            "a put that raises calls by two",
        ),
        (
            [Sync, Write, Write, Sync, FailedSync],
            [1, 1, 2, 3, 3, 3, 4],
            false,
            "a last event before the device's last",
        ),
        (
            [Sync, FailedWrite, Write, Write, Sync],
            PLACES,
            false,
            "a put at a failed write",
        ),
        (
            [Write, Sync, Write, Write, Sync],
            PLACES,
            false,
            "a put at a sync",
        ),
        (
            [Sync, Write, Write, Write, FailedSync],
            PLACES,
            false,
            "a sync at a failed sync",
        ),
        (
            [Sync, Write, Write, FailedWrite, Sync],
            PLACES,
            true,
            "a write within a settle",
        ),
    ];
    for (calls, places, wanted, what) in rows {
        let history = history_of(rt.alloc(), places)?;
        let events = events_of(rt.alloc(), &calls)?;
        assert_eq!(rt; is_timed(&events, &history), wanted, "{what}");
    }
    Ok(())
}
