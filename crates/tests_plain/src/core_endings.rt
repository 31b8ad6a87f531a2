//! Cores that a failure, the last number or an unmount brings to an end, against the table: the
//! replies, and then the log, the map and the room, worked out by hand.

use crate::core_steps::{A, B, BEGIN_A, BLOCK, C, Row, SMALL, goes_as_said};
use plain_core::Machine;
use spec_core::{Act, MapChange, Reply};
use spec_tree::{Blob, Digest};
use std::alloc::Global;
use std::process::Abort;
use std::test::Fail;

const D: Digest = Digest([4; 32]);

const BEGIN_B: Act = Act::Begin {
    root: B,
    size: BLOCK,
};

const BEGIN_C: Act = Act::Begin {
    root: C,
    size: BLOCK,
};

const BEGIN_D: Act = Act::Begin {
    root: D,
    size: BLOCK,
};

/// The reply of an open: each blob has one block.
const OPENED: Reply = Reply::Opened { size: BLOCK };

/// A slot is closed while another holds the root, and the last slots go with the unmount.
const UNMOUNTS: [Row; 22] = [
    Row(0, BEGIN_A, Reply::Granted, true),
    Row(0, Act::Settle { root: A }, Reply::Published, true),
    Row(0, BEGIN_B, Reply::Granted, true),
    Row(0, Act::Settle { root: B }, Reply::Published, true),
    Row(0, BEGIN_C, Reply::Granted, true),
    Row(0, Act::Settle { root: C }, Reply::Published, true),
    Row(0, Act::Open { slot: 0, root: C }, OPENED, true),
    Row(0, Act::Open { slot: 1, root: A }, OPENED, true),
    Row(0, Act::Open { slot: 2, root: A }, OPENED, true),
    Row(0, Act::Open { slot: 3, root: B }, OPENED, true),
    Row(0, Act::Unlink { root: C }, Reply::Unlinked, true),
    Row(0, Act::Unlink { root: B }, Reply::Unlinked, true),
    Row(0, Act::Unlink { root: A }, Reply::Unlinked, true),
    Row(0, BEGIN_A, Reply::Leaving { handles: 2 }, true),
    Row(0, Act::Close { slot: 1 }, Reply::Closed, true),
    Row(0, BEGIN_A, Reply::Leaving { handles: 1 }, true),
    Row(0, Act::Close { slot: 3 }, Reply::Closed, true),
    Row(0, Act::Unmount, Reply::Unmounted, true),
    Row(0, Act::Close { slot: 0 }, Reply::BadSlot, true),
    Row(0, Act::Unlink { root: C }, Reply::NotFound, true),
    Row(0, Act::Sync, Reply::Synced, true),
    Row(0, Act::List, Reply::Listed { count: 0 }, true),
];

/// The settle of one of three adds fails, and stops the two others.
const SETTLE_FAILS: [Row; 24] = [
    Row(0, BEGIN_A, Reply::Granted, true),
    Row(0, Act::Settle { root: A }, Reply::Published, true),
    Row(0, Act::Unlink { root: A }, Reply::Unlinked, true),
    Row(0, BEGIN_B, Reply::Granted, true),
    Row(0, BEGIN_C, Reply::Granted, true),
    Row(0, BEGIN_D, Reply::Granted, true),
    Row(0, Act::Admit { root: B }, Reply::Admitted, true),
    Row(
        0,
        Act::Settle { root: B },
        Reply::Stopped { fault: 5 },
        false,
    ),
    Row(
        0,
        Act::Settle { root: B },
        Reply::DeviceFault { fault: 5 },
        true,
    ),
    Row(0, Act::Settle { root: B }, Reply::Published, false),
    Row(0, Act::Put { index: 0 }, Reply::Written, false),
    Row(0, Act::Put { index: 0 }, Reply::Stopped { fault: 5 }, true),
    Row(0, Act::Admit { root: C }, Reply::Admitted, false),
    Row(0, Act::Admit { root: C }, Reply::Stopped { fault: 5 }, true),
    Row(
        0,
        Act::Admit { root: C },
        Reply::Stopped { fault: 5 },
        false,
    ),
    Row(0, Act::Settle { root: D }, Reply::Published, false),
    Row(
        0,
        Act::Settle { root: D },
        Reply::Stopped { fault: 5 },
        true,
    ),
    Row(
        0,
        Act::Settle { root: D },
        Reply::Stopped { fault: 5 },
        false,
    ),
    Row(0, Act::Open { slot: 0, root: A }, Reply::NotFound, true),
    Row(0, Act::Open { slot: 0, root: B }, Reply::NotFound, true),
    Row(0, BEGIN_C, Reply::Stopped { fault: 5 }, true),
    Row(0, Act::Sync, Reply::Synced, false),
    Row(0, Act::List, Reply::Listed { count: 0 }, true),
    Row(0, Act::Unmount, Reply::Stopped { fault: 5 }, true),
];

/// The unmount has a purge to write, and there is no number for its entry.
const NUMBERS_END: [Row; 12] = [
    Row(0, BEGIN_A, Reply::Granted, true),
    Row(0, Act::Settle { root: A }, Reply::Published, true),
    Row(0, Act::Open { slot: 0, root: A }, OPENED, true),
    Row(0, Act::Unlink { root: A }, Reply::Unlinked, true),
    Row(0, Act::Sync, Reply::NumberEnd, false),
    Row(0, Act::Sync, Reply::Synced, true),
    Row(0, Act::Unmount, Reply::Unmounted, false),
    Row(0, Act::Unmount, Reply::NumberEnd, true),
    Row(0, Act::Close { slot: 0 }, Reply::BadSlot, true),
    Row(0, BEGIN_A, Reply::Leaving { handles: 0 }, true),
    Row(0, Act::Sync, Reply::Synced, false),
    Row(0, Act::Sync, Reply::NumberEnd, true),
];

/// The unmount fails.
const UNMOUNT_FAILS: [Row; 13] = [
    Row(0, BEGIN_A, Reply::Granted, true),
    Row(0, Act::Settle { root: A }, Reply::Published, true),
    Row(0, BEGIN_B, Reply::Granted, true),
    Row(0, Act::Settle { root: B }, Reply::Published, true),
    Row(0, Act::Open { slot: 0, root: B }, OPENED, true),
    Row(0, Act::Open { slot: 1, root: A }, OPENED, true),
    Row(0, Act::Unlink { root: B }, Reply::Unlinked, true),
    Row(0, Act::Unlink { root: A }, Reply::Unlinked, true),
    Row(0, Act::Unmount, Reply::DeviceFault { fault: 9 }, true),
    Row(0, Act::Close { slot: 0 }, Reply::BadSlot, true),
    Row(
        0,
        Act::Unlink { root: A },
        Reply::Stopped { fault: 9 },
        true,
    ),
    Row(0, Act::Open { slot: 0, root: A }, Reply::NotFound, true),
    Row(0, Act::Unmount, Reply::Stopped { fault: 9 }, true),
];

/// A blob of one block is published at this root.
const fn publish(root: Digest) -> MapChange {
    MapChange::Publish {
        root,
        blob: ONE_BLOCK,
    }
}

/// A blob of one block is purged at this root.
const fn purge(root: Digest) -> MapChange {
    MapChange::Purge {
        root,
        blob: ONE_BLOCK,
    }
}

const ONE_BLOCK: Blob = Blob {
    size: BLOCK,
    version: 1,
};

/// A core whose first entry has this number goes through the rows. Then the log is this, the map
/// has so many blobs, those that are queued among them, and there is so much room.
#[derive(Clone, Copy)]
struct Ending<'a> {
    name: &'a str,
    next: u64,
    rows: &'a [Row],
    log: &'a [MapChange],
    blobs: usize,
    room: u64,
}

fn ends_as_said<R: Abort>(rt: &R, alloc: Global, ending: &Ending) -> Result<(), Fail> {
    let mut core = Machine::new(alloc, SMALL, ending.next);
    goes_as_said(rt, &mut core, ending.name, ending.rows)?;
    assert_eq!(rt; core.changes(), ending.log, "{}", ending.name);
    assert_eq!(rt; core.blobs().len(), ending.blobs, "{}", ending.name);
    assert_eq!(rt; core.room(), ending.room, "{}", ending.name);
    Ok(())
}

#[test]
fn an_unmount_purges_the_leaving_roots_in_the_order_of_their_bytes_if_there_is_a_number(
    rt: HostRuntime,
) -> Result<(), Fail> {
    let unmounts = Ending {
        name: "unmounts",
        next: 1,
        rows: &UNMOUNTS,
        log: &[
            publish(A),
            publish(B),
            publish(C),
            purge(B),
            purge(A),
            purge(C),
        ],
        blobs: 0,
        room: 15,
    };
    ends_as_said(&rt, rt.alloc(), &unmounts)?;
    let numbers_end = Ending {
        name: "numbers end",
        next: (1 << 62) - 1,
        rows: &NUMBERS_END,
        log: &[publish(A)],
        blobs: 1,
        room: 14,
    };
    ends_as_said(&rt, rt.alloc(), &numbers_end)
}

#[test]
fn an_entry_that_fails_is_in_the_log_and_leaves_the_map(rt: HostRuntime) -> Result<(), Fail> {
    let settle_fails = Ending {
        name: "settle fails",
        next: 1,
        rows: &SETTLE_FAILS,
        log: &[publish(A), purge(A), publish(B)],
        blobs: 1,
        room: 13,
    };
    ends_as_said(&rt, rt.alloc(), &settle_fails)?;
    let unmount_fails = Ending {
        name: "unmount fails",
        next: 1,
        rows: &UNMOUNT_FAILS,
        log: &[publish(A), publish(B), purge(A), purge(B)],
        blobs: 2,
        room: 11,
    };
    ends_as_said(&rt, rt.alloc(), &unmount_fails)
}
