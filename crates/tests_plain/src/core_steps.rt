//! The core in memory, against replies worked out by hand from the tables.

use plain_core::{Machine, step_of};
use spec_core::{Act, CoreEvent, Reply, Setting, Who};
use spec_tree::Digest;
use std::process::Abort;
use std::test::Fail;

pub(crate) const A: Digest = Digest([1; 32]);

pub(crate) const B: Digest = Digest([2; 32]);

pub(crate) const C: Digest = Digest([3; 32]);

/// A block, in bytes.
pub(crate) const BLOCK: u64 = 8192;

pub(crate) const BEGIN_A: Act = Act::Begin {
    root: A,
    size: BLOCK,
};

/// A volume with room for fifteen blocks of blobs.
pub(crate) const SMALL: Setting = Setting {
    blocks: 16,
    nodes: 4,
    version: 1,
};

/// An event of this session, and whether it is a step after those before it.
pub(crate) struct Row(
    pub(crate) u32,
    pub(crate) Act,
    pub(crate) Reply,
    pub(crate) bool,
);

/// One blob is published, after each refusal of an add.
const ADDS: [Row; 24] = [
    Row(0, Act::Open { slot: 0, root: A }, Reply::NotFound, true),
    Row(0, Act::Close { slot: 0 }, Reply::BadSlot, true),
    Row(0, Act::Fetch { slot: 0, window: 0 }, Reply::BadSlot, true),
    Row(0, Act::Scan { slot: 0 }, Reply::BadSlot, true),
    Row(0, Act::Admit { root: A }, Reply::Admitted, false),
    Row(0, Act::Settle { root: A }, Reply::Published, false),
    Row(0, BEGIN_A, Reply::Exists, false),
    Row(0, BEGIN_A, Reply::Granted, true),
    Row(0, BEGIN_A, Reply::InFlight, true),
    Row(
        0,
        Act::Begin {
            root: B,
            size: 14 * BLOCK,
        },
        Reply::Granted,
        false,
    ),
    Row(
        0,
        Act::Begin {
            root: B,
            size: 14 * BLOCK,
        },
        Reply::NoSpace { need: 15, room: 14 },
        true,
    ),
    Row(
        0,
        Act::Begin {
            root: B,
            size: 13 * BLOCK,
        },
        Reply::Granted,
        true,
    ),
    Row(
        0,
        Act::Begin { root: C, size: 1 },
        Reply::NoSpace { need: 1, room: 0 },
        true,
    ),
    Row(
        0,
        Act::Admit { root: B },
        Reply::NoNodes { need: 4, free: 2 },
        false,
    ),
    Row(
        0,
        Act::Admit { root: B },
        Reply::NoNodes { need: 5, free: 3 },
        false,
    ),
    Row(
        0,
        Act::Admit { root: B },
        Reply::NoNodes { need: 4, free: 3 },
        true,
    ),
    Row(0, Act::Retire { root: B }, Reply::Retired, true),
    Row(
        0,
        Act::Admit { root: A },
        Reply::NoNodes { need: 1, free: 0 },
        false,
    ),
    Row(0, Act::Admit { root: A }, Reply::Admitted, true),
    Row(0, Act::Put { index: 0 }, Reply::Written, true),
    Row(0, Act::Unmount, Reply::Unmounted, false),
    Row(0, Act::Settle { root: A }, Reply::Published, true),
    Row(0, BEGIN_A, Reply::Exists, true),
    Row(0, Act::List, Reply::Listed { count: 1 }, true),
];

/// A slot holds the blob while it is unlinked. Another session has a slot of the same number, which
/// holds nothing.
const SLOTS: [Row; 17] = [
    Row(
        0,
        Act::Open { slot: 0, root: A },
        Reply::Opened { size: 1 },
        false,
    ),
    Row(
        0,
        Act::Open { slot: 0, root: A },
        Reply::Opened { size: BLOCK },
        true,
    ),
    Row(0, Act::Open { slot: 0, root: A }, Reply::SlotTaken, true),
    Row(1, Act::Scan { slot: 0 }, Reply::BadSlot, true),
    Row(
        0,
        Act::Read {
            slot: 0,
            off: 0,
            len: 9,
        },
        Reply::Reading,
        true,
    ),
    Row(
        0,
        Act::Read {
            slot: 1,
            off: 0,
            len: 9,
        },
        Reply::BadSlot,
        true,
    ),
    Row(0, Act::Scan { slot: 0 }, Reply::Reading, true),
    Row(0, Act::Fetch { slot: 0, window: 0 }, Reply::Fetched, true),
    Row(
        0,
        Act::Fetch { slot: 0, window: 0 },
        Reply::ReadFault { fault: 7 },
        true,
    ),
    Row(0, Act::Unlink { root: A }, Reply::Unlinked, true),
    Row(0, Act::Unlink { root: A }, Reply::NotFound, true),
    Row(0, Act::Open { slot: 1, root: A }, Reply::NotFound, true),
    Row(0, BEGIN_A, Reply::Leaving { handles: 1 }, true),
    Row(0, Act::List, Reply::Listed { count: 1 }, false),
    Row(0, Act::List, Reply::Listed { count: 0 }, true),
    Row(0, Act::Close { slot: 0 }, Reply::Closed, true),
    Row(0, BEGIN_A, Reply::Leaving { handles: 0 }, true),
];

/// A sync frees the blocks of a purge; then the numbers end, and the device fails.
const ENDS: [Row; 20] = [
    Row(
        0,
        Act::Begin {
            root: B,
            size: BLOCK,
        },
        Reply::Granted,
        true,
    ),
    Row(0, Act::Admit { root: B }, Reply::Admitted, true),
    Row(0, Act::Put { index: 0 }, Reply::Written, true),
    Row(0, Act::Settle { root: B }, Reply::Published, true),
    Row(
        0,
        Act::Begin {
            root: C,
            size: 13 * BLOCK,
        },
        Reply::NoSpace { need: 14, room: 13 },
        true,
    ),
    Row(0, Act::Sync, Reply::NumberEnd, false),
    Row(0, Act::Sync, Reply::Synced, true),
    Row(
        0,
        Act::Begin {
            root: C,
            size: 13 * BLOCK,
        },
        Reply::Granted,
        true,
    ),
    Row(0, Act::Settle { root: C }, Reply::Published, false),
    Row(0, Act::Settle { root: C }, Reply::NumberEnd, true),
    Row(0, Act::Unlink { root: B }, Reply::Unlinked, true),
    Row(0, Act::Sync, Reply::Synced, false),
    Row(0, Act::Sync, Reply::NumberEnd, true),
    Row(
        0,
        Act::Put { index: 1 },
        Reply::DeviceFault { fault: 3 },
        true,
    ),
    Row(
        0,
        Act::Begin { root: C, size: 1 },
        Reply::Stopped { fault: 4 },
        false,
    ),
    Row(
        0,
        Act::Begin { root: C, size: 1 },
        Reply::Stopped { fault: 3 },
        true,
    ),
    Row(
        0,
        Act::Unlink { root: C },
        Reply::Stopped { fault: 3 },
        true,
    ),
    Row(0, Act::Sync, Reply::Stopped { fault: 3 }, true),
    Row(0, Act::List, Reply::Listed { count: 0 }, true),
    Row(0, Act::Unmount, Reply::Stopped { fault: 3 }, true),
];

/// Each row's event is a step of the core where the row says so, and else changes nothing.
pub(crate) fn goes_as_said<R: Abort>(
    rt: &R,
    core: &mut Machine,
    name: &str,
    rows: &[Row],
) -> Result<(), Fail> {
    for (at, Row(session, act, reply, wanted)) in rows.iter().enumerate() {
        let event = CoreEvent {
            who: Who {
                session: *session,
                line: 1,
            },
            act: *act,
            reply: *reply,
            calls: 0,
        };
        assert!(rt; core.next() <= 1 << 62);
        assert_eq!(rt; step_of(core, &event)?, *wanted, "{name}, row {at}");
    }
    Ok(())
}

#[test]
fn each_event_is_a_step_exactly_where_the_table_has_its_row(rt: HostRuntime) -> Result<(), Fail> {
    let mut core = Machine::new(rt.alloc(), SMALL, (1 << 62) - 2);
    goes_as_said(&rt, &mut core, "adds", &ADDS)?;
    goes_as_said(&rt, &mut core, "slots", &SLOTS)?;
    goes_as_said(&rt, &mut core, "ends", &ENDS)?;
    assert_eq!(rt; core.room(), 14);
    Ok(())
}
