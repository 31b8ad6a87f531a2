//! Scripts that run one after another on one device.

use crate::answers::{Answer, have_answered};
use crate::device::{made, runs};
use bv_device::{Device, MemDevice};
use bv_io::NoGate;
use bv_mount::inspect_all;
use std::alloc::Global;
use std::process::Abort;
use std::sync::Wait;
use std::test::Fail;
use std::thread::Threads;

/// The first mount, in one session as the others: adds, a look at each blob, a blob that is there, and one that is too large.
const FIRST: &[u8] = b"0 add hex:6869
0 open 0 hex:6869
0 read 0 0 2
0 list
0 sync
0 close 0
0 add seq:1:20000
0 open 3 seq:1:20000
0 scan 3
0 read 3 8190 6
0 close 3
0 add hex:6869
0 add fill:41:600000
";

/// The second: an unlink that is made to last, and a blob over blocks that it freed.
const SECOND: &[u8] = b"1 list
1 unlink hex:6869
1 list
1 sync
1 add fill:00:100000
";

/// The third: a blob that is gone is added again, and another is unlinked last.
const THIRD: &[u8] = b"2 list
2 open 1 hex:6869
2 add hex:6869
2 list
2 unlink seq:1:20000
";

/// Runs a script. Its lines answer this, and it makes so many writes and syncs.
fn goes<R: Abort + Threads + Wait + Sync>(
    rt: &R,
    alloc: Global,
    dev: MemDevice,
    script: &[u8],
    wanted: &[Answer],
    calls: u64,
) -> Result<MemDevice, Fail> {
    let before = dev.calls();
    let (ends, dev) = runs(rt, alloc, dev, script, &NoGate)?;
    have_answered(rt, &ends, wanted);
    assert_eq!(rt; dev.calls().checked_sub(before), Some(calls));
    Ok(dev)
}

/// A device on which the three scripts ran, one after another.
///
/// A block that is put is one write; an entry has a sync before it, and five blocks; an unmount is a
/// sync and a checkpoint of seven.
fn used<R: Abort + Threads + Wait + Sync>(
    rt: &R,
    alloc: Global,
    version: u32,
) -> Result<MemDevice, Fail> {
    let dev = made(rt, alloc, version)?;
    let first: [Answer; 13] = [
        ("published", 0),
        ("opened", 2),
        ("bytes", 2),
        ("list", 1),
        ("synced", 0),
        ("closed", 0),
        ("published", 0),
        ("opened", 20_000),
        ("whole", 20_000),
        ("bytes", 6),
        ("closed", 0),
        ("exists", 0),
        // 74 data blocks and one of their tree.
        ("no-space", 75),
    ];
    let dev = goes(rt, alloc, dev, FIRST, &first, 1 + 6 + 1 + 4 + 6 + 8)?;
    let second: [Answer; 5] = [
        ("list", 2),
        ("unlinked", 0),
        ("list", 1),
        ("synced", 0),
        ("published", 0),
    ];
    let dev = goes(rt, alloc, dev, SECOND, &second, 6 + 1 + 14 + 6 + 8)?;
    let third: [Answer; 5] = [
        ("list", 2),
        ("not-found", 0),
        ("published", 0),
        ("list", 3),
        ("unlinked", 0),
    ];
    goes(rt, alloc, dev, THIRD, &third, 1 + 6 + 6 + 8)
}

#[test]
fn what_one_script_leaves_the_next_one_finds(rt: HostRuntime) -> Result<(), Fail> {
    let alloc = rt.alloc();
    for version in [1, 2] {
        let mut dev = used(&rt, alloc, version)?;
        assert_eq!(rt; dev.faults(), 0);
        let Ok((_, survey)) = inspect_all(alloc, &mut dev) else {
            return Err(Fail::from("a volume"));
        };
        assert_eq!(rt; survey.blobs.len(), 2);
    }
    Ok(())
}

/// A blob that two slots hold is unlinked, and added again once it is gone.
const HELD_TWICE: &[u8] = b"0 add hex:6869
0 open 0 hex:6869
0 open 1 hex:6869
0 unlink hex:6869
0 sync
0 list
0 open 2 hex:6869
0 add hex:6869
0 close 0
0 close 1
0 sync
0 add hex:6869
";

#[test]
fn a_blob_that_slots_hold_leaves_once_all_of_them_are_closed(rt: HostRuntime) -> Result<(), Fail> {
    let alloc = rt.alloc();
    let dev = made(&rt, alloc, 1)?;
    let (ends, _) = runs(&rt, alloc, dev, HELD_TWICE, &NoGate)?;
    let wanted: [Answer; 12] = [
        ("published", 0),
        ("opened", 2),
        ("opened", 2),
        ("unlinked", 0),
        ("synced", 0),
        ("list", 0),
        ("not-found", 0),
        ("leaving", 2),
        ("closed", 0),
        ("closed", 0),
        ("synced", 0),
        ("published", 0),
    ];
    have_answered(&rt, &ends, &wanted);
    Ok(())
}
