//! A script stopped after every event: the next mount finds what was made to last.

use crate::answers::have_answered;
use crate::device::{made, runs};
use bv_device::MemDevice;
use bv_io::NoGate;
use std::alloc::Global;
use std::process::Abort;
use std::sync::Wait;
use std::test::Fail;
use std::thread::Threads;

/// Two blobs, with a sync between them.
const ADDS: &[u8] = b"0 add hex:6869
0 sync
0 add seq:1:20000
";

/// The volume that a stop left mounts, and has so many blobs.
fn has_blobs<R: Abort + Threads + Wait + Sync>(
    rt: &R,
    alloc: Global,
    left: MemDevice,
    blobs: u64,
) -> Result<(), Fail> {
    let (ends, _) = runs(rt, alloc, left, b"0 list", &NoGate)?;
    have_answered(rt, &ends, &[("list", blobs)]);
    Ok(())
}

/// How many blobs there are once so many of these numbers of events were reached.
fn reached(events: u64, first: u64, second: u64) -> u64 {
    if events < first {
        0
    } else if events < second {
        1
    } else {
        2
    }
}

#[test]
fn a_stop_leaves_each_blob_that_was_synced_and_no_part_of_another(
    rt: HostRuntime,
) -> Result<(), Fail> {
    let alloc = rt.alloc();
    let dev = made(&rt, alloc, 1)?;
    let formatted = dev.trace_len();
    let (ends, dev) = runs(&rt, alloc, dev, ADDS, &NoGate)?;
    have_answered(
        &rt,
        &ends,
        &[("published", 0), ("synced", 0), ("published", 0)],
    );
    // One block of the first blob, a sync, and its entry of five blocks: events 2 to 7. The script's
    // sync is the eighth. Then four blocks, a sync and an entry: up to 18. The unmount has eight.
    assert_eq!(rt; dev.trace_len().checked_sub(formatted), Some(26));
    for events in 0..27 {
        let stop = formatted.saturating_add(events);
        assert!(rt; stop <= dev.trace_len());
        // Nothing but what was synced is there; or all that was written.
        let left = dev.stop_after(alloc, stop, &[])?;
        has_blobs(&rt, alloc, left, reached(events, 8, 19))?;
        assert!(rt; stop <= dev.trace_len());
        let left = dev.stop_after(alloc, stop, &[255])?;
        has_blobs(&rt, alloc, left, reached(events, 7, 18))?;
    }
    Ok(())
}
