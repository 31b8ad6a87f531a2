//! Device calls that fail, one after another, under a script.

use crate::runs::{FAULT, STORED, has_blob, made, runs};
use bv_device::{CallKind, Device};
use bv_run::Status;
use std::alloc::Global;
use std::process::Abort;
use std::sync::Wait;
use std::test::Fail;
use std::thread::Threads;

/// No run here makes so many calls of one kind.
const MOST: u64 = 100;

/// How a run ended.
#[derive(Clone, Copy, Debug, PartialEq, Eq)]
enum Ended {
    /// A call failed before the script began.
    Refused,
    /// A call failed under a line.
    Faulty,
    /// No call failed.
    Well,
}

/// A run on a new volume where one call fails, and whether the blob is there behind it.
fn ends_and_leaves<R: Abort + Threads + Wait + Sync>(
    rt: &R,
    alloc: Global,
    kind: CallKind,
    nth: u64,
) -> Result<(Ended, bool), Fail> {
    let mut dev = made(rt, alloc)?;
    assert!(rt; 0 < nth);
    dev.fail(alloc, kind, nth)?;
    let (status, sink, dev) = runs(rt, alloc, "script", dev, STORED)?;
    let left = dev.stop_after(alloc, dev.trace_len(), &[255])?;
    let has = has_blob(rt, alloc, left)?;
    if dev.faults() == 0 {
        assert_eq!(rt; status, Status::Ok, "{kind:?} {nth}");
        return Ok((Ended::Well, has));
    }
    assert_eq!(rt; status, Status::Device, "{kind:?} {nth}");
    if sink.bytes() == FAULT.as_bytes() {
        return Ok((Ended::Refused, has));
    }
    assert!(rt;
        sink.bytes().starts_with(b"session 0\n1 add "),
        "{kind:?} {nth}"
    );
    Ok((Ended::Faulty, has))
}

/// Which ends were seen with the blob and without it, each call of a kind failing in turn.
fn seen<R: Abort + Threads + Wait + Sync>(
    rt: &R,
    alloc: Global,
    kind: CallKind,
) -> Result<Vec<(Ended, bool)>, Fail> {
    let mut seen = Vec::new(alloc);
    for nth in 1..MOST {
        let row = ends_and_leaves(rt, alloc, kind, nth)?;
        if !seen.contains(&row) {
            seen.push(row)?;
        }
        if row.0 == Ended::Well {
            return Ok(seen);
        }
    }
    Err(Fail::from("a run without a fault"))
}

#[test]
fn whichever_call_fails_the_run_says_so_and_leaves_the_blob_or_none(
    rt: HostRuntime,
) -> Result<(), Fail> {
    let alloc = rt.alloc();
    // The mount reads. Where a read of the blob fails, the blob is unlinked all the same.
    let reads = [
        (Ended::Refused, false),
        (Ended::Faulty, false),
        (Ended::Well, false),
    ];
    assert_eq!(rt;
        seen(&rt, alloc, CallKind::Read)?.as_slice(),
        reads.as_slice()
    );
    // The mount of a new volume writes nothing. A call that fails once the blob is there leaves it
    // there up to the last block of the purge's entry, whose number is the last.
    let rows = [
        (Ended::Faulty, false),
        (Ended::Faulty, true),
        (Ended::Well, false),
    ];
    for kind in [CallKind::Write, CallKind::Sync] {
        let seen = seen(&rt, alloc, kind)?;
        for row in &rows {
            assert!(rt; seen.contains(row), "{kind:?} {row:?}");
        }
        assert_eq!(rt; seen.len(), rows.len());
    }
    Ok(())
}
