//! Device calls that fail, one after another, under a scan, an append and a recovery.

use crate::base::{GEOMETRY, TOTAL, blocks_with, entry_of, put};
use bv_device::{CallKind, Device, DeviceFault, MemDevice};
use bv_replay::{ReplayFault, recover, scan};
use bv_ring::{Ring, RingFault};
use std::alloc::Global;
use std::process::Abort;
use std::test::Fail;

/// A device whose journal has one entry and a stale slot.
fn device(alloc: Global) -> Result<MemDevice, Fail> {
    let mut blocks = blocks_with(alloc, 0, 7)?;
    put(&mut blocks, &[0, 1, 2], &entry_of(alloc, 7, 5)?);
    put(&mut blocks, &[9], &entry_of(alloc, 20, 5)?);
    Ok(MemDevice::from_blocks(alloc, blocks))
}

/// Whether a scan ends well where this read fails; else the fault is told.
fn is_scanned<R: Abort>(rt: &R, alloc: Global, nth: u64) -> Result<bool, Fail> {
    assert!(rt; 0 < nth);
    let mut dev = device(alloc)?;
    dev.fail(alloc, CallKind::Read, nth)?;
    assert_eq!(rt; dev.blocks(), TOTAL);
    match scan(alloc, &mut dev, GEOMETRY) {
        Ok(_) => Ok(true),
        Err(fault) => {
            assert_eq!(rt; fault, ReplayFault::DeviceFault { fault: 1 });
            Ok(false)
        }
    }
}

#[test]
fn a_scan_tells_whichever_read_fails(rt: HostRuntime) -> Result<(), Fail> {
    let alloc = rt.alloc();
    // The info block, and each of 15 slots.
    for nth in 1..17 {
        assert!(rt; !is_scanned(&rt, alloc, nth)?, "{nth}");
    }
    // None is read more than twice.
    assert!(rt; is_scanned(&rt, alloc, 33)?);
    Ok(())
}

/// What a recovery answers where this call of the kind fails.
fn recovers<R: Abort>(
    rt: &R,
    alloc: Global,
    kind: CallKind,
    nth: u64,
) -> Result<Result<(), DeviceFault>, Fail> {
    assert!(rt; 0 < nth);
    let mut dev = device(alloc)?;
    assert_eq!(rt; dev.blocks(), TOTAL);
    let replay = scan(alloc, &mut dev, GEOMETRY).ok().ok_or("a replay")?;
    dev.fail(alloc, kind, nth)?;
    Ok(recover(&mut dev, GEOMETRY, &replay))
}

#[test]
fn a_recovery_tells_whichever_write_or_sync_fails(rt: HostRuntime) -> Result<(), Fail> {
    let alloc = rt.alloc();
    // One block in place, one slot wiped, one info block; a sync behind each.
    for kind in [CallKind::Write, CallKind::Sync] {
        for nth in 1..4 {
            let fault = Err(DeviceFault { fault: 1 });
            assert_eq!(rt; recovers(&rt, alloc, kind, nth)?, fault, "{nth}");
        }
        assert_eq!(rt; recovers(&rt, alloc, kind, 4)?, Ok(()));
    }
    Ok(())
}

/// Appends an entry of three blocks with this number, where a write fails: the answer, and what the
/// ring and the device then say.
fn appends<R: Abort>(
    rt: &R,
    alloc: Global,
    number: u64,
    nth: u64,
) -> Result<(Result<(), RingFault>, (u64, u64, u64)), Fail> {
    assert!(rt; 1 <= number && number <= 1 << 62 && 0 < nth);
    let mut dev = device(alloc)?;
    dev.fail(alloc, CallKind::Write, nth)?;
    let mut ring = Ring::new(alloc, GEOMETRY, 3, number)?;
    let blocks = entry_of(alloc, 8, 6)?;
    assert_eq!(rt; dev.blocks(), TOTAL);
    assert!(rt; blocks.len() as u64 <= ring.room());
    let appended = ring.append(&mut dev, &blocks);
    Ok((appended, (ring.room(), ring.next(), dev.calls())))
}

#[test]
fn an_append_that_fails_leaves_the_ring_and_one_past_the_last_writes_nothing(
    rt: HostRuntime,
) -> Result<(), Fail> {
    let alloc = rt.alloc();
    for nth in 1..4 {
        let fault = Err(RingFault::DeviceFault { fault: 1 });
        assert_eq!(rt; appends(&rt, alloc, 8, nth)?, (fault, (15, 8, nth)));
    }
    let past = 1 << 62;
    assert_eq!(rt;
        appends(&rt, alloc, past, 1)?,
        (Err(RingFault::NumberEnd), (15, past, 0))
    );
    Ok(())
}
