//! Appends, a checkpoint and a recovery stopped after every event.

ghost use Rattle.std.specs.Prelude.{◌≡◌, ◌≤◌, ◌^◌, ◌-◌};
ghost use Rattle.spec_record.specs.Geometry.{total_blocks, meta_blocks};
ghost use Rattle.spec_record.specs.Tests.{IsBetween};

use crate::base::{
    CHOICES, GEOMETRY, State, TOTAL, blocks_with, entry_of, put, recovered, replay_of, state_of,
};
use bv_device::{Device, MemDevice};
use bv_ring::Ring;
use std::alloc::Global;
use std::process::Abort;
use std::test::Fail;

/// Counts the images of stops after these events that hold the first of two states, and those that
/// hold the second; an image that holds neither ends the test.
fn count<R: Abort>(
    rt: &R,
    alloc: Global,
    dev: &MemDevice,
    stops: (u64, u64),
    old: State,
    new: State,
) -> Result<(u32, u32), Fail> {
    let mut seen = (0u32, 0u32);
    for stop in stops.0..stops.1 {
        for choice in CHOICES {
            assert!(rt; stop <= dev.trace_len());
            let mut image = dev.stop_after(alloc, stop, choice)?;
            let state = state_of(rt, alloc, &mut image)?;
            if state == old {
                seen.0 = seen.0.saturating_add(1);
            } else {
                assert_eq!(rt; state, new, "{stop} {choice:?}");
                seen.1 = seen.1.saturating_add(1);
            }
        }
    }
    Ok(seen)
}

/// Appends an entry, for which there is room.
fn append<R: Abort>(
    rt: &R,
    alloc: Global,
    dev: &mut MemDevice,
    ring: &mut Ring,
    number: u64,
) -> Result<(), Fail>
    requires number { IsBetween 1 number (2 ^ 62 - 1) }
    requires total { total_blocks ring.old.geometry ≤ 83 }
    ensures { ring.new.geometry ≡ ring.old.geometry }
{
    let blocks = entry_of(alloc, number, 2)?;
    assert!(rt; dev.blocks() == TOTAL && blocks.len() as u64 <= ring.room());
    assert_eq!(rt; ring.append(dev, &blocks), Ok(()));
    Ok(())
}

/// Puts metadata in place, and leaves the entries behind.
fn checkpoint<R: Abort>(rt: &R, dev: &mut MemDevice, ring: &mut Ring) -> Result<(), Fail>
    requires total { total_blocks ring.old.geometry ≤ 83 }
    requires meta { meta_blocks ring.old.geometry ≡ 3 }
{
    assert!(rt; dev.blocks() == TOTAL);
    assert_eq!(rt; ring.checkpoint(dev, &[[2u8; 8192]; 3]), Ok(()));
    Ok(())
}

#[test]
fn a_stop_leaves_the_old_entries_or_the_new(rt: HostRuntime) -> Result<(), Fail> {
    let alloc = rt.alloc();
    let mut dev = MemDevice::from_blocks(alloc, blocks_with(alloc, 14, 7)?);
    let mut ring = Ring::new(alloc, GEOMETRY, 14, 7)?;
    // The first entry stands in slots 14, 0 and 1. All of it is there or none: it is found only
    // where each of its sectors is.
    append(&rt, alloc, &mut dev, &mut ring, 7)?;
    assert_eq!(rt;
        count(&rt, alloc, &dev, (0, 4), (0, 14, 7), (1, 2, 8))?,
        (15, 1)
    );
    assert!(rt; dev.sync().is_ok());
    append(&rt, alloc, &mut dev, &mut ring, 8)?;
    assert_eq!(rt;
        count(&rt, alloc, &dev, (4, 8), (1, 2, 8), (2, 5, 9))?,
        (15, 1)
    );
    assert_eq!(rt; (ring.room(), ring.next(), dev.calls()), (9, 9, 7));
    // A sync, three blocks in place, a sync, the info block, a sync: the entries stand until the
    // info block leaves them behind.
    checkpoint(&rt, &mut dev, &mut ring)?;
    assert_eq!(rt;
        count(&rt, alloc, &dev, (8, 15), (2, 5, 9), (0, 5, 9))?,
        (23, 5)
    );
    assert_eq!(rt; (ring.room(), ring.next(), dev.calls()), (15, 9, 14));
    Ok(())
}

/// A block has this byte everywhere.
fn has<R: Abort>(rt: &R, dev: &mut MemDevice, at: u64, byte: u8) {
    let mut block = [0; 8192];
    assert!(rt; at < dev.blocks());
    assert!(rt; dev.read(at, &mut block).is_ok());
    assert!(rt; block == [byte; 8192], "{at}");
}

/// After a recovery the journal is empty and begins behind the entries, nothing is stale, and the
/// metadata is what they replay to.
fn is_settled<R: Abort>(rt: &R, alloc: Global, dev: &mut MemDevice) -> Result<(), Fail> {
    let replay = replay_of(rt, alloc, dev)?;
    assert_eq!(rt; (replay.entries.len(), replay.stale.len()), (0, 0));
    assert_eq!(rt; (replay.next_slot, replay.next_number), (6, 9));
    has(rt, dev, 0, 2);
    has(rt, dev, 1, 0);
    Ok(())
}

/// Recovers what each stop of a device leaves.
fn recovers_each_stop<R: Abort>(rt: &R, alloc: Global, dev: &MemDevice) -> Result<(), Fail> {
    for stop in 0..dev.trace_len() {
        for choice in CHOICES {
            assert!(rt; stop <= dev.trace_len());
            let mut again = dev.stop_after(alloc, stop, choice)?;
            recovered(rt, alloc, &mut again)?;
            is_settled(rt, alloc, &mut again)?;
        }
    }
    Ok(())
}

#[test]
fn a_recovery_that_stops_anywhere_ends_the_same_when_it_runs_again(
    rt: HostRuntime,
) -> Result<(), Fail> {
    let alloc = rt.alloc();
    let mut blocks = blocks_with(alloc, 0, 7)?;
    put(&mut blocks, &[0, 1, 2], &entry_of(alloc, 7, 1)?);
    put(&mut blocks, &[3, 4, 5], &entry_of(alloc, 8, 2)?);
    put(&mut blocks, &[9, 10, 12], &entry_of(alloc, 20, 5)?);
    let mut dev = MemDevice::from_blocks(alloc, blocks);
    recovered(&rt, alloc, &mut dev)?;
    is_settled(&rt, alloc, &mut dev)?;
    // One block in place, two slots wiped, the info block, and three syncs.
    assert_eq!(rt; dev.trace_len(), 7);
    for stop in 0..dev.trace_len() {
        for choice in CHOICES {
            assert!(rt; stop <= dev.trace_len());
            let mut again = dev.stop_after(alloc, stop, choice)?;
            recovered(&rt, alloc, &mut again)?;
            is_settled(&rt, alloc, &mut again)?;
            // The second recovery may be stopped too.
            recovers_each_stop(&rt, alloc, &again)?;
        }
    }
    Ok(())
}
