//! What a scan finds in rings that are written out slot by slot.

use crate::base::{State, blocks_with, entry_of, put, replay_of};
use bv_device::MemDevice;
use std::alloc::Global;
use std::process::Abort;
use std::test::Fail;

/// The slots of an entry's blocks, and its number.
type Placed<'a> = (&'a [usize], u64);

/// A ring that begins at this slot with this number, and has these entries: what a scan finds, and
/// the slots that are stale.
fn finds<R: Abort>(
    rt: &R,
    alloc: Global,
    begins: (u64, u64),
    entries: &[Placed],
    wanted: (State, &[u64]),
) -> Result<(), Fail> {
    let (start, first) = begins;
    assert!(rt; 1 <= first && first <= 1 << 62);
    let mut blocks = blocks_with(alloc, start, first)?;
    for (slots, number) in entries {
        assert!(rt; 1 <= *number && *number < 1 << 62);
        put(&mut blocks, slots, &entry_of(alloc, *number, 5)?);
    }
    let mut dev = MemDevice::from_blocks(alloc, blocks);
    let replay = replay_of(rt, alloc, &mut dev)?;
    let state = (replay.entries.len(), replay.next_slot, replay.next_number);
    assert_eq!(rt; state, wanted.0, "{begins:?}");
    assert_eq!(rt; replay.stale.as_slice(), wanted.1, "{begins:?}");
    Ok(())
}

#[test]
fn a_scan_finds_the_entries_that_follow_one_another_and_the_stale_slots(
    rt: HostRuntime,
) -> Result<(), Fail> {
    let alloc = rt.alloc();
    // An entry that wraps is found whole.
    finds(&rt, alloc, (14, 7), &[(&[14, 0, 1], 7)], ((1, 2, 8), &[]))?;
    // The entries end where the numbers have a gap. Header and commit of 9 are stale, and those of
    // the older entry behind them aren't.
    let gap: [Placed; 3] = [(&[0, 1, 2], 7), (&[3, 4, 5], 9), (&[6, 7, 8], 5)];
    finds(&rt, alloc, (0, 7), &gap, ((1, 3, 8), &[3, 5]))?;
    // No slot of a full ring counts twice.
    let full: [Placed; 5] = [
        (&[0, 1, 2], 1),
        (&[3, 4, 5], 2),
        (&[6, 7, 8], 3),
        (&[9, 10, 11], 4),
        (&[12, 13, 14], 5),
    ];
    finds(&rt, alloc, (0, 1), &full, ((5, 0, 6), &[]))?;
    // Headers without commits are no entries.
    let headers: [Placed; 4] = [(&[3], 1), (&[4], 1), (&[14], 1), (&[2], 1)];
    finds(&rt, alloc, (3, 1), &headers, ((0, 3, 1), &[3, 4, 14, 2]))?;
    // No entry has a number past the last.
    let last = (1 << 62) - 1;
    finds(
        &rt,
        alloc,
        (0, last),
        &[(&[0, 1, 2], last)],
        ((1, 3, 1 << 62), &[]),
    )
}
