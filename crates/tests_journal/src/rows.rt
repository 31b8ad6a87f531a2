//! Rows of the ring: a payload that begins with the magic, the last number, and several live
//! entries.

ghost use Rattle.std.specs.Prelude.{◌≡◌, ◌≤◌, ◌^◌, ◌-◌};
ghost use Rattle.spec_record.specs.Geometry.{total_blocks, meta_blocks};
ghost use Rattle.spec_record.specs.Tests.{IsBetween};

use crate::base::{GEOMETRY, TOTAL, blocks_with, recovered, replay_of, state_of};
use bv_device::{Block, Device, MemDevice};
use bv_entry::{Entry, write_entry};
use bv_ring::{Ring, RingFault};
use std::alloc::Global;
use std::process::Abort;
use std::test::Fail;

/// The magic of headers and commits as it is stored.
const MAGIC: [u8; 8] = [0x79, 0x72, 0x74, 0x6e, 0x62, 0x6f, 0x6c, 0x62];

/// A block of one byte that begins with the magic.
fn with_magic(byte: u8) -> Block {
    let mut block = [byte; 8192];
    block[..8].copy_from_slice(&MAGIC);
    block
}

/// The blocks of an entry that gives each of the three metadata blocks these bytes.
fn full_entry(alloc: Global, number: u64, payload: &Block) -> Result<Vec<Block>, Fail>
    requires { IsBetween 1 number (2 ^ 62 - 1) }
{
    let targets = vec![in alloc; (0, *payload), (1, *payload), (2, *payload)]?;
    Ok(write_entry(alloc, &Entry::new(number, targets), 3)?)
}

/// Appends blocks, for which there is room.
fn append<R: Abort>(
    rt: &R,
    dev: &mut MemDevice,
    ring: &mut Ring,
    blocks: &[Block],
) -> Result<(), RingFault>
    requires { total_blocks ring.old.geometry ≤ 83 }
    ensures { ring.new.geometry ≡ ring.old.geometry }
{
    assert!(rt; dev.blocks() == TOTAL && blocks.len() as u64 <= ring.room());
    ring.append(dev, blocks)
}

#[test]
fn a_payload_that_begins_with_the_magic_is_found_and_recovered_whole(
    rt: HostRuntime,
) -> Result<(), Fail> {
    let alloc = rt.alloc();
    let payload = with_magic(7);
    let mut dev = MemDevice::from_blocks(alloc, blocks_with(alloc, 12, 1)?);
    let mut ring = Ring::new(alloc, GEOMETRY, 12, 1)?;
    // Header, payloads and commit stand in slots 12, 13, 14, 0 and 1.
    let blocks = full_entry(alloc, 1, &payload)?;
    assert_eq!(rt; append(&rt, &mut dev, &mut ring, &blocks), Ok(()));
    let replay = replay_of(&rt, alloc, &mut dev)?;
    assert_eq!(rt; (replay.next_slot, replay.next_number), (2, 2));
    assert_eq!(rt; replay.stale.len(), 0);
    for entry in &replay.entries {
        assert!(rt; entry.targets() == [(0, payload), (1, payload), (2, payload)].as_slice());
    }
    assert_eq!(rt; replay.entries.len(), 1);
    recovered(&rt, alloc, &mut dev)?;
    let mut found = [0; 8192];
    assert!(rt; dev.blocks() == TOTAL && dev.read(2, &mut found).is_ok());
    assert!(rt; found == payload);
    Ok(())
}

#[test]
fn the_last_number_is_used_once_and_the_next_one_is_kept(rt: HostRuntime) -> Result<(), Fail> {
    let alloc = rt.alloc();
    let last = (1 << 62) - 1;
    let mut dev = MemDevice::from_blocks(alloc, blocks_with(alloc, 0, last)?);
    let mut ring = Ring::new(alloc, GEOMETRY, 0, last)?;
    let blocks = full_entry(alloc, last, &[3; 8192])?;
    assert_eq!(rt; append(&rt, &mut dev, &mut ring, &blocks), Ok(()));
    assert_eq!(rt; state_of(&rt, alloc, &mut dev)?, (1, 5, 1 << 62));
    // No number is left: nothing more is written.
    assert_eq!(rt;
        append(&rt, &mut dev, &mut ring, &blocks),
        Err(RingFault::NumberEnd)
    );
    assert_eq!(rt; (ring.room(), ring.next(), dev.calls()), (10, 1 << 62, 5));
    // A recovery keeps that in the info block: its number is stored in bytes 24 to 31.
    recovered(&rt, alloc, &mut dev)?;
    let mut info = [0; 8192];
    assert!(rt; dev.blocks() == TOTAL && dev.read(3, &mut info).is_ok());
    assert!(rt; info[24..32] == [0, 0, 0, 0, 0, 0, 0, 0x40]);
    assert_eq!(rt; state_of(&rt, alloc, &mut dev)?, (0, 5, 1 << 62));
    Ok(())
}

/// Makes what was written last, and appends an entry of five blocks with this number behind it.
fn append_behind<R: Abort>(
    rt: &R,
    alloc: Global,
    dev: &mut MemDevice,
    ring: &mut Ring,
    number: u8,
) -> Result<(), Fail>
    requires number { 1 ≤ number }
    requires total { total_blocks ring.old.geometry ≤ 83 }
    ensures { ring.new.geometry ≡ ring.old.geometry }
{
    assert!(rt; dev.sync().is_ok());
    let blocks = full_entry(alloc, u64::from(number), &[number; 8192])?;
    assert_eq!(rt; append(rt, dev, ring, &blocks), Ok(()));
    Ok(())
}

#[test]
fn three_live_entries_fill_the_ring_and_a_fourth_wants_a_checkpoint(
    rt: HostRuntime,
) -> Result<(), Fail> {
    let alloc = rt.alloc();
    let mut dev = MemDevice::from_blocks(alloc, blocks_with(alloc, 0, 1)?);
    let mut ring = Ring::new(alloc, GEOMETRY, 0, 1)?;
    append_behind(&rt, alloc, &mut dev, &mut ring, 1)?;
    append_behind(&rt, alloc, &mut dev, &mut ring, 2)?;
    append_behind(&rt, alloc, &mut dev, &mut ring, 3)?;
    // Each entry took a sync and five writes. No slot is free.
    assert_eq!(rt; (ring.room(), ring.next(), dev.calls()), (0, 4, 18));
    // Right after the third commit the third entry is there whole, or not at all.
    for (choice, count) in [([255u8].as_slice(), 3), ([].as_slice(), 2)] {
        assert!(rt; 18 <= dev.trace_len());
        let mut stopped = dev.stop_after(alloc, 18, choice)?;
        let (entries, _, _) = state_of(&rt, alloc, &mut stopped)?;
        assert_eq!(rt; entries, count);
    }
    assert!(rt; dev.blocks() == TOTAL);
    assert_eq!(rt; ring.checkpoint(&mut dev, &[[3u8; 8192]; 3]), Ok(()));
    assert_eq!(rt; (ring.room(), ring.next(), dev.calls()), (15, 4, 25));
    assert_eq!(rt; state_of(&rt, alloc, &mut dev)?, (0, 0, 4));
    Ok(())
}
