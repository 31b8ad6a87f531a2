//! Rings and info blocks that no program of ours wrote.

use crate::base::{GEOMETRY, TOTAL, blocks_with, entry_of, put, replay_of};
use bv_bytes::{crc_more, crc32};
use bv_device::{Block, CallKind, Device, MemDevice};
use bv_entry::{Entry, write_entry};
use bv_replay::{ReplayFault, scan};
use std::alloc::Global;
use std::process::Abort;
use std::test::Fail;

/// The device block of the info block.
const INFO: usize = 3;

/// Whether a scan of a device of these blocks is refused by the info block.
fn is_refused<R: Abort>(rt: &R, alloc: Global, blocks: Vec<Block>) -> bool {
    let mut dev = MemDevice::from_blocks(alloc, blocks);
    assert_eq!(rt; dev.blocks(), TOTAL);
    matches!(scan(alloc, &mut dev, GEOMETRY), Err(ReplayFault::Info(_)))
}

#[test]
fn an_info_block_with_a_changed_byte_is_refused(rt: HostRuntime) -> Result<(), Fail> {
    let alloc = rt.alloc();
    let mut offset: usize = 0;
    // Each byte of the rows, and some of the zeros behind them.
    for step in 0..100u64 {
        let mut blocks = blocks_with(alloc, 5, 7)?;
        if let Some(info) = blocks.get_mut(INFO) {
            if let Some(byte) = info.get_mut(offset) {
                *byte ^= 1;
            }
        }
        assert!(rt; is_refused(&rt, alloc, blocks), "{offset}");
        offset = offset.saturating_add(if step < 40 { 1 } else { 137 });
    }
    assert!(rt; 8192 < offset);
    Ok(())
}

/// A device whose ring has nothing but headers with the largest count, all with the next number.
fn headers(alloc: Global) -> Result<MemDevice, Fail> {
    let mut blocks = blocks_with(alloc, 0, 7)?;
    let entry = entry_of(alloc, 7, 5)?;
    for slot in 0..15usize {
        put(&mut blocks, &[slot], &entry);
    }
    for block in blocks.iter_mut().skip(4).take(15) {
        block[32] = 3;
    }
    Ok(MemDevice::from_blocks(alloc, blocks))
}

#[test]
fn a_ring_of_headers_alone_is_read_once_around(rt: HostRuntime) -> Result<(), Fail> {
    let alloc = rt.alloc();
    let mut dev = headers(alloc)?;
    // The info block, the five blocks that the first header asks for, and each of 15 slots: no read
    // comes after these.
    dev.fail(alloc, CallKind::Read, 22)?;
    assert_eq!(rt; dev.blocks(), TOTAL);
    let replay = scan(alloc, &mut dev, GEOMETRY).ok().ok_or("a replay")?;
    assert_eq!(rt;
        (replay.entries.len(), replay.next_slot, replay.next_number),
        (0, 0, 7)
    );
    assert_eq!(rt; replay.stale.len(), 15);
    let mut block = [0; 8192];
    assert!(rt; dev.blocks() == TOTAL);
    assert!(rt; dev.read(0, &mut block).is_err());
    Ok(())
}

/// The magic of headers and commits as it is stored.
const MAGIC: [u8; 8] = [0x79, 0x72, 0x74, 0x6e, 0x62, 0x6f, 0x6c, 0x62];

/// A block of an entry, an offset, and what stands there in place of what should.
type Wrong<'a> = (usize, usize, &'a [u8]);

/// What is wrong with an entry of number 7 that names metadata blocks 0 and 1 of three, and the slots
/// that are stale then. Its checksum is right.
const WRONG: [(Wrong, &[u64]); 17] = [
    // The magic, the number, the kind and the reserved row of the header.
    ((0, 0, &[0x78]), &[3]),
    ((0, 8, &[8]), &[0, 3]),
    ((0, 16, &[2]), &[0, 3]),
    ((0, 24, &[1]), &[0, 3]),
    // No payload, and more than there are metadata blocks.
    ((0, 32, &[0]), &[0, 3]),
    ((0, 32, &[4]), &[0, 3]),
    // A target out of range, two that don't rise, and one behind the last.
    ((0, 48, &[3]), &[0, 3]),
    ((0, 48, &[0]), &[0, 3]),
    ((0, 56, &[2]), &[0, 3]),
    // A flag that is no flag, one of a payload that doesn't begin with zeros, one behind the last, and
    // a payload that begins with the magic.
    ((0, 5472, &[2]), &[0, 3]),
    ((0, 5476, &[1]), &[0, 3]),
    ((0, 5480, &[1]), &[0, 3]),
    ((1, 0, &MAGIC), &[0, 1, 3]),
    // The last row of the header.
    ((0, 8188, &[1]), &[0, 3]),
    // The number, the kind and the zeros of the commit.
    ((3, 8, &[6]), &[0]),
    ((3, 16, &[1]), &[0, 3]),
    ((3, 8191, &[1]), &[0, 3]),
];

/// The blocks of that entry.
fn two_payloads(alloc: Global) -> Result<Vec<Block>, Fail> {
    let targets = vec![in alloc; (0, [5; 8192]), (1, [6; 8192])]?;
    Ok(write_entry(alloc, &Entry::new(7, targets), 3)?)
}

/// Puts what is wrong into an entry, and stores the checksum of what then stands before the commit.
fn spoil(entry: &mut [Block], wrong: Wrong) {
    let (at, offset, bytes) = wrong;
    if let Some(block) = entry.get_mut(at) {
        for (place, byte) in block.iter_mut().skip(offset).zip(bytes) {
            *place = *byte;
        }
    }
    if let [header, first, second, commit] = entry {
        let sum = crc_more(crc_more(crc32(header), first), second);
        commit[32..36].copy_from_slice(&sum.to_le_bytes());
    }
}

/// How many entries a scan finds where the ring has these blocks, and the stale slots.
fn found_with<R: Abort>(rt: &R, alloc: Global, entry: &[Block]) -> Result<(usize, Vec<u64>), Fail> {
    let mut blocks = blocks_with(alloc, 0, 7)?;
    put(&mut blocks, &[0, 1, 2, 3], entry);
    let replay = replay_of(rt, alloc, &mut MemDevice::from_blocks(alloc, blocks))?;
    Ok((replay.entries.len(), replay.stale))
}

#[test]
fn an_entry_that_is_wrong_in_one_thing_is_none(rt: HostRuntime) -> Result<(), Fail> {
    let alloc = rt.alloc();
    let whole = two_payloads(alloc)?;
    let (count, stale) = found_with(&rt, alloc, &whole)?;
    assert_eq!(rt; (count, stale.len()), (1, 0));
    for (wrong, slots) in WRONG {
        let mut entry = two_payloads(alloc)?;
        spoil(&mut entry, wrong);
        let (count, stale) = found_with(&rt, alloc, &entry)?;
        assert_eq!(rt; (count, stale.as_slice()), (0, slots), "{wrong:?}");
    }
    Ok(())
}

#[test]
fn an_entry_with_another_checksum_is_none(rt: HostRuntime) -> Result<(), Fail> {
    let alloc = rt.alloc();
    for at in 0..4u8 {
        let mut entry = two_payloads(alloc)?;
        if let Some(commit) = entry.last_mut() {
            commit[32 + usize::from(at)] ^= 1 << at;
        }
        let (count, stale) = found_with(&rt, alloc, &entry)?;
        assert_eq!(rt; (count, stale.as_slice()), (0, [0, 3].as_slice()));
    }
    Ok(())
}
