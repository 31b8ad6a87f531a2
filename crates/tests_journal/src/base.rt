//! A volume of 83 blocks whose journal has 15 slots, and entries for it.

ghost use Rattle.std.specs.Prelude.{◌^◌, ◌-◌};
ghost use Rattle.spec_record.specs.Tests.{IsBetween};

use bv_device::{Block, Device, MemDevice};
use bv_entry::{Entry, Info, write_entry, write_info};
use bv_layout::Geometry;
use bv_replay::{Replay, recover, scan};
use std::alloc::{AllocError, Global};
use std::process::Abort;
use std::test::Fail;

/// 64 data blocks, 128 nodes and 16 journal blocks: 3 metadata blocks, the info block, 15 slots.
pub const GEOMETRY: Geometry = Geometry {
    blocks: 64,
    nodes: 128,
    journal: 16,
    version: 1,
};

/// The blocks that the volume needs.
pub const TOTAL: u64 = 83;

/// The device block of slot 0.
const RING: usize = 4;

/// What a stop may leave of the events that aren't synced: none of them, said in two ways, all, or
/// every sector but the first.
pub const CHOICES: [&[u8]; 4] = [&[], &[0], &[255], &[0, 255]];

/// Entries, the next slot and the next number.
pub type State = (usize, u64, u64);

/// The blocks of a device whose journal is empty and begins at this slot with this number. All its
/// metadata is zero.
pub fn blocks_with(alloc: Global, start: u64, number: u64) -> Result<Vec<Block>, AllocError>
    requires { IsBetween 1 number (2 ^ 62) }
{
    let mut blocks = vec![in alloc; [0u8; 8192]; 83]?;
    if let Some(info) = blocks.get_mut(3) {
        *info = write_info(&Info { start, number });
    }
    Ok(blocks)
}

/// The three blocks of an entry that puts a block of one byte over metadata block 0.
pub fn entry_of(alloc: Global, number: u64, byte: u8) -> Result<Vec<Block>, AllocError>
    requires { IsBetween 1 number (2 ^ 62 - 1) }
{
    let targets = vec![in alloc; (0, [byte; 8192])]?;
    write_entry(alloc, &Entry::new(number, targets), 3)
}

/// Puts an entry's blocks at these slots, as many as there are slots.
pub fn put(blocks: &mut [Block], slots: &[usize], entry: &[Block]) {
    for (slot, block) in slots.iter().zip(entry) {
        if let Some(place) = blocks.get_mut(RING.saturating_add(*slot)) {
            *place = *block;
        }
    }
}

/// What a scan finds.
pub fn replay_of<R: Abort>(rt: &R, alloc: Global, dev: &mut MemDevice) -> Result<Replay, Fail> {
    assert_eq!(rt; dev.blocks(), TOTAL);
    let replay = scan(alloc, dev, GEOMETRY).ok().ok_or("a replay")?;
    Ok(replay)
}

/// In short.
pub fn state_of<R: Abort>(rt: &R, alloc: Global, dev: &mut MemDevice) -> Result<State, Fail> {
    let replay = replay_of(rt, alloc, dev)?;
    Ok((replay.entries.len(), replay.next_slot, replay.next_number))
}

/// Recovers what is there.
pub fn recovered<R: Abort>(rt: &R, alloc: Global, dev: &mut MemDevice) -> Result<(), Fail> {
    assert!(rt; dev.blocks() == TOTAL);
    let replay = scan(alloc, dev, GEOMETRY).ok().ok_or("a replay")?;
    assert_eq!(rt; recover(dev, GEOMETRY, &replay), Ok(()));
    Ok(())
}
