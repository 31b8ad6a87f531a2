//! Volumes of which the metadata was written over: a blob that is said to be shorter than its tree has
//! it, and a journal whose last number is used.

use crate::runs::{Change, begins, changed, prints};
use bv_device::MemDevice;
use bv_run::Status;
use std::alloc::Global;
use std::process::Abort;
use std::sync::Wait;
use std::test::Fail;
use std::thread::Threads;

/// The blocks of the device: superblock, bitmap, nodes and info block are the first four.
const BLOCKS: u64 = 83;

/// Four blocks of one byte's value. A fifth has their digests.
const ADD: &str = "0 add fill:41:32768";

const OPEN: &str = "0 open 0 fill:41:32768";

/// The size of three blocks: with that of digests they are four, and one extent has as many. One block
/// less is counted and marked as used.
const SHORTER: [Change; 5] = [
    (0, 72, 5),
    (1, 0, 0b1_1111),
    (2, 41, 0x60),
    (2, 48, 4),
    (2, 62, 4),
];

/// The digests come first: the fourth of them stands in an unused place.
const UNUSED_PLACE: &str = "session 0
1 open 0 1785588716ccad7cc285f1a414f8fdd1ddefbb0848db851009cc1f26ae9b5f9b mismatch 1 96 0000000000000000000000000000000000000000000000000000000000000000 454a16aa72ec0ba7cd65a00d59213b7d72614e8645aa7dbe27bcdeb18aced9a4
history
1 0 1 open 0 1785588716ccad7cc285f1a414f8fdd1ddefbb0848db851009cc1f26ae9b5f9b opened 24576 @
2 0 1 fetch 0 0 fetched @
3 0 1 close 0 closed @
4 16 0 unmount unmounted @
";

/// They come last, where the fourth block of data is now, and aren't those of the name.
const BLOCK_OF_DATA: &str = "session 0
1 open 0 1785588716ccad7cc285f1a414f8fdd1ddefbb0848db851009cc1f26ae9b5f9b mismatch 1 0 1785588716ccad7cc285f1a414f8fdd1ddefbb0848db851009cc1f26ae9b5f9b bf828c3031a87628a14705d383184d1c65cd3c4f93e66bdff7872afdaefb8f5c
history
1 0 1 open 0 1785588716ccad7cc285f1a414f8fdd1ddefbb0848db851009cc1f26ae9b5f9b opened 24576 @
2 0 1 fetch 0 0 fetched @
3 0 1 close 0 closed @
4 16 0 unmount unmounted @
";

const DAMAGED: &str = "damaged 1785588716ccad7cc285f1a414f8fdd1ddefbb0848db851009cc1f26ae9b5f9b
faults 1
";

/// The number 2 to the power of 62, and the checksum of a ring that begins at slot 0 with it.
const LAST_NUMBER: [Change; 6] = [
    (3, 24, 0),
    (3, 31, 0x40),
    (3, 32, 0x30),
    (3, 33, 0x81),
    (3, 34, 0xb3),
    (3, 35, 0x2b),
];

const NUMBER_END: &str = "session 0
1 add df6d2bb7dac8a27c99a0ac498fabc106e94eab93dc88d40b2e313aeae33cb5a6 number-end
2 sync synced
history
";

/// The volume that a script leaves, with these bytes in place of what stands there.
fn written_over<R: Abort + Threads + Wait + Sync>(
    rt: &R,
    alloc: Global,
    made: (&str, &str),
    changes: &[Change],
) -> Result<MemDevice, Fail> {
    let dev = MemDevice::new(alloc, BLOCKS)?;
    let mut dev = begins(rt, alloc, dev, made, Status::Ok, "")?;
    let blocks = changed(alloc, &mut dev, BLOCKS, changes)?;
    Ok(MemDevice::from_blocks(alloc, blocks))
}

#[test]
fn a_digest_in_an_unused_place_is_told_and_the_blob_stays_closed(
    rt: HostRuntime,
) -> Result<(), Fail> {
    let alloc = rt.alloc();
    for (volume, text) in [
        ("fresh 64 128 16", UNUSED_PLACE),
        ("fresh2 64 128 16", BLOCK_OF_DATA),
    ] {
        let dev = written_over(&rt, alloc, (volume, ADD), &SHORTER)?;
        let dev = prints(&rt, alloc, dev, ("script", OPEN), Status::Damage, text)?;
        prints(&rt, alloc, dev, ("check", ""), Status::Damage, DAMAGED)?;
    }
    Ok(())
}

#[test]
fn no_entry_has_a_number_past_the_last_and_a_sync_goes_on(rt: HostRuntime) -> Result<(), Fail> {
    let alloc = rt.alloc();
    let script = "0 add hex:6869\n0 sync\n";
    let dev = written_over(&rt, alloc, ("fresh 64 128 16", ""), &LAST_NUMBER)?;
    let dev = begins(&rt, alloc, dev, ("script", script), Status::Ok, NUMBER_END)?;
    prints(&rt, alloc, dev, ("list", ""), Status::Ok, "")?;
    Ok(())
}
