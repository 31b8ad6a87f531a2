//! Runs of `format` on devices in memory that held another volume, stopped and failed at every
//! call. The bytes of the new volume are the tables', written out by hand; the checksum is zlib's.

use bv_device::{Block, CallKind, Device, Failed, MemDevice};
use bv_format::{FormatFault, format};
use bv_layout::{Geometry, SuperFault, read_super};
use std::alloc::Global;
use std::test::Fail;

/// The superblock of 64 data blocks, 128 nodes and 16 journal blocks with no blob, but its zeros,
/// in version 1.
const SUPER: [u8; 88] = [
    0x62, 0x6c, 0x6f, 0x62, 0x76, 0x6f, 0x6c, 0x00, 0x70, 0x72, 0x6f, 0x66, 0x69, 0x6c, 0x65, 0x31,
    0x01, 0x00, 0x00, 0x00, 0x00, 0x00, 0x00, 0x00, 0x40, 0x00, 0x00, 0x00, 0x00, 0x00, 0x00, 0x00,
    0x80, 0x00, 0x00, 0x00, 0x00, 0x00, 0x00, 0x00, 0x10, 0x00, 0x00, 0x00, 0x00, 0x00, 0x00, 0x00,
    0x01, 0x00, 0x00, 0x00, 0x00, 0x00, 0x00, 0x00, 0x01, 0x00, 0x00, 0x00, 0x00, 0x00, 0x00, 0x00,
    0x00, 0x00, 0x00, 0x00, 0x00, 0x00, 0x00, 0x00, 0x01, 0x00, 0x00, 0x00, 0x00, 0x00, 0x00, 0x00,
    0x00, 0x00, 0x00, 0x00, 0x00, 0x00, 0x00, 0x00,
];

/// The info block of an empty journal whose first entry will have number 1, but its zeros.
const INFO: [u8; 36] = [
    0x6c, 0x6e, 0x72, 0x6a, 0x62, 0x6f, 0x6c, 0x62, 0x00, 0x00, 0x00, 0x00, 0x00, 0x00, 0x00, 0x00,
    0x00, 0x00, 0x00, 0x00, 0x00, 0x00, 0x00, 0x00, 0x01, 0x00, 0x00, 0x00, 0x00, 0x00, 0x00, 0x00,
    0x3e, 0xc0, 0xc5, 0x91,
];

/// What a stop may leave.
#[derive(Clone, Copy, Debug, PartialEq, Eq)]
enum Left {
    OldHead,
    NoHead,
    NewVolume,
}

fn geometry(version: u32, blocks: u64, nodes: u64, journal: u64) -> Geometry {
    Geometry {
        blocks,
        nodes,
        journal,
        version,
    }
}

/// The geometry that is formatted in most rows. It takes 83 blocks.
fn wanted(version: u8) -> Geometry {
    geometry(u32::from(version), 64, 128, 16)
}

/// Block `at` of the new volume, for a block before the first data block.
fn new_block(at: u64, version: u8) -> Block {
    let mut block = [0; 8192];
    match at {
        0 => {
            block[..88].copy_from_slice(&SUPER);
            block[16] = version;
        }
        1 => block[0] = 1,
        3 => block[..36].copy_from_slice(&INFO),
        _ => {}
    }
    block
}

/// The superblock of the volume that stood there before: 32 data blocks and 8 journal blocks.
fn old_super() -> Block {
    let mut block = new_block(0, 1);
    block[24] = 32;
    block[40] = 8;
    block
}

/// The first sector of a block.
fn head(block: &Block) -> [u8; 512] {
    let mut head = [0; 512];
    head.copy_from_slice(&block[..512]);
    head
}

/// A device of 83 blocks with another volume's head, all other bytes 0xaa, and one failed call.
fn device(alloc: Global) -> Result<MemDevice, Fail> {
    let mut blocks = vec![in alloc; [0xaau8; 8192]; 83]?;
    if let Some(first) = blocks.first_mut() {
        *first = old_super();
    }
    let mut dev = MemDevice::from_blocks(alloc, blocks);
    dev.fail(alloc, CallKind::Read, 1)?;
    let _ = get(&mut dev, 0);
    Ok(dev)
}

/// Reads a block; an error where there is none.
fn get(dev: &mut MemDevice, at: u64) -> Result<Block, Failed> {
    let mut block = [0u8; 8192];
    if at < dev.blocks() {
        dev.read(at, &mut block)?;
        return Ok(block);
    }
    Err(Failed)
}

/// Which of the three cases a device holds, if it is one of them.
fn case_of(dev: &mut MemDevice, version: u8) -> Result<Option<Left>, Failed> {
    let block = get(dev, 0)?;
    if head(&block) == head(&old_super()) {
        return Ok(Some(Left::OldHead));
    }
    let read = read_super(&block, 83);
    if head(&block) == [0; 512] && read == Err(SuperFault::Magic) {
        return Ok(Some(Left::NoHead));
    }
    if read.map(|sup| sup.geometry) != Ok(wanted(version)) {
        return Ok(None);
    }
    for at in 0..19 {
        if get(dev, at)? != new_block(at, version) {
            return Ok(None);
        }
    }
    Ok(Some(Left::NewVolume))
}

/// Whether a stop after so many of the 23 events may leave this: the first event writes zeros over
/// the head, the second makes that last, the last but one writes the superblock.
fn may_leave(stop: u64, case: Left) -> bool {
    match case {
        Left::OldHead => stop < 2,
        Left::NoHead => 1 <= stop && stop < 23,
        Left::NewVolume => 22 <= stop,
    }
}

/// The choices of what a stop leaves.
const CHOICES: [&[u8]; 4] = [&[], &[0], &[1], &[255]];

#[test]
fn a_stop_leaves_the_old_head_or_none_or_the_new_volume(rt: HostRuntime) -> Result<(), Fail> {
    let alloc = rt.alloc();
    let mut seen = Vec::new(alloc);
    for version in [1, 2] {
        let geometry = wanted(version);
        let mut dev = device(alloc)?;
        assert!(rt; geometry.version == 1 || geometry.version == 2);
        assert_eq!(rt; format(&mut dev, geometry), Ok(()));
        assert_eq!(rt; (dev.trace_len(), dev.faults()), (23, 1));
        for stop in 0..24 {
            for choice in CHOICES {
                assert!(rt; stop <= dev.trace_len());
                let mut image = dev.stop_after(alloc, stop, choice)?;
                let case = case_of(&mut image, version);
                let fits = matches!(case, Ok(Some(case)) if may_leave(stop, case));
                assert!(rt; fits, "{case:?} after {stop} events, {choice:?}");
                if let Ok(Some(case)) = case {
                    seen.push(case)?;
                }
            }
        }
        assert_eq!(rt; case_of(&mut dev, version), Ok(Some(Left::NewVolume)));
        assert_eq!(rt; get(&mut dev, 19).map(|block| block[0]), Ok(0xaa));
    }
    let count = |case: Left| seen.iter().filter(|left| **left == case).count();
    // of each version: the old head 4 and 2 times, none 2, 20 times 4 and 2, the new volume 2 and 4
    assert_eq!(rt; count(Left::OldHead), 12);
    assert_eq!(rt; count(Left::NoHead), 168);
    assert_eq!(rt; count(Left::NewVolume), 12);
    Ok(())
}

/// Whether call `nth` of the `calls` of its kind may leave this where it fails, or where, past the
/// last, none does. The first write and the first sync come before the first Ok sync, and the last
/// ones make the superblock.
fn may_leave_failed(nth: u64, calls: u64, case: Left) -> bool {
    match case {
        Left::OldHead => nth == 1 && nth <= calls,
        Left::NoHead => nth <= calls,
        Left::NewVolume => calls <= nth,
    }
}

/// The version, a kind of call, and how many of it `format` makes: one past the last never comes.
const CALLS: [(u8, CallKind, u64); 6] = [
    (1, CallKind::Read, 0),
    (1, CallKind::Write, 20),
    (1, CallKind::Sync, 3),
    (2, CallKind::Read, 0),
    (2, CallKind::Write, 20),
    (2, CallKind::Sync, 3),
];

#[test]
fn a_call_that_fails_is_counted_and_leaves_one_of_the_cases(rt: HostRuntime) -> Result<(), Fail> {
    let alloc = rt.alloc();
    let mut seen = Vec::new(alloc);
    for (version, kind, calls) in CALLS {
        for nth in 1..calls + 2 {
            let mut dev = device(alloc)?;
            dev.fail(alloc, kind, nth)?;
            let geometry = wanted(version);
            assert!(rt; geometry.version == 1 || geometry.version == 2);
            let answer = format(&mut dev, geometry);
            let fault = Err(FormatFault::DeviceFault { fault: 2 });
            let due = if nth <= calls { fault } else { Ok(()) };
            assert_eq!(rt; answer, due, "{kind:?} {nth}");
            assert_eq!(rt; dev.faults() == 2, answer.is_err(), "{kind:?} {nth}");
            for choice in CHOICES {
                let mut image = dev.stop_after(alloc, dev.trace_len(), choice)?;
                let case = case_of(&mut image, version);
                let fits = matches!(case, Ok(Some(case)) if may_leave_failed(nth, calls, case));
                assert!(rt; fits, "{kind:?} {nth}, {choice:?}: {case:?}");
                if let Ok(Some(case)) = case {
                    seen.push(case)?;
                }
            }
        }
    }
    let count = |case: Left| seen.iter().filter(|left| **left == case).count();
    // of each version: the old head 2 times at the first write and the first sync; none 4 times at
    // 18 writes and a sync, and 2 times at two of each; the new volume 2 times at the last write
    // and the last sync, and 4 times where nothing fails
    assert_eq!(rt; count(Left::OldHead), 8);
    assert_eq!(rt; count(Left::NoHead), 168);
    assert_eq!(rt; count(Left::NewVolume), 32);
    Ok(())
}
