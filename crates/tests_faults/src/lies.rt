//! Devices whose reads lie, one read after another, under the commands that read a volume.

use crate::runs::{STORED, TOTAL, blocks_of, runs};
use bv_device::{Block, Device, Lie, LyingDevice, MemDevice};
use bv_run::Status;
use std::alloc::Global;
use std::process::Abort;
use std::sync::Wait;
use std::test::Fail;
use std::thread::Threads;

/// No command here makes so many reads.
const MOST: u64 = 28;

/// The blob is opened, read and scanned.
const READS: &str = "0 open 0 hex:6869\n0 read 0 0 2\n0 scan 0\n";

/// The line of a read that gives bytes begins so, and is this.
const GIVES: &[u8] = b"2 read 0 0 2 bytes";

const BYTES: &[u8] = b"2 read 0 0 2 bytes 2 6869";

/// The blocks of a volume with the blob, or of one from which it was removed.
fn held<R: Abort + Threads + Wait + Sync>(
    rt: &R,
    alloc: Global,
    script: &str,
) -> Result<Vec<Block>, Fail> {
    let dev = MemDevice::new(alloc, TOTAL)?;
    let (ended, _, mut dev) = runs(rt, alloc, "fresh 64 128 16", dev, script)?;
    assert_eq!(rt; ended, Status::Ok);
    Ok(blocks_of(alloc, &mut dev)?)
}

/// A command over these blocks where one read gives such bytes alone: how it ended, and whether it
/// printed what it prints without a lie. No bytes but the blob's own are printed.
fn ends<R: Abort + Threads + Wait + Sync>(
    rt: &R,
    alloc: Global,
    blocks: &Vec<Block>,
    word: &str,
    lie: Lie,
    honest: &[u8],
) -> Result<(Status, bool), Fail> {
    let dev = LyingDevice::new(alloc, blocks.clone()?, vec![in alloc; lie]?);
    let (ended, sink, dev) = runs(rt, alloc, word, dev, READS)?;
    assert_eq!(rt; dev.faults(), 0);
    for line in sink.bytes().split(|byte| *byte == b'\n') {
        assert!(rt;
            !line.starts_with(GIVES) || line == BYTES,
            "{word} {}",
            lie.call
        );
    }
    Ok((ended, sink.bytes() == honest))
}

/// The ends of a command, each of its reads lying in turn, and whether it printed all the same.
fn seen<R: Abort + Threads + Wait + Sync>(
    rt: &R,
    alloc: Global,
    blocks: &Vec<Block>,
    word: &str,
    byte: u8,
) -> Result<Vec<(Status, bool)>, Fail> {
    let honest = LyingDevice::new(alloc, blocks.clone()?, Vec::new(alloc));
    let (_, sink, _) = runs(rt, alloc, word, honest, READS)?;
    let mut seen = Vec::new(alloc);
    let mut last = (Status::Memory, false);
    for call in 1..MOST {
        let lie = Lie {
            call,
            bytes: [byte; 8192],
        };
        last = ends(rt, alloc, blocks, word, lie, sink.bytes())?;
        if !seen.contains(&last) {
            seen.push(last)?;
        }
    }
    // The last lie is never told.
    assert!(rt; last.1, "{word}");
    Ok(seen)
}

#[test]
fn a_lie_is_found_or_no_byte_of_it_is_printed(rt: HostRuntime) -> Result<(), Fail> {
    let alloc = rt.alloc();
    let blocks = held(&rt, alloc, "0 add hex:6869")?;
    for (word, damage) in [("list", false), ("check", true), ("script", true)] {
        for byte in [0, 255] {
            let seen = seen(&rt, alloc, &blocks, word, byte)?;
            for (ended, _) in &seen {
                let is_lawful = matches!(ended, Status::Ok | Status::Volume)
                    || (damage && *ended == Status::Damage);
                assert!(rt; is_lawful, "{word} {ended:?}");
            }
            for end in [(Status::Ok, true), (Status::Volume, false)] {
                assert!(rt; seen.contains(&end), "{word} {end:?}");
            }
            assert_eq!(rt; seen.contains(&(Status::Damage, false)), damage, "{word}");
        }
    }
    Ok(())
}

#[test]
fn a_lie_about_an_empty_volume_is_found_or_changes_nothing(rt: HostRuntime) -> Result<(), Fail> {
    let alloc = rt.alloc();
    let blocks = held(&rt, alloc, STORED)?;
    for byte in [0, 255] {
        let seen = seen(&rt, alloc, &blocks, "check", byte)?;
        assert!(rt; seen.contains(&(Status::Volume, false)), "{byte}");
        assert!(rt; seen.contains(&(Status::Damage, false)), "{byte}");
    }
    Ok(())
}
