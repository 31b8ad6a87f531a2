//! Blobs of sizes at which the layout changes, in both versions, and on a volume that became one of
//! version 2.

use crate::answers::{Answer, have_answered};
use crate::device::{Left, leaves, made_with};
use bv_device::MemDevice;
use bv_io::NoGate;
use bv_model::History;
use bv_mount::upgrade;
use spec_core::Act;
use spec_record::Geometry;
use std::alloc::Global;
use std::process::Abort;
use std::sync::Wait;
use std::test::Fail;
use std::thread::Threads;

/// Blobs of one byte more than a tree of one level holds, of which version 1 pads both levels to
/// blocks, and version 2 their digests together.
const TWO_LEVELS: &[u8] = b"0 add seq:0:2097153
0 open 0 seq:0:2097153
0 scan 0
0 read 0 2097152 1
";

const TWO_LEVELS_ANSWERS: [Answer; 4] = [
    ("published", 0),
    ("opened", 2_097_153),
    ("whole", 2_097_153),
    ("bytes", 1),
];

/// What comes once a volume with the blob became one of version 2: of 1,023 free blocks it has 260,
/// and the first add takes 259.
const UPGRADED: &[u8] = b"0 add seq:1:2097153
0 open 0 seq:0:2097153
0 scan 0
0 add fill:41:4120576
0 add fill:41:4112384
";

const UPGRADED_ANSWERS: [Answer; 5] = [
    ("published", 0),
    ("opened", 2_097_153),
    ("whole", 2_097_153),
    ("no-space", 505),
    ("published", 0),
];

/// As many bytes as a script names at most.
const LARGEST: &[u8] = b"0 add fill:41:4194304
0 open 0 fill:41:4194304
0 scan 0
";

const LARGEST_ANSWERS: [Answer; 3] = [
    ("published", 0),
    ("opened", 4_194_304),
    ("whole", 4_194_304),
];

/// A device that has just the blocks of a volume with so many data blocks: with 3 of metadata and 16
/// of the journal.
fn large<R: Abort>(rt: &R, alloc: Global, blocks: u64, version: u32) -> Result<MemDevice, Fail> {
    let geometry = Geometry {
        blocks,
        nodes: 128,
        journal: 16,
        version,
    };
    made_with(rt, alloc, blocks.saturating_add(19), geometry)
}

/// How many blocks were put.
fn count_puts(history: &History) -> u64 {
    let mut puts = 0u64;
    for event in history.events() {
        if let Act::Put { .. } = event.act {
            puts = puts.saturating_add(1);
        }
    }
    puts
}

/// Runs a script whose lines answer this, and which puts so many blocks.
fn goes<R: Abort + Threads + Wait + Sync>(
    rt: &R,
    alloc: Global,
    dev: MemDevice,
    script: &[u8],
    wanted: &[Answer],
    puts: u64,
) -> Result<MemDevice, Fail> {
    let Left { history, ends, dev } = leaves(rt, alloc, dev, script, &NoGate)?;
    have_answered(rt, &ends, wanted);
    assert_eq!(rt; count_puts(&history), puts);
    Ok(dev)
}

#[test]
fn a_tree_of_two_levels_takes_the_blocks_of_its_version(rt: HostRuntime) -> Result<(), Fail> {
    let alloc = rt.alloc();
    for (version, puts) in [(1, 260), (2, 259)] {
        let dev = large(&rt, alloc, 512, version)?;
        goes(&rt, alloc, dev, TWO_LEVELS, &TWO_LEVELS_ANSWERS, puts)?;
    }
    Ok(())
}

#[test]
fn a_blob_of_version_1_stays_beside_new_ones_of_version_2(rt: HostRuntime) -> Result<(), Fail> {
    let alloc = rt.alloc();
    let dev = large(&rt, alloc, 1024, 1)?;
    let mut dev = goes(&rt, alloc, dev, TWO_LEVELS, &TWO_LEVELS_ANSWERS, 260)?;
    assert!(rt; upgrade(alloc, &mut dev).is_ok());
    goes(&rt, alloc, dev, UPGRADED, &UPGRADED_ANSWERS, 259 + 504)?;
    Ok(())
}

#[test]
fn the_largest_blob_of_a_script_is_added_and_scanned(rt: HostRuntime) -> Result<(), Fail> {
    let alloc = rt.alloc();
    // 512 data blocks, and in version 1 two of the first level and one of the second.
    for version in [1, 2] {
        let dev = large(&rt, alloc, 516, version)?;
        goes(&rt, alloc, dev, LARGEST, &LARGEST_ANSWERS, 515)?;
    }
    Ok(())
}
