//! What `list`, `check`, `recover` and `upgrade` print of volumes that are whole or wrong in one thing.

use crate::samples::{CLEAN, Held, ROOT, device_of, device_with, prints};
use bv_device::MemDevice;
use bv_serve::Status;
use std::alloc::Global;
use std::process::Abort;
use std::test::Fail;

const MAGIC: &str = "volume: magic\n";

const BIT: &str = "volume: bitmap 5 1\n";

const DAMAGED: &str =
    "damaged df6d2bb7dac8a27c99a0ac498fabc106e94eab93dc88d40b2e313aeae33cb5a6\nfaults 1\n";

#[test]
fn a_volume_is_listed_and_checked_whole_or_damaged(rt: HostRuntime) -> Result<(), Fail> {
    let alloc = rt.alloc();
    let stale = "check: clean\nblobs 0\nbytes 0\nstale 1\n";
    let one = "check: clean\nblobs 1\nbytes 2\nstale 0\n";
    // What is held; the status and the text of `list`; those of `check`.
    let rows = [
        (Held::Zeros, Status::Volume, MAGIC, Status::Volume, MAGIC),
        (Held::Empty, Status::Ok, "", Status::Ok, CLEAN),
        (
            Held::WrongBit,
            Status::Volume,
            BIT,
            Status::Damage,
            "fault: bitmap 5 1\nfaults 1\n",
        ),
        (Held::StaleSlot, Status::Ok, "", Status::Ok, stale),
        (Held::OneBlob, Status::Ok, ROOT, Status::Ok, one),
        (Held::DamagedBlob, Status::Ok, ROOT, Status::Damage, DAMAGED),
    ];
    for (held, listed, list, checked, check) in rows {
        let dev = device_of(alloc, held)?;
        let dev = prints(&rt, alloc, dev, "list", listed, list)?;
        let dev = prints(&rt, alloc, dev, "check", checked, check)?;
        assert_eq!(rt; dev.trace_len(), 0, "{held:?}");
    }
    Ok(())
}

#[test]
fn a_recovery_wipes_stale_slots_and_leaves_the_blobs(rt: HostRuntime) -> Result<(), Fail> {
    let alloc = rt.alloc();
    for (held, status, text) in [
        (Held::Zeros, Status::Volume, MAGIC),
        (Held::WrongBit, Status::Volume, BIT),
        (Held::OneBlob, Status::Ok, "recovered 0\n"),
    ] {
        let dev = device_of(alloc, held)?;
        let dev = prints(&rt, alloc, dev, "recover", status, text)?;
        assert_eq!(rt; dev.trace_len(), 0, "{held:?}");
    }
    let dev = device_of(alloc, Held::StaleSlot)?;
    let dev = prints(&rt, alloc, dev, "recover", Status::Ok, "recovered 0\n")?;
    assert!(rt; dev.trace_len() > 0);
    let _ = prints(&rt, alloc, dev, "check", Status::Ok, CLEAN)?;
    Ok(())
}

/// What a check prints of a node that can't be read, behind the line of the node itself.
const LOST: &str =
    "fault: bitmap 1 1\nfault: count blobs 1 0\nfault: count used-blocks 2 1\nfault: count used-nodes 1 0\nfaults 5\n";

/// A device with one byte changed, on which each command but `check` prints this line.
fn is_refused<R: Abort>(
    rt: &R,
    alloc: Global,
    version: u8,
    change: (u64, usize, u8),
    line: &str,
) -> Result<MemDevice, Fail> {
    let dev = device_with(alloc, Held::OneBlob, version, change)?;
    let dev = prints(rt, alloc, dev, "list", Status::Volume, line)?;
    let dev = prints(rt, alloc, dev, "recover", Status::Volume, line)?;
    let dev = prints(rt, alloc, dev, "upgrade", Status::Volume, line)?;
    assert_eq!(rt; dev.trace_len(), 0, "{line}");
    Ok(dev)
}

#[test]
fn a_wrong_byte_is_refused_by_the_first_condition_that_fails(rt: HostRuntime) -> Result<(), Fail> {
    let alloc = rt.alloc();
    // The byte that is changed; the line of every command.
    let rows = [
        ((0, 3, 0), "volume: magic\n"),
        ((0, 15, 0), "volume: magic\n"),
        ((0, 16, 3), "volume: version 3\n"),
        ((0, 24, 1), "volume: counts blocks 1\n"),
        ((0, 32, 127), "volume: counts nodes 127\n"),
        ((0, 40, 5), "volume: counts journal 5\n"),
        ((0, 48, 2), "volume: counts bitmap-blocks 2\n"),
        ((0, 56, 2), "volume: counts node-blocks 2\n"),
        ((0, 64, 129), "volume: counts blobs 129\n"),
        ((0, 72, 0), "volume: counts used-blocks 0\n"),
        ((0, 80, 129), "volume: counts used-nodes 129\n"),
        ((0, 22, 1), "volume: zero 22\n"),
        ((0, 8191, 1), "volume: zero 8191\n"),
        ((0, 41, 1), "volume: short 339 83\n"),
        ((3, 0, 0), "volume: info magic\n"),
        ((3, 32, 0), "volume: info checksum\n"),
        ((3, 36, 1), "volume: info zero\n"),
    ];
    for (change, line) in rows {
        for version in [1, 2] {
            let dev = is_refused(&rt, alloc, version, change, line)?;
            let _ = prints(&rt, alloc, dev, "check", Status::Volume, line)?;
        }
    }
    // The same, of metadata that isn't well formed; what a check prints first, and then.
    let rows = [
        ((1, 0, 7), "bitmap 2 1\n", "faults 1\n"),
        ((1, 0, 1), "bitmap 1 0\n", "faults 1\n"),
        ((1, 8191, 128), "bitmap 65535 1\n", "faults 1\n"),
        ((0, 64, 2), "count blobs 2 1\n", "faults 1\n"),
        ((0, 72, 3), "count used-blocks 3 2\n", "faults 1\n"),
        ((0, 80, 2), "count used-nodes 2 1\n", "faults 1\n"),
        ((2, 128, 2), "node 2 flags 2\n", "faults 1\n"),
        ((2, 138, 1), "node 2 zero 10\n", "faults 1\n"),
        ((2, 2, 3), "node 0 version 3\n", LOST),
        ((2, 48, 2), "node 0 count 2 1\n", LOST),
        ((2, 56, 0), "node 0 extent 0 0\n", LOST),
        ((2, 4, 5), "node 0 link 0\n", LOST),
    ];
    for (change, what, rest) in rows {
        let line = format!(in alloc; "volume: {what}")?;
        let report = format!(in alloc; "fault: {what}{rest}")?;
        for version in [1, 2] {
            let dev = is_refused(&rt, alloc, version, change, line.as_str())?;
            let _ = prints(&rt, alloc, dev, "check", Status::Damage, report.as_str())?;
        }
    }
    Ok(())
}
