//! What the commands that run sessions print, and at which status.

use crate::runs::prints;
use crate::texts::{
    EMPTY_BLOB, EMPTY_SCRIPT, KEPT_PAGES, LEAVING_ROOT, NO_NEWLINE, SLOT_REFUSALS, STORED_RUN,
    USAGE,
};
use bv_device::MemDevice;
use bv_run::Status;
use std::test::Fail;

/// The words that make a volume which needs 83 blocks: 3 of metadata, 16 of the journal and 64 of data.
const FRESH: &str = "fresh 64 128 16";

/// The report of a volume whose only blob was purged.
const CLEAN: &str = "check: clean
blobs 0
bytes 0
stale 0
";

#[test]
fn each_line_has_its_answer_and_each_event_its_line(rt: HostRuntime) -> Result<(), Fail> {
    let alloc = rt.alloc();
    let dev = prints(
        &rt,
        alloc,
        MemDevice::new(alloc, 83)?,
        (
            FRESH,
            "0 add hex:6869
0 open 0 hex:6869
0 read 0 0 2
0 unlink hex:6869
0 read 0 0 2
0 close 0
0 sync
0 list
",
        ),
        Status::Ok,
        STORED_RUN,
    )?;
    prints(&rt, alloc, dev, ("check", ""), Status::Ok, CLEAN)?;
    prints(
        &rt,
        alloc,
        MemDevice::new(alloc, 83)?,
        (
            FRESH,
            "0 add hex:
0 open 3 hex:
0 read 3 0 10
0 list
",
        ),
        Status::Ok,
        EMPTY_BLOB,
    )?;
    prints(
        &rt,
        alloc,
        MemDevice::new(alloc, 83)?,
        (FRESH, "0 sync"),
        Status::Ok,
        NO_NEWLINE,
    )?;
    prints(
        &rt,
        alloc,
        MemDevice::new(alloc, 83)?,
        (FRESH, ""),
        Status::Ok,
        EMPTY_SCRIPT,
    )?;
    Ok(())
}

#[test]
fn a_blob_that_leaves_and_a_slot_that_is_taken_are_refused(rt: HostRuntime) -> Result<(), Fail> {
    let alloc = rt.alloc();
    prints(
        &rt,
        alloc,
        MemDevice::new(alloc, 83)?,
        (
            FRESH,
            "0 add hex:6869
0 open 0 hex:6869
0 open 0 hex:6869
0 open 1 hex:6a
0 read 5 0 1
0 close 5
0 unlink hex:6a
",
        ),
        Status::Ok,
        SLOT_REFUSALS,
    )?;
    prints(
        &rt,
        alloc,
        MemDevice::new(alloc, 83)?,
        (
            FRESH,
            "0 add hex:6869
0 add hex:6869
0 open 0 hex:6869
0 unlink hex:6869
0 add hex:6869
0 close 0
0 add hex:6869
0 sync
0 add hex:6869
",
        ),
        Status::Ok,
        LEAVING_ROOT,
    )?;
    Ok(())
}

#[test]
fn no_window_of_a_blob_that_was_closed_is_fetched_again(rt: HostRuntime) -> Result<(), Fail> {
    let alloc = rt.alloc();
    prints(
        &rt,
        alloc,
        MemDevice::new(alloc, 83)?,
        (
            FRESH,
            "0 add seq:0:73728
0 open 0 seq:0:73728
0 scan 0
0 close 0
0 open 1 seq:0:73728
0 scan 1
",
        ),
        Status::Ok,
        KEPT_PAGES,
    )?;
    Ok(())
}

#[test]
fn a_run_that_does_not_begin_prints_one_line(rt: HostRuntime) -> Result<(), Fail> {
    let alloc = rt.alloc();
    prints(
        &rt,
        alloc,
        MemDevice::new(alloc, 83)?,
        (FRESH, "0 frob"),
        Status::Input,
        "script: line 1: command
",
    )?;
    prints(
        &rt,
        alloc,
        MemDevice::new(alloc, 83)?,
        ("fresh 64 128", ""),
        Status::Usage,
        USAGE,
    )?;
    prints(
        &rt,
        alloc,
        MemDevice::new(alloc, 83)?,
        ("demo 0", ""),
        Status::Usage,
        USAGE,
    )?;
    prints(
        &rt,
        alloc,
        MemDevice::new(alloc, 83)?,
        (
            "script",
            "0 sync
",
        ),
        Status::Volume,
        "volume: magic
",
    )?;
    prints(
        &rt,
        alloc,
        MemDevice::new(alloc, 83)?,
        (
            "fresh 64 128 4",
            "0 sync
",
        ),
        Status::Volume,
        "volume: counts journal 4
",
    )?;
    prints(
        &rt,
        alloc,
        MemDevice::new(alloc, 82)?,
        (
            FRESH,
            "0 sync
",
        ),
        Status::Volume,
        "volume: short 83 82
",
    )?;
    Ok(())
}
