//! Volumes that run full, reads at a blob's end, a sync that fails, and the demonstration.

use crate::runs::{begins, prints};
use bv_device::{CallKind, MemDevice};
use bv_run::Status;
use std::test::Fail;

/// A blob of 62 blocks, whose tree has one, in 63 free ones; and one of one block behind it.
const FULL: &str = "0 add fill:41:507904
0 add hex:00
0 unlink fill:41:507904
0 add hex:00
0 sync
0 add hex:00
";

const FULL_ANSWERS: &str = "session 0
1 add ed32d79ec78a30ea75468e94ba2cee712e284264070b60d10e3e56b69f4b6b74 published
2 add 0c9eefda90e39f8de79af6fe069eda5d43205f7d3e626d5bd80edf7463f3f4a5 no-space 1 0
3 unlink ed32d79ec78a30ea75468e94ba2cee712e284264070b60d10e3e56b69f4b6b74 unlinked
4 add 0c9eefda90e39f8de79af6fe069eda5d43205f7d3e626d5bd80edf7463f3f4a5 no-space 1 0
5 sync synced
6 add 0c9eefda90e39f8de79af6fe069eda5d43205f7d3e626d5bd80edf7463f3f4a5 published
history
";

/// Ranges at the end of a blob, past it, and over the end of a window.
const READS: &str = "0 add seq:0:73728
0 open 0 seq:0:73728
0 read 0 73728 0
0 read 0 100000 5
0 read 0 65534 4
0 scan 0
";

const READS_ANSWERS: &str = "session 0
1 add 2aa6702783790f06dd3a329ae1e9caa91916fca3264ab73971d4e09d57fcca6e published
2 open 0 2aa6702783790f06dd3a329ae1e9caa91916fca3264ab73971d4e09d57fcca6e opened 73728
3 read 0 73728 0 bytes 0
4 read 0 100000 5 bytes 0
5 read 0 65534 4 bytes 4 05060809
6 scan 0 whole 73728
history
";

/// What comes behind the first sync of an add, which fails.
const STOPPED: &str = "0 add hex:6a
0 add hex:6b
0 open 0 hex:6869
0 read 0 0 2
";

const STOPPED_ANSWERS: &str = "session 0
1 add 7287bb0e6f343873c9d2e8d9750709bade01074c6fb338f13975c4986b77e7b9 device-fault 1
2 add c2af245a5ef67770e95f41f56d9b6792ccc3e1a686db913a3b4c2bd11643c1aa stopped 1
3 open 0 df6d2bb7dac8a27c99a0ac498fabc106e94eab93dc88d40b2e313aeae33cb5a6 opened 2
4 read 0 0 2 bytes 2 6869
history
";

/// The report of a volume with this blob.
const CLEAN: &str = "check: clean
blobs 1
bytes 2
stale 0
";

const LIST: &str = "df6d2bb7dac8a27c99a0ac498fabc106e94eab93dc88d40b2e313aeae33cb5a6 2
";

/// A blob of 257 blocks, whose tree has 259 digests: three blocks in version 1, two in version 2.
const LARGE: &str = "0 add seq:0:2097153
0 open 0 seq:0:2097153
0 scan 0
0 read 0 2097152 1
";

const LARGE_ANSWERS: &str = "session 0
1 add 4962e57570f6dd59a5ffed710bf4d82e61d43c3324daea255855114ab0fb9795 published
2 open 0 4962e57570f6dd59a5ffed710bf4d82e61d43c3324daea255855114ab0fb9795 opened 2097153
3 scan 0 whole 2097153
4 read 0 2097152 1 bytes 1 00
history
";

/// Another of that size, and the largest that the room is too small for, and that fits.
const NEWER: &str = "0 add seq:1:2097153
0 open 0 seq:0:2097153
0 scan 0
0 add fill:41:4120576
0 add fill:41:4112384
";

const NEWER_ANSWERS: &str = "session 0
1 add 3d39557ddc2190f158e0b92517d280c27432d3885109caf1b493c546bdc89829 published
2 open 0 4962e57570f6dd59a5ffed710bf4d82e61d43c3324daea255855114ab0fb9795 opened 2097153
3 scan 0 whole 2097153
4 add 13130a55c0765b0cc8151d7c3f105299f0c68e08e7cfaa6639f97ff9d5ea2739 no-space 505 504
5 add 37b6b8d9fa9bbc324c3e4ba3954cfa60ba90311b567229ace6249fa96515b03e published
history
";

const DEMO: &str = "demo 16
adds 128
published 128
purged 64
blobs 64
bytes 3699200
";

#[test]
fn a_full_volume_has_room_again_once_a_purge_is_durable(rt: HostRuntime) -> Result<(), Fail> {
    let alloc = rt.alloc();
    for command in ["fresh 64 128 16", "fresh2 64 128 16"] {
        let dev = MemDevice::new(alloc, 83)?;
        begins(&rt, alloc, dev, (command, FULL), Status::Ok, FULL_ANSWERS)?;
    }
    Ok(())
}

#[test]
fn a_read_is_cut_to_the_blob(rt: HostRuntime) -> Result<(), Fail> {
    let alloc = rt.alloc();
    for command in ["fresh 64 128 16", "fresh2 64 128 16"] {
        let dev = MemDevice::new(alloc, 83)?;
        begins(&rt, alloc, dev, (command, READS), Status::Ok, READS_ANSWERS)?;
    }
    Ok(())
}

#[test]
fn after_a_failed_sync_nothing_is_written_and_reads_go_on(rt: HostRuntime) -> Result<(), Fail> {
    let alloc = rt.alloc();
    let dev = MemDevice::new(alloc, 83)?;
    let made = ("fresh 64 128 16", "0 add hex:6869");
    let dev = begins(&rt, alloc, dev, made, Status::Ok, "session 0")?;
    let mut dev = prints(&rt, alloc, dev, ("check", ""), Status::Ok, CLEAN)?;
    dev.fail(alloc, CallKind::Sync, 1)?;
    let dev = begins(
        &rt,
        alloc,
        dev,
        ("script", STOPPED),
        Status::Device,
        STOPPED_ANSWERS,
    )?;
    prints(&rt, alloc, dev, ("list", ""), Status::Ok, LIST)?;
    Ok(())
}

#[test]
fn the_demonstration_counts_what_it_did(rt: HostRuntime) -> Result<(), Fail> {
    let alloc = rt.alloc();
    let dev = MemDevice::new(alloc, 4200)?;
    prints(&rt, alloc, dev, ("demo 16", ""), Status::Ok, DEMO)?;
    Ok(())
}

#[test]
fn a_blob_of_either_version_is_read_in_a_volume_of_the_newer(rt: HostRuntime) -> Result<(), Fail> {
    let alloc = rt.alloc();
    let dev = MemDevice::new(alloc, 531)?;
    let newest = ("fresh2 512 128 16", LARGE);
    begins(&rt, alloc, dev, newest, Status::Ok, LARGE_ANSWERS)?;
    let dev = MemDevice::new(alloc, 1043)?;
    let old = ("fresh 1024 128 16", LARGE);
    let dev = begins(&rt, alloc, dev, old, Status::Ok, LARGE_ANSWERS)?;
    let dev = prints(&rt, alloc, dev, ("upgrade", ""), Status::Ok, "upgraded 0\n")?;
    begins(
        &rt,
        alloc,
        dev,
        ("script", NEWER),
        Status::Ok,
        NEWER_ANSWERS,
    )?;
    Ok(())
}
