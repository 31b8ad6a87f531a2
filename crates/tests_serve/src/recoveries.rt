//! What `recover` and `upgrade` leave: at their end, where they are stopped, and where a call fails.

use crate::samples::{CLEAN, Held, ROOT, device_of, done, prints};
use bv_device::{CallKind, Device, MemDevice};
use bv_serve::Status;
use std::alloc::Global;
use std::process::Abort;
use std::test::Fail;

/// What a stop takes of each sector: what was synced, or what was written last.
const CHOICES: [&[u8]; 2] = [&[], &[255]];

const FAULT: &str = "device: fault\n";

/// Whether block 0 says that the version is 2.
fn is_newest(dev: &mut MemDevice) -> bool {
    let mut block = [0; 8192];
    dev.blocks() > 0 && dev.read(0, &mut block).is_ok() && block[16] == 2
}

/// One command that ends well and prints this.
fn goes_well<R: Abort>(
    rt: &R,
    alloc: Global,
    dev: MemDevice,
    run: (&str, &str),
) -> Result<MemDevice, Fail> {
    prints(rt, alloc, dev, run.0, Status::Ok, run.1)
}

#[test]
fn an_entry_is_replayed_once_and_the_version_becomes_2(rt: HostRuntime) -> Result<(), Fail> {
    let alloc = rt.alloc();
    let torn = "check: clean\nblobs 0\nbytes 0\nstale 2\n";
    // What is held; four commands one after another, each with what it prints.
    let rows = [
        (
            Held::Pending,
            ("recover", "recovered 1\n"),
            ("recover", "recovered 0\n"),
            ("list", ROOT),
            ("upgrade", "upgraded 0\n"),
        ),
        (
            Held::Pending,
            ("upgrade", "upgraded 1\n"),
            ("recover", "recovered 0\n"),
            ("list", ROOT),
            ("upgrade", "upgraded 0\n"),
        ),
        (
            Held::Torn,
            ("check", torn),
            ("recover", "recovered 0\n"),
            ("check", CLEAN),
            ("upgrade", "upgraded 0\n"),
        ),
        (
            Held::OneBlob,
            ("upgrade", "upgraded 0\n"),
            ("list", ROOT),
            ("upgrade", "upgraded 0\n"),
            ("recover", "recovered 0\n"),
        ),
    ];
    for (held, first, second, third, fourth) in rows {
        let dev = device_of(alloc, held)?;
        let dev = goes_well(&rt, alloc, dev, first)?;
        let dev = goes_well(&rt, alloc, dev, second)?;
        let dev = goes_well(&rt, alloc, dev, third)?;
        let mut dev = goes_well(&rt, alloc, dev, fourth)?;
        assert!(rt; is_newest(&mut dev), "{held:?}");
    }
    Ok(())
}

/// Each stop of what was done to a device leaves the blob, and so does the recovery behind it.
fn stops_keep_the_blob<R: Abort>(rt: &R, alloc: Global, dev: &MemDevice) -> Result<(), Fail> {
    for stop in 0..=dev.trace_len() {
        for choice in CHOICES {
            assert!(rt; stop <= dev.trace_len());
            let left = dev.stop_after(alloc, stop, choice)?;
            let left = prints(rt, alloc, left, "list", Status::Ok, ROOT)?;
            let (ended, _, left) = done(alloc, left, "recover")?;
            assert_eq!(rt; ended, Status::Ok, "{stop}");
            let _ = prints(rt, alloc, left, "list", Status::Ok, ROOT)?;
        }
    }
    Ok(())
}

/// A device that a stop left has the blob, and the command done again ends well on it. Says whether
/// the stop left version 2, and gives the device back.
fn goes_on<R: Abort>(
    rt: &R,
    alloc: Global,
    dev: MemDevice,
    word: &str,
) -> Result<(bool, MemDevice), Fail> {
    let mut dev = prints(rt, alloc, dev, "list", Status::Ok, ROOT)?;
    let newest = is_newest(&mut dev);
    let (ended, _, dev) = done(alloc, dev, word)?;
    assert_eq!(rt; ended, Status::Ok, "{word}");
    Ok((newest, dev))
}

#[test]
fn a_stop_leaves_the_blob_and_so_does_one_of_the_next_try(rt: HostRuntime) -> Result<(), Fail> {
    let alloc = rt.alloc();
    // Three blocks in place and the info block, with three syncs; the superblock and one sync more.
    for (word, text, events) in [
        ("recover", "recovered 1\n", 7),
        ("upgrade", "upgraded 1\n", 9),
    ] {
        let dev = device_of(alloc, Held::Pending)?;
        let dev = prints(&rt, alloc, dev, word, Status::Ok, text)?;
        assert_eq!(rt; dev.trace_len(), events, "{word}");
        let mut old = false;
        let mut new = false;
        for stop in 0..=events {
            for choice in CHOICES {
                assert!(rt; stop <= dev.trace_len());
                let left = dev.stop_after(alloc, stop, choice)?;
                let (newest, again) = goes_on(&rt, alloc, left, word)?;
                new = new || newest;
                old = old || !newest;
                stops_keep_the_blob(&rt, alloc, &again)?;
            }
        }
        assert_eq!(rt; (old, new), (true, word == "upgrade"), "{word}");
    }
    Ok(())
}

#[test]
fn a_call_that_fails_is_a_device_fault_and_the_blob_stays(rt: HostRuntime) -> Result<(), Fail> {
    let alloc = rt.alloc();
    // Superblock, info and ring, then the metadata: whichever read fails first is told. A check reads
    // the blob's data behind these.
    for (word, reads) in [
        ("list", 19),
        ("check", 20),
        ("recover", 19),
        ("upgrade", 19),
    ] {
        for nth in 1..=reads {
            let mut dev = device_of(alloc, Held::OneBlob)?;
            dev.fail(alloc, CallKind::Read, nth)?;
            let dev = prints(&rt, alloc, dev, word, Status::Device, FAULT)?;
            assert_eq!(rt; dev.trace_len(), 0, "{word} {nth}");
        }
    }
    // Each write and each sync of a command in turn.
    for (word, kind, calls) in [
        ("recover", CallKind::Write, 4),
        ("recover", CallKind::Sync, 3),
        ("upgrade", CallKind::Write, 5),
        ("upgrade", CallKind::Sync, 4),
    ] {
        for nth in 1..=calls {
            let mut dev = device_of(alloc, Held::Pending)?;
            dev.fail(alloc, kind, nth)?;
            let dev = prints(&rt, alloc, dev, word, Status::Device, FAULT)?;
            stops_keep_the_blob(&rt, alloc, &dev)?;
        }
    }
    Ok(())
}
