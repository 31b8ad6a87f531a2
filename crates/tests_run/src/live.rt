//! Entries that stay in the ring until no room is left, and what a recovery finds of them at a stop.

use crate::runs::{begins, prints, shown};
use bv_device::{Event, MemDevice};
use bv_run::Status;
use std::alloc::{AllocError, Global};
use std::process::Abort;
use std::sync::Wait;
use std::test::Fail;
use std::thread::Threads;

/// A ring of 15 slots, behind three metadata blocks and the info block.
const FRESH: &str = "fresh 64 128 16";

/// Each add takes an entry of five blocks.
const ADDS: &str = "0 add hex:00
0 add hex:01
0 add hex:02
0 add hex:03
";

/// The last slots of the first and of the third entry.
const FIRST_COMMIT: u64 = 8;

const THIRD_COMMIT: u64 = 18;

/// The number of calls of each event of this kind, as its line ends with it.
fn calls_of(alloc: Global, text: &str, kind: &str) -> Result<Vec<u64>, AllocError> {
    let mut calls = Vec::new(alloc);
    for line in text.lines() {
        if let Some((event, number)) = line.split_once(" @") {
            if event.contains(kind) {
                calls.push(number.parse().unwrap_or(0))?;
            }
        }
    }
    Ok(calls)
}

#[test]
fn three_adds_take_six_calls_each_and_the_fourth_a_checkpoint_too(
    rt: HostRuntime,
) -> Result<(), Fail> {
    let alloc = rt.alloc();
    let dev = MemDevice::new(alloc, 83)?;
    let (bytes, status, _) = shown(&rt, alloc, dev, (FRESH, ADDS))?;
    assert_eq!(rt; status, Status::Ok);
    let text = str::from_utf8(&bytes).ok().ok_or("text")?;
    let puts = calls_of(alloc, text, " put ")?;
    let settles = calls_of(alloc, text, " settle ")?;
    assert_eq!(rt; (puts.len(), settles.len()), (4, 4));
    for (nth, (put, settled)) in puts.iter().zip(&settles).enumerate() {
        let rise = settled.saturating_sub(*put);
        assert!(rt; rise == 6 || 3 <= nth && 6 < rise, "{nth} {rise}");
    }
    Ok(())
}

/// How many events there are up to the last write of a block.
fn up_to_write(dev: &MemDevice, block: u64) -> u64 {
    let mut found = 0;
    for event in 0..dev.trace_len() {
        if let Event::Write { at, .. } = dev.event(event) {
            if *at == block {
                found = event.saturating_add(1);
            }
        }
    }
    found
}

/// Recoveries one after another of what a stop right behind the last write of a block leaves.
fn recovers<R: Abort + Threads + Wait + Sync>(
    rt: &R,
    alloc: Global,
    dev: &MemDevice,
    stop: (u64, &[u8]),
    texts: &[&str],
) -> Result<(), Fail> {
    let events = up_to_write(dev, stop.0);
    assert!(rt; 0 < events && events <= dev.trace_len());
    let mut left = dev.stop_after(alloc, events, stop.1)?;
    for text in texts {
        left = prints(rt, alloc, left, ("recover", ""), Status::Ok, text)?;
    }
    Ok(())
}

#[test]
fn a_recovery_finds_the_entries_that_last_and_perhaps_the_one_behind_them(
    rt: HostRuntime,
) -> Result<(), Fail> {
    let alloc = rt.alloc();
    let again = "recovered 0\n";
    let dev = MemDevice::new(alloc, 83)?;
    let dev = begins(&rt, alloc, dev, (FRESH, ADDS), Status::Ok, "session 0")?;
    recovers(
        &rt,
        alloc,
        &dev,
        (THIRD_COMMIT, &[255]),
        &["recovered 3\n", again],
    )?;
    recovers(
        &rt,
        alloc,
        &dev,
        (THIRD_COMMIT, &[]),
        &["recovered 2\n", again],
    )?;
    let dev = MemDevice::new(alloc, 83)?;
    let one = (FRESH, "0 add hex:6869");
    let dev = begins(&rt, alloc, dev, one, Status::Ok, "session 0")?;
    recovers(
        &rt,
        alloc,
        &dev,
        (FIRST_COMMIT, &[255]),
        &["recovered 1\n", again],
    )?;
    recovers(&rt, alloc, &dev, (FIRST_COMMIT, &[]), &[again])
}
