//! A script that is stopped after any event of its device.

use crate::histories::ran;
use crate::runs::{blocks_of, has_blob, made};
use bv_device::{Block, Event, MemDevice};
use bv_model::History;
use plain_core::is_legal;
use plain_crash::{holds_prefix, is_timed};
use std::alloc::{AllocError, Global};
use std::process::Abort;
use std::sync::Wait;
use std::test::Fail;
use std::thread::Threads;

/// A blob is added, leaves while it is open, and is added again.
const LEAVING: &[u8] = b"0 add hex:6869
0 add hex:6869
0 open 0 hex:6869
0 unlink hex:6869
0 add hex:6869
0 close 0
0 add hex:6869
0 sync
0 add hex:6869
";

/// Whether an image holds what a stop after so many calls may leave; none where the history isn't
/// legal.
fn holds(
    alloc: Global,
    history: &History,
    calls: u64,
    image: &[Block],
) -> Result<Option<bool>, AllocError> {
    if !is_legal(alloc, history, 1)? {
        return Ok(None);
    }
    Ok(Some(holds_prefix(alloc, history, calls, image)?))
}

/// The events of a device from this number on.
fn events_from(alloc: Global, dev: &MemDevice, first: u64) -> Result<Vec<Event>, AllocError> {
    let mut events = Vec::new(alloc);
    for at in first..dev.trace_len() {
        events.push(*dev.event(at))?;
    }
    Ok(events)
}

/// What a stop leaves by this choice holds a prefix of the log. Says whether the blob is there.
fn has_blob_left<R: Abort + Threads + Wait + Sync>(
    rt: &R,
    alloc: Global,
    dev: &MemDevice,
    history: &History,
    stop: u64,
    calls: u64,
    choice: &[u8],
) -> Result<bool, Fail> {
    assert!(rt; stop <= dev.trace_len());
    let mut left = dev.stop_after(alloc, stop, choice)?;
    let image = blocks_of(alloc, &mut left)?;
    let held = holds(alloc, history, calls, &image)?;
    assert_eq!(rt; held, Some(true), "{calls} {choice:?}");
    has_blob(rt, alloc, left)
}

/// Stops the script after each of its device's events, by this choice: whether the blob is there, each
/// time that it comes or goes.
fn comes_and_goes<R: Abort + Threads + Wait + Sync>(
    rt: &R,
    alloc: Global,
    choice: &[u8],
) -> Result<Vec<bool>, Fail> {
    let dev = made(rt, alloc)?;
    let formatted = dev.trace_len();
    let Some((history, dev)) = ran(rt, alloc, dev, LEAVING)? else {
        return Err(Fail::from("a history"));
    };
    let events = events_from(alloc, &dev, formatted)?;
    assert!(rt; is_timed(&events, &history));
    let mut turns = Vec::new(alloc);
    for stop in formatted..=dev.trace_len() {
        let calls = stop.saturating_sub(formatted);
        let has = has_blob_left(rt, alloc, &dev, &history, stop, calls, choice)?;
        if turns.last() != Some(&has) {
            turns.push(has)?;
        }
    }
    Ok(turns)
}

/// There is no blob, then the first one, then none, then the second one.
const TURNS: [bool; 4] = [false, true, false, true];

#[test]
fn a_stop_that_takes_what_was_synced_leaves_a_prefix_of_the_log(
    rt: HostRuntime,
) -> Result<(), Fail> {
    let turns = comes_and_goes(&rt, rt.alloc(), &[])?;
    assert_eq!(rt; turns.as_slice(), TURNS.as_slice());
    Ok(())
}

#[test]
fn a_stop_that_takes_what_was_written_last_leaves_a_prefix_of_the_log(
    rt: HostRuntime,
) -> Result<(), Fail> {
    let turns = comes_and_goes(&rt, rt.alloc(), &[255])?;
    assert_eq!(rt; turns.as_slice(), TURNS.as_slice());
    Ok(())
}

#[test]
fn a_stop_that_takes_what_was_written_first_leaves_a_prefix_of_the_log(
    rt: HostRuntime,
) -> Result<(), Fail> {
    let turns = comes_and_goes(&rt, rt.alloc(), &[1])?;
    assert_eq!(rt; turns.as_slice(), TURNS.as_slice());
    Ok(())
}

#[test]
fn a_stop_that_tears_a_write_leaves_a_prefix_of_the_log(rt: HostRuntime) -> Result<(), Fail> {
    let turns = comes_and_goes(&rt, rt.alloc(), &[0, 255])?;
    assert_eq!(rt; turns.as_slice(), TURNS.as_slice());
    Ok(())
}
