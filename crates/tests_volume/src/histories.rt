//! Histories of every kind of event, stopped after each write and sync: what a stop leaves is what the
//! theorem of stops allows, by plain programs, and so is what a mount makes of it.

ghost use Rattle.std.specs.Prelude.{ℕ};
ghost use Rattle.spec_core.specs.History.{Legal};

use crate::answers::{Answer, have_answered};
use crate::device::{leaves, made};
use bv_claims::Claims;
use bv_device::{CallKind, Device, MemDevice};
use bv_io::NoGate;
use bv_model::History;
use bv_mount::{inspect, inspect_all};
use bv_mounted::mount;
use plain_core::is_legal;
use plain_crash::{holds_prefix, is_no_chance, is_timed};
use spec_disk::{Block, Event};
use std::alloc::{AllocError, Global};
use std::process::Abort;
use std::sync::Wait;
use std::test::Fail;
use std::thread::Threads;

/// Each kind of event but a retire: a blob that is unlinked while a slot holds it is purged by the
/// next publication, and another one by the unmount.
const GOING: &[u8] = b"0 add hex:6869
0 open 0 hex:6869
0 read 0 0 2
0 scan 0
0 sync
0 unlink hex:6869
0 list
0 close 0
0 add seq:1:9000
0 unlink seq:1:9000
";

/// What its lines answer.
const GOING_ANSWERS: [Answer; 10] = [
    ("published", 0),
    ("opened", 2),
    ("bytes", 2),
    ("whole", 2),
    ("synced", 0),
    ("unlinked", 0),
    ("list", 0),
    ("closed", 0),
    ("published", 0),
    ("unlinked", 0),
];

/// An add whose second block isn't written, which retires it, and what is refused from then on.
const STOPPING: &[u8] = b"0 add hex:6869
0 unlink hex:6869
0 add seq:1:9000
0 add hex:6a
0 sync
";

/// What its lines answer; the refusals have other words.
const STOPPING_ANSWERS: [Answer; 5] = [
    ("published", 0),
    ("unlinked", 0),
    ("another", 0),
    ("another", 0),
    ("another", 0),
];

/// Four sessions, each with a blob of its own: what it adds it opens, unlinks, scans while it is open,
/// and closes; then it syncs.
const FOUR: &[u8] = b"0 add hex:00
1 add hex:01
2 add hex:02
3 add seq:3:9000
0 open 0 hex:00
1 open 0 hex:01
2 open 0 hex:02
3 open 0 seq:3:9000
0 unlink hex:00
1 unlink hex:01
2 unlink hex:02
3 unlink seq:3:9000
0 scan 0
1 scan 0
2 scan 0
3 scan 0
0 close 0
1 close 0
2 close 0
3 close 0
0 sync
1 sync
2 sync
3 sync
";

/// The first add writes a block and an entry of five.
const SECOND_PUT: u64 = 8;

/// Of each sector what was synced; the last that was written; or by turns, from the first on.
const CHOICES: [&[u8]; 3] = [&[], &[255], &[0, 255]];

/// The blocks that a device has now.
fn blocks_of(alloc: Global, dev: &mut MemDevice) -> Result<Vec<Block>, AllocError> {
    let mut blocks = Vec::new(alloc);
    for at in 0..dev.blocks() {
        let mut block = [0; 8192];
        if at < dev.blocks() && dev.read(at, &mut block).is_ok() {
            blocks.push(block)?;
        }
    }
    Ok(blocks)
}

/// The events that a device told, up to the `stop`th.
fn events_of(alloc: Global, dev: &MemDevice, stop: u64) -> Result<Vec<Event>, AllocError> {
    let mut events = Vec::new(alloc);
    for k in 0..stop {
        if k < dev.trace_len() {
            events.push(*dev.event(k))?;
        }
    }
    Ok(events)
}

/// The device after a mount of what it holds, which is given up with no event.
fn mounted<R: Abort>(rt: &R, alloc: Global, mut dev: MemDevice) -> Result<MemDevice, Fail> {
    let Ok(inspected) = inspect(alloc, &mut dev) else {
        return Err(Fail::from("a volume"));
    };
    let blocks = inspected.geometry.blocks;
    assert!(rt; 2 <= blocks && blocks <= 1 << 22);
    let (claims, boss) = Claims::new(alloc, blocks)?;
    let Ok(volume) = mount(alloc, dev, inspected, &claims, boss) else {
        return Err(Fail::from("a mount"));
    };
    let (_, store) = volume.give_up();
    Ok(store.into_device())
}

/// How many blobs a device holds.
fn count_blobs(alloc: Global, dev: &mut MemDevice) -> Result<usize, Fail> {
    let Ok((_, survey)) = inspect_all(alloc, dev) else {
        return Err(Fail::from("a survey"));
    };
    Ok(survey.blobs.len())
}

/// What a stop left holds a prefix of the history's log, as the theorem says, and so does what a mount
/// makes of it. How many blobs it has.
fn holds<R: Abort>(
    rt: &R,
    alloc: Global,
    history: &History,
    base: &[Block],
    events: &[Event],
    mut left: MemDevice,
) -> Result<usize, Fail>
    requires { (next : ℕ) × Legal history.now.history next }
{
    let stop = events.len() as u64;
    let image = blocks_of(alloc, &mut left)?;
    assert!(rt; is_no_chance(alloc, base, events, &image)?, "{stop}");
    assert!(rt; holds_prefix(alloc, history, stop, &image)?, "{stop}");
    let mut dev = mounted(rt, alloc, left)?;
    let image = blocks_of(alloc, &mut dev)?;
    assert!(rt;
        holds_prefix(alloc, history, stop, &image)?,
        "mounted after {stop}"
    );
    count_blobs(alloc, &mut dev)
}

/// Each stop of a device holds what the theorem says. How many stops leave one of two maps.
fn stops_hold<R: Abort>(
    rt: &R,
    alloc: Global,
    history: &History,
    base: &[Block],
    dev: &MemDevice,
) -> Result<u64, Fail> {
    assert!(rt; is_legal(alloc, history, 1)?);
    let mut open = 0u64;
    for stop in 0..=dev.trace_len() {
        let events = events_of(alloc, dev, stop)?;
        let mut counts = Vec::new(alloc);
        for choice in CHOICES {
            assert!(rt; stop <= dev.trace_len());
            let left = dev.stop_after(alloc, stop, choice)?;
            counts.push(holds(rt, alloc, history, base, &events, left)?)?;
        }
        if counts.first() != counts.get(1) {
            open = open.saturating_add(1);
        }
    }
    Ok(open)
}

/// A device that begins as a volume that was just made, with no call behind it.
fn begun<R: Abort>(rt: &R, alloc: Global, version: u32) -> Result<MemDevice, Fail> {
    let dev = made(rt, alloc, version)?;
    Ok(dev.stop_after(alloc, dev.trace_len(), &[])?)
}

#[test]
fn each_stop_of_a_history_of_all_events_holds_what_the_theorem_says(
    rt: HostRuntime,
) -> Result<(), Fail> {
    let alloc = rt.alloc();
    let mut dev = begun(&rt, alloc, 1)?;
    let base = blocks_of(alloc, &mut dev)?;
    let left = leaves(&rt, alloc, dev, GOING, &NoGate)?;
    have_answered(&rt, &left.ends, &GOING_ANSWERS);
    let events = events_of(alloc, &left.dev, left.dev.trace_len())?;
    assert!(rt; is_timed(&events, &left.history));
    let open = stops_hold(&rt, alloc, &left.history, &base, &left.dev)?;
    assert!(rt; open > 0);
    Ok(())
}

#[test]
fn each_stop_around_a_failed_put_holds_what_the_theorem_says(rt: HostRuntime) -> Result<(), Fail> {
    let alloc = rt.alloc();
    let mut dev = begun(&rt, alloc, 2)?;
    let base = blocks_of(alloc, &mut dev)?;
    dev.fail(alloc, CallKind::Write, SECOND_PUT)?;
    let left = leaves(&rt, alloc, dev, STOPPING, &NoGate)?;
    have_answered(&rt, &left.ends, &STOPPING_ANSWERS);
    let events = events_of(alloc, &left.dev, left.dev.trace_len())?;
    assert!(rt; is_timed(&events, &left.history));
    let open = stops_hold(&rt, alloc, &left.history, &base, &left.dev)?;
    assert!(rt; open > 0);
    Ok(())
}

#[test]
fn each_stop_of_four_sessions_holds_what_the_theorem_says(rt: HostRuntime) -> Result<(), Fail> {
    let alloc = rt.alloc();
    let mut dev = begun(&rt, alloc, 2)?;
    let base = blocks_of(alloc, &mut dev)?;
    let left = leaves(&rt, alloc, dev, FOUR, &NoGate)?;
    let sizes = [1, 1, 1, 9000];
    let mut wanted = Vec::new(alloc);
    for size in sizes {
        let answers: [Answer; 6] = [
            ("published", 0),
            ("opened", size),
            ("unlinked", 0),
            ("whole", size),
            ("closed", 0),
            ("synced", 0),
        ];
        wanted.extend_from_slice(&answers)?;
    }
    have_answered(&rt, &left.ends, &wanted);
    let events = events_of(alloc, &left.dev, left.dev.trace_len())?;
    assert!(rt; is_timed(&events, &left.history));
    let open = stops_hold(&rt, alloc, &left.history, &base, &left.dev)?;
    assert!(rt; open > 0);
    Ok(())
}
