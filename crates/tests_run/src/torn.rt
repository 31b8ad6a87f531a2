//! An add that a stop cuts: what is listed of each image that the stop may leave, sector by sector of
//! the block that was written last.

use crate::runs::{begins, told};
use bv_device::{Event, MemDevice};
use bv_run::Status;
use std::alloc::{AllocError, Global};
use std::process::Abort;
use std::sync::Wait;
use std::test::Fail;
use std::thread::Threads;

/// The sectors of a block.
const SECTORS: u64 = 16;

/// What takes the newest value of a sector.
const NEWEST: u8 = 255;

/// The words that make a volume of each version.
const VOLUMES: [&str; 2] = ["fresh 64 128 16", "fresh2 64 128 16"];

/// The blob's line in a list.
const LINE: &str = "df6d2bb7dac8a27c99a0ac498fabc106e94eab93dc88d40b2e313aeae33cb5a6 2\n";

/// The events up to the answer of the sync: a block that is put, and an entry of five blocks, which
/// has a sync before it.
const ANSWERED: u64 = 1 + 6 + 1;

/// A volume of no blob on a device that is opened anew, and then a script on it.
fn written<R: Abort + Threads + Wait + Sync>(
    rt: &R,
    alloc: Global,
    volume: &str,
    script: &str,
) -> Result<MemDevice, Fail> {
    let dev = MemDevice::new(alloc, 83)?;
    let dev = begins(rt, alloc, dev, (volume, ""), Status::Ok, "history")?;
    let dev = dev.stop_after(alloc, dev.trace_len(), &[NEWEST])?;
    begins(rt, alloc, dev, ("script", script), Status::Ok, "session 0")
}

/// Whether a block was written since the last sync, after so many events.
fn is_open(dev: &MemDevice, events: u64, block: u64) -> bool {
    for back in 0..events {
        let k = events - 1 - back;
        if k >= dev.trace_len() {
            return false;
        }
        match dev.event(k) {
            Event::Sync { .. } => return false,
            Event::Write { at, .. } => {
                if *at == block {
                    return true;
                }
            }
        }
    }
    false
}

/// How many such blocks come before the one that the last event wrote; none where it was a sync.
fn open_before(dev: &MemDevice, events: u64) -> Option<u64> {
    let last = events.checked_sub(1)?;
    if last >= dev.trace_len() {
        return None;
    }
    let Event::Write { at, .. } = dev.event(last) else {
        return None;
    };
    let mut open: u64 = 0;
    for block in 0..*at {
        if is_open(dev, events, block) {
            open = open.saturating_add(1);
        }
    }
    Some(open)
}

/// The choice that takes the newest value in these sectors of the block behind so many, and else what
/// was synced.
fn choice_of(alloc: Global, open: u64, from: u64, to: u64) -> Result<Vec<u8>, AllocError> {
    let mut choice = Vec::new(alloc);
    for _ in 0..open.saturating_mul(SECTORS) {
        choice.push(0)?;
    }
    for sector in 0..SECTORS {
        let is_new = from <= sector && sector < to;
        choice.push(if is_new { NEWEST } else { 0 })?;
    }
    choice.push(0)?;
    Ok(choice)
}

/// What images have the blob, and which haven't.
#[derive(Drop)]
struct Seen {
    old: bool,
    new: bool,
}

impl Seen {
    /// Lists the volume that a stop after so many events leaves by a choice. At most one other blob,
    /// whose root is lower, is there.
    fn look<R: Abort + Threads + Wait + Sync>(
        &mut self,
        rt: &R,
        alloc: Global,
        dev: &MemDevice,
        events: u64,
        choice: &[u8],
    ) -> Result<(), Fail> {
        assert!(rt; events <= dev.trace_len());
        let left = dev.stop_after(alloc, events, choice)?;
        let (text, status, _) = told(rt, alloc, left, ("list", ""))?;
        assert_eq!(rt; status, Status::Ok);
        let is_new = text.ends_with(LINE.as_bytes());
        assert!(rt; is_new || text.is_empty());
        self.new = self.new || is_new;
        self.old = self.old || !is_new;
        Ok(())
    }

    /// Lists each volume that a stop after so many events may leave, sector by sector.
    fn look_at_all<R: Abort + Threads + Wait + Sync>(
        &mut self,
        rt: &R,
        alloc: Global,
        dev: &MemDevice,
        events: u64,
    ) -> Result<(), Fail> {
        let Some(open) = open_before(dev, events) else {
            return self.look(rt, alloc, dev, events, &[]);
        };
        for sector in 0..SECTORS {
            let first = choice_of(alloc, open, 0, sector)?;
            self.look(rt, alloc, dev, events, &first)?;
            let one = choice_of(alloc, open, sector, sector + 1)?;
            self.look(rt, alloc, dev, events, &one)?;
        }
        let whole = choice_of(alloc, open, 0, SECTORS)?;
        self.look(rt, alloc, dev, events, &whole)
    }
}

#[test]
fn a_torn_add_leaves_the_blob_or_none(rt: HostRuntime) -> Result<(), Fail> {
    let alloc = rt.alloc();
    for volume in VOLUMES {
        let dev = written(&rt, alloc, volume, "0 add hex:6869")?;
        let mut seen = Seen {
            old: false,
            new: false,
        };
        for events in 0..=dev.trace_len() {
            seen.look_at_all(&rt, alloc, &dev, events)?;
        }
        assert!(rt; seen.old && seen.new);
    }
    Ok(())
}

#[test]
fn what_a_sync_answered_is_found_after_each_stop(rt: HostRuntime) -> Result<(), Fail> {
    let alloc = rt.alloc();
    for volume in VOLUMES {
        let script = "0 add hex:6869\n0 sync\n0 add hex:6a\n";
        let dev = written(&rt, alloc, volume, script)?;
        assert!(rt; ANSWERED < dev.trace_len());
        assert!(rt; matches!(dev.event(ANSWERED - 1), Event::Sync { ok: true }));
        let mut seen = Seen {
            old: false,
            new: false,
        };
        for events in ANSWERED..=dev.trace_len() {
            seen.look_at_all(&rt, alloc, &dev, events)?;
        }
        assert!(rt; seen.new && !seen.old);
    }
    Ok(())
}
