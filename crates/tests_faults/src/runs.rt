//! Runs of the top call on devices of any kind.

use bv_device::{Block, Device, MemDevice};
use bv_io::{MemSink, MemSource, NoGate};
use bv_run::{Status, run};
use std::alloc::{AllocError, Global};
use std::process::Abort;
use std::sync::Wait;
use std::test::Fail;
use std::thread::Threads;

/// A blob is added, opened, read, unlinked, read while it is open, and closed.
pub const STORED: &str = "0 add hex:6869
0 open 0 hex:6869
0 read 0 0 2
0 unlink hex:6869
0 read 0 0 2
0 close 0
0 sync
0 list
";

/// What a script that lists prints first, where the blob is there, and where there is none.
const LISTED: &[u8] =
    b"session 0\n1 list 1 df6d2bb7dac8a27c99a0ac498fabc106e94eab93dc88d40b2e313aeae33cb5a6:2\n";

const EMPTY: &[u8] = b"session 0\n1 list 0\n";

/// The line of a run that a failed call of the device ended before its script began.
pub const FAULT: &str = "device: fault\n";

/// How many blocks the devices have: 3 of metadata, 16 of the journal and 64 of data.
pub const TOTAL: u64 = 83;

/// The words of a line.
fn words_of(alloc: Global, line: &str) -> Result<Vec<String>, AllocError> {
    let mut words = Vec::new(alloc);
    for word in line.split_whitespace() {
        words.push(String::from_str(alloc, word)?)?;
    }
    Ok(words)
}

/// Runs words over a device and a source: how it ended, what was given to the sink, and the device.
pub fn runs_on<R: Threads + Wait + Sync, D: Device + Send + Drop>(
    rt: &R,
    alloc: Global,
    line: &str,
    dev: D,
    mut source: MemSource,
    mut sink: MemSink,
) -> Result<(Status, MemSink, D), AllocError> {
    let words = words_of(alloc, line)?;
    let (ended, dev) = run(rt, alloc, &words, dev, &mut source, &mut sink, &NoGate);
    Ok((ended, sink, dev))
}

/// The same with streams that don't fail.
pub fn runs<R: Threads + Wait + Sync, D: Device + Send + Drop>(
    rt: &R,
    alloc: Global,
    line: &str,
    dev: D,
    input: &str,
) -> Result<(Status, MemSink, D), AllocError> {
    let held = Vec::from_slice(alloc, input.as_bytes())?;
    let source = MemSource::new(held, Vec::new(alloc));
    let sink = MemSink::new(Vec::new(alloc), alloc);
    runs_on(rt, alloc, line, dev, source, sink)
}

/// A device with a volume that was just made.
pub fn made<R: Abort + Threads + Wait + Sync>(rt: &R, alloc: Global) -> Result<MemDevice, Fail> {
    let dev = MemDevice::new(alloc, TOTAL)?;
    let (ended, _, dev) = runs(rt, alloc, "format 64 128 16", dev, "")?;
    assert_eq!(rt; ended, Status::Ok);
    Ok(dev)
}

/// Whether the volume of a device has the blob. It can be mounted, and has no other.
pub fn has_blob<R: Abort + Threads + Wait + Sync>(
    rt: &R,
    alloc: Global,
    dev: MemDevice,
) -> Result<bool, Fail> {
    let (ended, sink, _) = runs(rt, alloc, "script", dev, "0 list")?;
    assert_eq!(rt; ended, Status::Ok);
    let has = sink.bytes().starts_with(LISTED);
    assert!(rt; has || sink.bytes().starts_with(EMPTY));
    Ok(has)
}

/// The blocks that a device has now.
pub fn blocks_of(alloc: Global, dev: &mut MemDevice) -> Result<Vec<Block>, AllocError> {
    let mut blocks = Vec::new(alloc);
    for at in 0..TOTAL {
        let mut block = [0; 8192];
        if at < dev.blocks() && dev.read(at, &mut block).is_ok() {
            blocks.push(block)?;
        }
    }
    Ok(blocks)
}
