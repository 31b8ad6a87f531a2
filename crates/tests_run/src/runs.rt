//! Runs of the top call on devices in memory.

use bv_device::{Block, Device};
use bv_io::{MemSink, MemSource, NoGate};
use bv_run::{Status, run};
use std::alloc::{AllocError, Global};
use std::process::Abort;
use std::sync::Wait;
use std::test::Fail;
use std::thread::Threads;

/// The text without the number of calls that ends each event.
fn without_calls(alloc: Global, text: &[u8]) -> Result<Vec<u8>, AllocError> {
    let mut kept = Vec::new(alloc);
    let mut is_count = false;
    for byte in text {
        if *byte == b'\n' {
            is_count = false;
        }
        if !is_count {
            kept.push(*byte)?;
        }
        if *byte == b'@' {
            is_count = true;
        }
    }
    Ok(kept)
}

/// The words of a line.
fn words_of(alloc: Global, line: &str) -> Result<Vec<String>, AllocError> {
    let mut words = Vec::new(alloc);
    for word in line.split_whitespace() {
        words.push(String::from_str(alloc, word)?)?;
    }
    Ok(words)
}

/// Runs words over this device and an input: what is printed, the status, and the device.
pub fn shown<R: Threads + Wait + Sync, D: Device + Drop + Send>(
    rt: &R,
    alloc: Global,
    dev: D,
    words: (&str, &str),
) -> Result<(Vec<u8>, Status, D), AllocError> {
    let held = Vec::from_slice(alloc, words.1.as_bytes())?;
    let mut source = MemSource::new(held, Vec::new(alloc));
    let mut out = MemSink::new(Vec::new(alloc), alloc);
    let line = words_of(alloc, words.0)?;
    let (ended, dev) = run(rt, alloc, &line, dev, &mut source, &mut out, &NoGate);
    Ok((Vec::from_slice(alloc, out.bytes())?, ended, dev))
}

/// The same, without the numbers of calls.
pub fn told<R: Threads + Wait + Sync, D: Device + Drop + Send>(
    rt: &R,
    alloc: Global,
    dev: D,
    words: (&str, &str),
) -> Result<(Vec<u8>, Status, D), AllocError> {
    let (text, ended, dev) = shown(rt, alloc, dev, words)?;
    Ok((without_calls(alloc, &text)?, ended, dev))
}

/// Words and an input print this text, at this status; the device comes back.
pub fn prints<R: Abort + Threads + Wait + Sync, D: Device + Drop + Send>(
    rt: &R,
    alloc: Global,
    dev: D,
    words: (&str, &str),
    status: Status,
    text: &str,
) -> Result<D, Fail> {
    let (shown, ended, dev) = told(rt, alloc, dev, words)?;
    assert_eq!(rt; shown.as_slice(), text.as_bytes(), "{}", words.1);
    assert_eq!(rt; ended, status, "{}", words.1);
    Ok(dev)
}

/// They print a text that begins so.
pub fn begins<R: Abort + Threads + Wait + Sync, D: Device + Drop + Send>(
    rt: &R,
    alloc: Global,
    dev: D,
    words: (&str, &str),
    status: Status,
    text: &str,
) -> Result<D, Fail> {
    let (shown, ended, dev) = told(rt, alloc, dev, words)?;
    assert!(rt; shown.starts_with(text.as_bytes()), "{}", words.1);
    assert_eq!(rt; ended, status, "{}", words.1);
    Ok(dev)
}

/// Block, offset and byte.
pub type Change = (usize, usize, u8);

/// The blocks of a device, so many, with these bytes in place of what they have there.
pub fn changed<D: Device>(
    alloc: Global,
    dev: &mut D,
    count: u64,
    changes: &[Change],
) -> Result<Vec<Block>, Fail> {
    let mut blocks = Vec::new(alloc);
    for at in 0..count {
        let mut block = [0; 8192];
        if at >= dev.blocks() || dev.read(at, &mut block).is_err() {
            return Err(Fail::from("a read"));
        }
        blocks.push(block)?;
    }
    for (at, offset, byte) in changes {
        if let Some(block) = blocks.get_mut(*at) {
            if let Some(place) = block.get_mut(*offset) {
                *place = *byte;
            }
        }
    }
    Ok(blocks)
}
