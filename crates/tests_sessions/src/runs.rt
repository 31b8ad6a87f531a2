//! Runs of the top call past a gate.

use bv_device::MemDevice;
use bv_io::{Gate, MemSink, MemSource};
use bv_run::{Status, run};
use std::alloc::{AllocError, Global};
use std::process::Abort;
use std::sync::Wait;
use std::test::Fail;
use std::thread::Threads;

/// The words of a line.
fn words_of(alloc: Global, line: &str) -> Result<Vec<String>, AllocError> {
    let mut words = Vec::new(alloc);
    for word in line.split_whitespace() {
        words.push(String::from_str(alloc, word)?)?;
    }
    Ok(words)
}

/// A text without the number of calls that ends each event.
fn without_calls(alloc: Global, text: &str) -> Result<String, AllocError> {
    let mut kept = String::new(alloc);
    for line in text.lines() {
        let event = line.split_once(" @").map_or(line, |parts| parts.0);
        kept.push_str(event)?;
        kept.push('\n')?;
    }
    Ok(kept)
}

/// Words and a script that end well past this gate: what is printed, but for the numbers of calls,
/// and the device.
pub fn printed<R: Abort + Threads + Wait + Sync, G: Gate + Sync>(
    rt: &R,
    alloc: Global,
    dev: MemDevice,
    line: &str,
    script: &str,
    gate: &G,
) -> Result<(String, MemDevice), Fail> {
    let words = words_of(alloc, line)?;
    let mut source = MemSource::new(Vec::from_slice(alloc, script.as_bytes())?, Vec::new(alloc));
    let mut out = MemSink::new(Vec::new(alloc), alloc);
    let (status, dev) = run(rt, alloc, &words, dev, &mut source, &mut out, gate);
    assert_eq!(rt; status, Status::Ok, "{line}");
    let text = str::from_utf8(out.bytes()).ok().ok_or("a text")?;
    Ok((without_calls(alloc, text)?, dev))
}
