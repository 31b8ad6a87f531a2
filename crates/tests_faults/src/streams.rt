//! Streams that fail: the script's source, and the sink of what is printed.

use crate::runs::{STORED, made, runs, runs_on};
use bv_device::Device;
use bv_io::{MemSink, MemSource};
use bv_run::Status;
use std::alloc::Global;
use std::process::Abort;
use std::sync::Wait;
use std::test::Fail;
use std::thread::Threads;

/// No run here makes so many calls of one stream.
const MOST: u64 = 100;

/// A run where one call of the source fails ends well, or says that the source failed and leaves
/// the device as it was. Says whether it ended well.
fn is_read<R: Abort + Threads + Wait + Sync>(
    rt: &R,
    alloc: Global,
    nth: u64,
) -> Result<bool, Fail> {
    let dev = made(rt, alloc)?;
    let before = dev.trace_len();
    let source = MemSource::new(
        Vec::from_slice(alloc, STORED.as_bytes())?,
        vec![in alloc; nth]?,
    );
    let sink = MemSink::new(Vec::new(alloc), alloc);
    let (ended, sink, dev) = runs_on(rt, alloc, "script", dev, source, sink)?;
    if ended == Status::Ok {
        return Ok(true);
    }
    assert_eq!(rt; ended, Status::Source, "{nth}");
    assert_eq!(rt; sink.bytes(), b"source: fault\n".as_slice(), "{nth}");
    assert_eq!(rt; dev.trace_len(), before, "{nth}");
    Ok(false)
}

#[test]
fn a_source_that_fails_is_told_and_nothing_is_run(rt: HostRuntime) -> Result<(), Fail> {
    let alloc = rt.alloc();
    // One call takes the script, and one finds its end.
    assert!(rt; !is_read(&rt, alloc, 1)?);
    assert!(rt; !is_read(&rt, alloc, 2)?);
    assert!(rt; is_read(&rt, alloc, 3)?);
    Ok(())
}

/// A run where one call of the sink fails has given a prefix of this text, and has run all lines.
/// Says how many bytes it gave, or none where no call failed.
fn given<R: Abort + Threads + Wait + Sync>(
    rt: &R,
    alloc: Global,
    nth: u64,
    whole: &[u8],
) -> Result<Option<usize>, Fail> {
    let source = MemSource::new(Vec::from_slice(alloc, STORED.as_bytes())?, Vec::new(alloc));
    let sink = MemSink::new(vec![in alloc; nth]?, alloc);
    let dev = made(rt, alloc)?;
    let (ended, sink, dev) = runs_on(rt, alloc, "script", dev, source, sink)?;
    assert!(rt; whole.starts_with(sink.bytes()), "{nth}");
    assert_eq!(rt; dev.faults(), 0, "{nth}");
    if ended == Status::Ok {
        assert_eq!(rt; sink.bytes().len(), whole.len(), "{nth}");
        return Ok(None);
    }
    assert_eq!(rt; ended, Status::Sink, "{nth}");
    Ok(Some(sink.bytes().len()))
}

#[test]
fn a_sink_that_fails_has_the_beginning_of_the_text(rt: HostRuntime) -> Result<(), Fail> {
    let alloc = rt.alloc();
    let (ended, whole, _) = runs(&rt, alloc, "script", made(&rt, alloc)?, STORED)?;
    assert_eq!(rt; ended, Status::Ok);
    let mut last = Some(0);
    for nth in 1..MOST {
        if let Some(count) = last {
            last = given(&rt, alloc, nth, whole.bytes())?;
            assert!(rt; last.is_none_or(|next| count <= next), "{nth}");
        }
    }
    assert_eq!(rt; last, None);
    Ok(())
}
