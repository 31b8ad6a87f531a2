//! A script that is cut after any of its bytes.

use crate::runs::{STORED, TOTAL, runs};
use bv_device::MemDevice;
use bv_run::Status;
use std::alloc::{AllocError, Global};
use std::process::Abort;
use std::sync::Wait;
use std::test::Fail;
use std::thread::Threads;

/// Of each line of the script, what a cut after each of its bytes leaves: a script, or a line whose
/// command (`c`), arguments (`a`), data word (`d`) or name (`n`) is the first fault.
const LINES: [&[u8]; 8] = [
    b"ccccaaddd.d.d..",
    b"cccccaaaannn.n.n..",
    b"cccccaaaaaa..",
    b"cccccccaannn.n.n..",
    b"cccccaaaaaa..",
    b"ccccccaa..",
    b"ccccc..",
    b"ccccc..",
];

/// The word of a fault; none where there is a script.
fn word_of(mark: u8) -> Option<&'static str> {
    match mark {
        b'c' => Some("command"),
        b'a' => Some("arguments"),
        b'd' => Some("data"),
        b'n' => Some("name"),
        _ => None,
    }
}

/// What is printed of a script that ends within this line: the line of its fault; none where there
/// is a script.
fn refusal_of(alloc: Global, line: usize, mark: u8) -> Result<Option<String>, AllocError> {
    match word_of(mark) {
        Some(word) => Ok(Some(format!(in alloc; "script: line {line}: {word}\n")?)),
        None => Ok(None),
    }
}

/// The script's first bytes are refused with this line, and nothing is done; or they are run.
fn answers<R: Abort + Threads + Wait + Sync>(
    rt: &R,
    alloc: Global,
    cut: usize,
    wanted: Option<String>,
) -> Result<(), Fail> {
    let Some(input) = STORED.get(..cut) else {
        return Err(Fail::from("a cut"));
    };
    let dev = MemDevice::new(alloc, TOTAL)?;
    let (ended, sink, dev) = runs(rt, alloc, "fresh 64 128 16", dev, input)?;
    match wanted {
        Some(line) => {
            assert_eq!(rt; ended, Status::Input, "{cut}");
            assert_eq!(rt; sink.bytes(), line.as_bytes(), "{cut}");
            assert_eq!(rt; dev.trace_len(), 0, "{cut}");
        }
        None => {
            assert_eq!(rt; ended, Status::Ok, "{cut}");
            assert!(rt; sink.bytes().ends_with(b"\n"), "{cut}");
        }
    }
    Ok(())
}

#[test]
fn a_script_that_is_cut_is_a_script_or_has_its_first_fault(rt: HostRuntime) -> Result<(), Fail> {
    let alloc = rt.alloc();
    answers(&rt, alloc, 0, None)?;
    let mut cut = 0usize;
    for (at, marks) in LINES.iter().enumerate() {
        for mark in marks.iter() {
            cut = cut.saturating_add(1);
            let wanted = refusal_of(alloc, at.saturating_add(1), *mark)?;
            answers(&rt, alloc, cut, wanted)?;
        }
    }
    assert_eq!(rt; cut, STORED.len());
    Ok(())
}
