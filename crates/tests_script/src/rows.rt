//! Scripts that the rules give with what they are, and the demonstration's.

use crate::base::{answer, half};
use bv_gen::workload;
use bv_script::{parse, print};
use sha2::{Digest, Sha256};
use spec_script::{Command, Name, ScriptKind, ScriptLine, Word};
use std::alloc::Global;
use std::process::Abort;
use std::test::Fail;

/// A script, its command lines and its print.
const SCRIPTS: [(&str, usize, &str); 6] = [
    ("", 0, ""),
    ("\n", 0, ""),
    ("# nothing", 0, ""),
    ("0 sync", 1, "0 sync\n"),
    ("#\n\n15 scan 63\n# end", 1, "\n\n15 scan 63\n"),
    (STORED, 8, STORED),
];

/// Adds a blob, reads it, and takes it away: each command but `scan`.
const STORED: &str = "0 add hex:6869\n0 open 0 hex:6869\n0 read 0 0 2\n0 unlink hex:6869\n\
                      0 read 0 0 2\n0 close 0\n0 sync\n0 list\n";

/// A script is read, and printed as the row says.
fn is_printed<R: Abort>(
    rt: &R,
    alloc: Global,
    text: &str,
    lines: usize,
    printed: &str,
) -> Result<(), Fail> {
    let script = parse(alloc, text.as_bytes())?;
    assert_eq!(rt; script.lines().len(), lines, "{text}");
    assert_eq!(rt;
        print(alloc, &script)?.as_slice(),
        printed.as_bytes(),
        "{text}"
    );
    Ok(())
}

#[test]
fn small_scripts_are_read_as_the_rules_say(rt: HostRuntime) -> Result<(), Fail> {
    let alloc = rt.alloc();
    let frob = Some((1, ScriptKind::Command));
    assert_eq!(rt; answer(alloc, b"0 frob")?, frob);
    for (text, lines, printed) in SCRIPTS {
        is_printed(&rt, alloc, text, lines, printed)?;
    }
    Ok(())
}

/// The bytes of a `seq:` word, which is the only form that the demonstration has.
fn size(word: &Word) -> u64 {
    match word {
        Word::Seq { len, .. } => *len,
        _ => 0,
    }
}

/// The bytes of the blob that a command adds, and of the one that it unlinks.
fn sizes(command: &Command) -> (u64, u64) {
    match command {
        Command::Add { word } => (size(word), 0),
        Command::Unlink {
            name: Name::Of(word),
        } => (0, size(word)),
        _ => (0, 0),
    }
}

/// The blobs that are added and unlinked, and the bytes of those that are left.
fn figures(lines: &[ScriptLine]) -> (u32, u32, u64) {
    let (mut adds, mut unlinks, mut bytes) = (0u32, 0u32, 0u64);
    for line in lines {
        let (plus, minus) = sizes(&line.command);
        adds = adds.saturating_add(u32::from(plus > 0));
        unlinks = unlinks.saturating_add(u32::from(minus > 0));
        bytes = bytes.saturating_add(plus).saturating_sub(minus);
    }
    (adds, unlinks, bytes)
}

#[test]
fn sixteen_rounds_add_128_blobs_and_leave_64(rt: HostRuntime) -> Result<(), Fail> {
    let script = workload(rt.alloc(), 16)?;
    assert_eq!(rt; figures(script.lines()), (128, 64, 3_699_200));
    assert_eq!(rt; script.lines().len(), 584);
    Ok(())
}

#[test]
fn the_demonstration_is_spelled_as_its_rule_says(rt: HostRuntime) -> Result<(), Fail> {
    let mut hasher = Sha256::new();
    for rounds in 1..33 {
        let script = workload(rt.alloc(), rounds)?;
        hasher.update(print(rt.alloc(), &script)?.as_slice());
    }
    assert_eq!(rt;
        half(&hasher.finalize()),
        0x3f8cb71b685366fa64fbbd3264fb645f
    );
    Ok(())
}
