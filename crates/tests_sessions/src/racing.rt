//! Sixteen sessions that race: for one name, for the last block, for the last node, and with a blob
//! that each of them opens, unlinks and adds again.

use crate::runs::printed;
use bv_device::MemDevice;
use bv_io::NoGate;
use std::alloc::{AllocError, Global};
use std::ops::Range;
use std::test::Fail;

const SESSIONS: u64 = 16;

/// A script in which each session does these lines.
fn script_of(alloc: Global, lines: &[&str]) -> Result<String, AllocError> {
    let mut script = String::new(alloc);
    for line in lines {
        for session in 0..SESSIONS {
            script.push_str(format!(in alloc; "{session} {line}\n")?.as_str())?;
        }
    }
    Ok(script)
}

/// So many adds of a byte each, by session 0, or by all sessions in turn.
fn adds_of(alloc: Global, bytes: Range<u64>, sessions: u64) -> Result<String, AllocError> {
    let mut script = String::new(alloc);
    for byte in bytes {
        let session = byte % sessions.max(1);
        script.push_str(format!(in alloc; "{session} add fill:{byte:02x}:1\n")?.as_str())?;
    }
    Ok(script)
}

/// How many lines of the sessions have one of these words behind their command.
fn count(text: &str, words: &[&str]) -> usize {
    let sessions = text.split_once("history\n").map_or(text, |parts| parts.0);
    let is_one = |line: &&str| words.iter().any(|word| line.contains(*word));
    sessions.lines().filter(is_one).count()
}

#[test]
fn of_sixteen_adds_of_one_blob_one_publishes_it(rt: HostRuntime) -> Result<(), Fail> {
    let alloc = rt.alloc();
    let script = script_of(alloc, &["add hex:6869", "sync"])?;
    let dev = MemDevice::new(alloc, 83)?;
    let (text, _) = printed(&rt, alloc, dev, "fresh 64 128 16", script.as_str(), &NoGate)?;
    assert_eq!(rt; count(text.as_str(), &[" published"]), 1, "{text}");
    assert_eq!(rt;
        count(text.as_str(), &[" exists", " in-flight"]),
        15,
        "{text}"
    );
    assert_eq!(rt; count(text.as_str(), &[" synced"]), 16, "{text}");
    Ok(())
}

#[test]
fn of_sixteen_adds_one_gets_the_last_block_or_the_last_node(rt: HostRuntime) -> Result<(), Fail> {
    let alloc = rt.alloc();
    // 61 blocks of data and one of their tree, of 63; and 127 nodes of 128.
    let filled = String::from_str(alloc, "0 add fill:41:499712\n")?;
    let rows = [
        ("fresh 64 128 16", 83, filled, " no-space 1 0"),
        (
            "fresh 256 128 16",
            275,
            adds_of(alloc, 0..127, 1)?,
            " no-nodes 1 0",
        ),
    ];
    for (line, blocks, before, refused) in rows {
        let dev = MemDevice::new(alloc, blocks)?;
        let (_, dev) = printed(&rt, alloc, dev, line, before.as_str(), &NoGate)?;
        let script = adds_of(alloc, 128..144, SESSIONS)?;
        let (text, _) = printed(&rt, alloc, dev, "script", script.as_str(), &NoGate)?;
        assert_eq!(rt; count(text.as_str(), &[" published"]), 1, "{text}");
        assert_eq!(rt; count(text.as_str(), &[refused]), 15, "{text}");
    }
    Ok(())
}

#[test]
fn a_blob_past_the_last_node_is_refused(rt: HostRuntime) -> Result<(), Fail> {
    let alloc = rt.alloc();
    let script = adds_of(alloc, 0..129, 1)?;
    for line in ["fresh 256 128 16", "fresh2 256 128 16"] {
        let dev = MemDevice::new(alloc, 275)?;
        let (text, _) = printed(&rt, alloc, dev, line, script.as_str(), &NoGate)?;
        assert_eq!(rt; count(text.as_str(), &[" published"]), 128, "{line}");
        assert!(rt; text.contains(" no-nodes 1 0\nhistory\n"), "{line}");
    }
    Ok(())
}

/// What each session does with the blob.
const ROUND: [&str; 6] = [
    "add hex:6869",
    "open 0 hex:6869",
    "unlink hex:6869",
    "read 0 0 2",
    "close 0",
    "sync",
];

/// The blob's line in a list.
const LINE: &str = "df6d2bb7dac8a27c99a0ac498fabc106e94eab93dc88d40b2e313aeae33cb5a6 2\n";

#[test]
fn a_blob_that_all_open_unlink_and_add_again_is_whole_or_gone(rt: HostRuntime) -> Result<(), Fail> {
    let alloc = rt.alloc();
    let mut script = script_of(alloc, &ROUND)?;
    script.push_str(script_of(alloc, &ROUND)?.as_str())?;
    let dev = MemDevice::new(alloc, 83)?;
    let (text, dev) = printed(&rt, alloc, dev, "fresh 64 128 16", script.as_str(), &NoGate)?;
    let text = text.as_str();
    let published = count(text, &[" published"]);
    let unlinked = count(text, &[" unlinked"]);
    let opened = count(text, &[" opened 2"]);
    // Each of the 16 sessions does each line twice, and it has one of its answers.
    for (lines, words) in [
        (
            32,
            [" published", " exists", " in-flight", " leaving "].as_slice(),
        ),
        (64, &[" opened 2", " not-found", " unlinked"]),
        (64, &[" bytes 2 6869", " closed", " bad-slot"]),
        (32, &[" synced"]),
    ] {
        assert_eq!(rt; count(text, words), lines, "{text}");
    }
    assert_eq!(rt; count(text, &[" bytes 2 6869"]), opened, "{text}");
    assert_eq!(rt; count(text, &[" closed"]), opened, "{text}");
    // What is published was unlinked before it is published again.
    assert!(rt;
        matches!(published.checked_sub(unlinked), Some(0 | 1)),
        "{text}"
    );
    let list = if unlinked < published { LINE } else { "" };
    let (listed, dev) = printed(&rt, alloc, dev, "list", "", &NoGate)?;
    assert_eq!(rt; listed.as_str(), list);
    let (report, _) = printed(&rt, alloc, dev, "check", "", &NoGate)?;
    assert!(rt; report.starts_with("check: clean\n"), "{report}");
    Ok(())
}
