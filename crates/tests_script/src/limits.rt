//! Each limit at its number, below and above.

use crate::base::{Answer, answer, repeated};
use spec_script::ScriptKind::{Byte, Command, Data, Length, Lines, Lists, Name, Number, Sum};
use std::alloc::Global;
use std::process::Abort;
use std::test::Fail;

/// A line so many times, what stands behind them, and what parsing answers.
type Row<'a> = (&'a str, u32, &'a str, Answer);

const LISTS: [Row; 3] = [
    ("0 list\n", 15, "15 list", None),
    ("0 list\n", 16, "0 sync", None),
    ("0 list\n", 16, "15 list", Some((17, Lists))),
];

/// Of lines, also skipped ones.
const LINES: [Row; 9] = [
    ("0 close 0\n", 4095, "0 sync", None),
    ("0 close 0\n", 4096, "", None),
    ("0 close 0\n", 4096, "0 sync", Some((4097, Lines))),
    ("#\n", 4096, "", None),
    ("#\n", 4096, "#", Some((4097, Lines))),
    ("\n", 4096, "", None),
    ("\n", 4096, "\n", Some((4097, Lines))),
    ("\n", 4096, "16 frob", Some((4097, Lines))),
    ("\n", 4096, "\u{1f}", Some((4097, Byte))),
];

/// Of all data words. A root counts nothing.
const WORDS: [Row; 13] = [
    ("0 add fill:00:4194304\n", 15, "0 add seq:0:4194303", None),
    ("0 add fill:00:4194304\n", 15, "0 add seq:0:4194304", None),
    ("0 add fill:00:4194304\n", 16, "0 add hex:\n0 list", None),
    (
        "0 add fill:00:4194304\n",
        16,
        "0 add hex:00",
        Some((17, Sum)),
    ),
    (
        "0 add fill:00:4194304\n",
        16,
        "0 open 0 hex:00",
        Some((17, Sum)),
    ),
    (
        "0 add fill:00:4194304\n",
        16,
        "0 unlink fill:00:1",
        Some((17, Sum)),
    ),
    ("0 open 0 seq:0:4194304\n", 16, "0 read 0 0 65536", None),
    (
        "0 open 0 seq:0:4194304\n",
        16,
        "0 unlink seq:0:1",
        Some((17, Sum)),
    ),
    ("0 unlink seq:0:4194304\n", 16, "0 scan 0", None),
    (
        "0 unlink seq:0:4194304\n",
        16,
        "0 add seq:0:1",
        Some((17, Sum)),
    ),
    (
        "0 add fill:00:4194304\n",
        16,
        "0 add seq:0:4194305",
        Some((17, Length)),
    ),
    (
        "0 add fill:00:4194304\n",
        16,
        "0 add seq:0:x",
        Some((17, Data)),
    ),
    (
        "0 add fill:00:4194304\n",
        16,
        "0 unlink 0123456789abcdef0123456789abcdef0123456789abcdef0123456789abcdef",
        None,
    ),
];

/// Of all reads.
const READS: [Row; 5] = [
    ("0 read 0 0 65536\n", 255, "0 read 0 0 65535", None),
    ("0 read 0 0 65536\n", 256, "0 read 0 0 0", None),
    ("0 read 0 0 65536\n", 256, "0 add fill:00:4194304", None),
    ("0 read 0 0 65536\n", 256, "0 read 0 0 1", Some((257, Sum))),
    (
        "0 read 0 0 65536\n",
        256,
        "0 read 0 0 65537",
        Some((257, Length)),
    ),
];

/// Of one line.
const ONE: [Row; 21] = [
    ("", 0, "15 sync", None),
    ("", 0, "0 scan 63", None),
    ("", 0, "0 add fill:ff:4194303", None),
    ("", 0, "0 add fill:ff:4194304", None),
    ("", 0, "0 add fill:ff:4194305", Some((1, Length))),
    ("", 0, "0 open 0 seq:0:4194304", None),
    ("", 0, "0 unlink seq:0:4194304", None),
    ("", 0, "0 add seq:255:0", None),
    ("", 0, "0 read 0 0 65535", None),
    ("", 0, "0 read 0 0 65536", None),
    ("", 0, "0 read 0 0 65537", Some((1, Length))),
    ("", 0, "0 read 0 99999999999999999 0", None),
    ("", 0, "0 read 0 999999999999999999 0", None),
    ("", 0, "0 read 0 1000000000000000000 0", Some((1, Number))),
    ("", 0, "0 read 0 18446744073709551616 0", Some((1, Number))),
    ("", 0, "0 read 0 0 999999999999999999", Some((1, Length))),
    ("", 0, "0 add fill:00:999999999999999999", Some((1, Length))),
    ("", 0, "0 add fill:00:1000000000000000000", Some((1, Data))),
    ("", 0, "0 unlink seq:0:1000000000000000000", Some((1, Name))),
    ("0 sync\n", 4095, "0 frob", Some((4096, Command))),
    ("0 sync\n", 4096, "0 frob", Some((4097, Lines))),
];

/// Parsing answers as each row says.
fn all_answer<R: Abort>(rt: &R, alloc: Global, rows: &[Row]) -> Result<(), Fail> {
    for (line, count, last, wanted) in rows {
        let text = repeated(alloc, line, *count, last)?;
        assert_eq!(rt;
            answer(alloc, text.as_bytes())?,
            *wanted,
            "{count} {line} {last}"
        );
    }
    Ok(())
}

#[test]
fn each_limit_is_met_at_its_number_and_told_above(rt: HostRuntime) -> Result<(), Fail> {
    let alloc = rt.alloc();
    all_answer(&rt, alloc, &LISTS)?;
    all_answer(&rt, alloc, &LINES)?;
    all_answer(&rt, alloc, &WORDS)?;
    all_answer(&rt, alloc, &READS)?;
    all_answer(&rt, alloc, &ONE)
}
