//! Each fault of a line at each place where it can stand.

use crate::base::answer;
use spec_script::ScriptKind;
use std::alloc::Global;
use std::process::Abort;
use std::test::Fail;

/// Lines that have this fault and none that is tested before it. The last ones of a row have a fault
/// besides that is tested later.
type Row<'a> = (ScriptKind, &'a [&'a str]);

const BYTE: Row = (
    ScriptKind::Byte,
    &[
        "\t",
        "\u{7f}0 sync",
        "0\tsync",
        "0 s\u{0}nc",
        "0 sync\r",
        "0 sync\u{7f}",
        "#\u{1f}",
        "# \u{e9}",
        // and a later fault
        "16\t",
        "0 frob\t",
        "0 add \t",
        "0 scan x\t",
        "0 scan 64 \t",
        "0 add hex:\t",
        "0 unlink \t",
        "0 add fill:00:4194305\t",
    ],
);

const SESSION: Row = (
    ScriptKind::Session,
    &[
        " ",
        " 0 sync",
        "x sync",
        "16 sync",
        "00 sync",
        "01 sync",
        "-1 sync",
        "+1 sync",
        "0x0 sync",
        "0# sync",
        "999999999999999999 sync",
        "1000000000000000000 sync",
        "sync",
        // and a later fault
        "16",
        "16 frob",
        "16 add",
        "16 scan x",
        "16 scan 64",
        "16 add x",
        "16 unlink x",
        "16 read 0 0 65537",
    ],
);

const COMMAND: Row = (
    ScriptKind::Command,
    &[
        "0",
        "0 ",
        "0  sync",
        "0 frob",
        "0 Sync",
        "0 syn",
        "0 syncs",
        "0 #",
        "15 0",
        // and a later fault
        "0 frob ",
        "0  read 64 x",
    ],
);

const ARGUMENTS: Row = (
    ScriptKind::Arguments,
    &[
        "0 add",
        "0 add ",
        "0 add hex: ",
        "0 add  hex:",
        "0 add hex: hex:",
        "0 open",
        "0 open 0",
        "0 open 0 ",
        "0 open  hex:",
        "0 open 0 hex: ",
        "0 open 0 hex: 0",
        "0 read",
        "0 read 0",
        "0 read 0 0",
        "0 read 0 0 ",
        "0 read 0  0",
        "0 read  0 0",
        "0 read 0 0 0 ",
        "0 read 0 0 0 0",
        "0 scan",
        "0 scan ",
        "0 scan 0 ",
        "0 scan 0 0",
        "0 close",
        "0 close ",
        "0 close 0 ",
        "0 close 0 0",
        "0 unlink",
        "0 unlink ",
        "0 unlink hex: ",
        "0 unlink hex: hex:",
        "0 sync ",
        "0 sync 0",
        "0 list ",
        "0 list 0",
        // and a later fault
        "0 read x 0",
        "0 scan x ",
        "0 open 64",
        "0 close 64 0",
        "0 add x x",
        "0 unlink x ",
        "0 read 0 0 65537 0",
    ],
);

const NUMBER: Row = (
    ScriptKind::Number,
    &[
        "0 open x hex:",
        "0 open 00 hex:",
        "0 open hex: 0",
        "0 read x 0 0",
        "0 read 0 x 0",
        "0 read 0 0 x",
        "0 read 01 0 0",
        "0 read 0 01 0",
        "0 read 0 0 01",
        "0 read 1000000000000000000 0 0",
        "0 read 0 1000000000000000000 0",
        "0 read 0 0 1000000000000000000",
        "0 scan x",
        "0 scan +1",
        "0 scan 0.",
        "0 close -1",
        "0 close 1000000000000000000",
        // and a later fault
        "0 read 64 x 0",
        "0 read 64 0 x",
        "0 open x x",
        "0 read 0 x 65537",
    ],
);

const SLOT: Row = (
    ScriptKind::Slot,
    &[
        "0 open 64 hex:",
        "0 read 64 0 0",
        "0 scan 64",
        "0 close 64",
        "0 close 999999999999999999",
        // and a later fault
        "0 open 64 x",
        "0 open 64 fill:00:4194305",
        "0 read 64 0 65537",
    ],
);

/// What is no data word, and no name either.
const NEITHER: [&str; 34] = [
    "x",
    ":",
    "hex",
    "hex:0",
    "hex:0A",
    "hex:0g",
    "hex:00:",
    "hex::00",
    "Hex:00",
    "hexx:00",
    ":00",
    "fill",
    "fill:00",
    "fill:00:",
    "fill::1",
    "fill:0:1",
    "fill:000:1",
    "fill:A0:1",
    "fill:g0:1",
    "fill:00:x",
    "fill:00:01",
    "fill:00:-1",
    "fill:00:1:",
    "fill:00:1000000000000000000",
    "seq",
    "seq:0",
    "seq:0:",
    "seq::1",
    "seq:00:1",
    "seq:x:1",
    "seq:256:1",
    "seq:0:1:1",
    // and a later fault
    "seq:256:4194305",
    "fill:0:4194305",
];

/// A root in digits: a name, and no data word.
const ROOT: &str = "0123456789abcdef0123456789abcdef0123456789abcdef0123456789abcdef";

/// One digit less, one more, and digits in upper case.
const DIGITS: [&str; 3] = [
    "0123456789abcdef0123456789abcdef0123456789abcdef0123456789abcde",
    "0123456789abcdef0123456789abcdef0123456789abcdef0123456789abcdef0",
    "0123456789ABCDEF0123456789ABCDEF0123456789ABCDEF0123456789ABCDEF",
];

/// A data word or a read past its limit.
const LENGTH: Row = (
    ScriptKind::Length,
    &[
        "0 add fill:00:4194305",
        "0 add seq:255:4194305",
        "0 add fill:00:999999999999999999",
        "0 open 63 fill:00:4194305",
        "0 open 63 seq:0:4194305",
        "0 unlink fill:00:4194305",
        "0 unlink seq:0:4194305",
        "0 read 63 0 65537",
        "0 read 63 0 999999999999999999",
    ],
);

/// A line of each fault.
const LATER: [&str; 9] = [
    "\t",
    "16 sync",
    "0 frob",
    "0 add",
    "0 scan x",
    "0 scan 64",
    "0 add x",
    "0 unlink x",
    "0 read 0 0 65537",
];

/// The line's fault is told where the line stands alone, and behind lines that are read and before one
/// with any other fault.
fn tells<R: Abort>(
    rt: &R,
    alloc: Global,
    line: &str,
    kind: ScriptKind,
    laters: &[&str],
) -> Result<(), Fail> {
    assert_eq!(rt; answer(alloc, line.as_bytes())?, Some((1, kind)), "{line}");
    for later in laters {
        let text = format!(in alloc; "# one\n\n15 list\n{line}\n{later}\n0 sync")?;
        assert_eq!(rt; answer(alloc, text.as_bytes())?, Some((4, kind)), "{line}");
    }
    Ok(())
}

/// Each line of a row tells its fault.
fn all_tell<R: Abort>(rt: &R, alloc: Global, row: &Row, laters: &[&str]) -> Result<(), Fail> {
    for line in row.1 {
        tells(rt, alloc, line, row.0, laters)?;
    }
    Ok(())
}

#[test]
fn each_fault_is_told_wherever_it_stands(rt: HostRuntime) -> Result<(), Fail> {
    let alloc = rt.alloc();
    all_tell(&rt, alloc, &BYTE, &LATER)?;
    all_tell(&rt, alloc, &SESSION, &LATER)?;
    all_tell(&rt, alloc, &COMMAND, &LATER)?;
    all_tell(&rt, alloc, &ARGUMENTS, &LATER)?;
    all_tell(&rt, alloc, &NUMBER, &LATER)?;
    all_tell(&rt, alloc, &SLOT, &LATER)?;
    all_tell(&rt, alloc, &LENGTH, &LATER)
}

/// A word that is no data word, in an `add`.
fn is_no_data<R: Abort>(rt: &R, alloc: Global, word: &str, laters: &[&str]) -> Result<(), Fail> {
    let line = format!(in alloc; "0 add {word}")?;
    tells(rt, alloc, line.as_str(), ScriptKind::Data, laters)
}

/// A word that is no name, in an `open` and in an `unlink`.
fn is_no_name<R: Abort>(rt: &R, alloc: Global, word: &str, laters: &[&str]) -> Result<(), Fail> {
    let open = format!(in alloc; "0 open 63 {word}")?;
    tells(rt, alloc, open.as_str(), ScriptKind::Name, laters)?;
    let unlink = format!(in alloc; "0 unlink {word}")?;
    tells(rt, alloc, unlink.as_str(), ScriptKind::Name, laters)
}

/// The same of words that are neither.
fn are_neither<R: Abort>(
    rt: &R,
    alloc: Global,
    words: &[&str],
    laters: &[&str],
) -> Result<(), Fail> {
    for word in words {
        is_no_data(rt, alloc, word, laters)?;
        is_no_name(rt, alloc, word, laters)?;
    }
    Ok(())
}

#[test]
fn each_fault_of_a_word_is_told_by_its_command(rt: HostRuntime) -> Result<(), Fail> {
    let alloc = rt.alloc();
    are_neither(&rt, alloc, &NEITHER, &LATER)?;
    are_neither(&rt, alloc, &DIGITS, &LATER)?;
    is_no_data(&rt, alloc, ROOT, &LATER)?;
    let names = format!(in alloc; "0 open 63 {ROOT}\n0 unlink {ROOT}")?;
    assert_eq!(rt; answer(alloc, names.as_bytes())?, None);
    Ok(())
}
