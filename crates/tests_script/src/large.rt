//! A mebibyte of one byte, and of one line.

use crate::base::{Answer, answer};
use spec_script::ScriptKind::{Arguments, Byte, Data, Length, Lines, Number, Session};
use std::alloc::Global;
use std::process::Abort;
use std::test::Fail;

const MEBIBYTE: usize = 1 << 20;

/// What stands before as many bytes as make a mebibyte with it, that byte, and what parsing answers.
const ROWS: [(&str, u8, Answer); 16] = [
    ("", b' ', Some((1, Session))),
    ("", b'\n', Some((4097, Lines))),
    ("", 0, Some((1, Byte))),
    ("", b'7', Some((1, Session))),
    ("", b'#', None),
    ("#\n", b'#', None),
    ("0 sync\n", b'\n', Some((4097, Lines))),
    ("0 sync\n#", b' ', None),
    ("0 sync\n", b' ', Some((2, Session))),
    ("0 sync ", b' ', Some((1, Arguments))),
    ("0 scan ", b'1', Some((1, Number))),
    ("0 read 0 0 ", b'0', Some((1, Number))),
    ("0 add hex:", b'7', None),
    ("00 add hex:", b'7', Some((1, Session))),
    ("15 add hex:", b'7', Some((1, Data))),
    ("0 add fill:", b':', Some((1, Data))),
];

/// Parsing answers as each row says.
fn all_answer<R: Abort>(rt: &R, alloc: Global, rows: &[(&str, u8, Answer)]) -> Result<(), Fail> {
    for (start, byte, wanted) in rows {
        let mut bytes = Vec::new(alloc);
        bytes.extend_from_slice(start.as_bytes())?;
        bytes.resize(MEBIBYTE, *byte)?;
        assert_eq!(rt; answer(alloc, &bytes)?, *wanted, "{start} {byte}");
    }
    Ok(())
}

#[test]
fn a_mebibyte_is_read_in_any_form(rt: HostRuntime) -> Result<(), Fail> {
    all_answer(&rt, rt.alloc(), &ROWS)
}

/// What parsing answers to so many bytes in one `hex:` word.
fn answers_to_digits(alloc: Global, count: usize) -> Result<Answer, Fail> {
    let mut bytes = Vec::new(alloc);
    bytes.extend_from_slice(b"0 add hex:")?;
    bytes.resize(count.saturating_mul(2).saturating_add(10), b'a')?;
    answer(alloc, &bytes)
}

#[test]
fn a_word_of_digits_is_read_up_to_its_limit(rt: HostRuntime) -> Result<(), Fail> {
    let alloc = rt.alloc();
    assert_eq!(rt; answers_to_digits(alloc, 4_194_304)?, None);
    assert_eq!(rt; answers_to_digits(alloc, 4_194_305)?, Some((1, Length)));
    Ok(())
}
