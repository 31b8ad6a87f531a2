//! Each byte at each place of a line of each command, and a script cut after each byte: what parsing
//! answers is what an independent reading of the grammar gives.

ghost use Rattle.std.specs.Prelude.{◌≤◌, ◌+◌, length};

use crate::base::half;
use bv_script::{parse, print};
use sha2::{Digest, Sha256};
use spec_script::ScriptFault;
use std::alloc::Global;
use std::test::Fail;

/// A line of each command, with each form of its words.
const LINES: [&str; 12] = [
    "0 add hex:00ff",
    "15 add fill:a0:9",
    "3 add seq:255:10",
    "7 open 63 0123456789abcdef0123456789abcdef0123456789abcdef0123456789abcdef",
    "0 open 0 seq:0:3",
    "9 read 8 0 999",
    "12 scan 5",
    "4 close 60",
    "5 unlink 0123456789abcdef0123456789abcdef0123456789abcdef0123456789abcdef",
    "6 unlink hex:",
    "1 sync",
    "2 list",
];

/// Adds what parsing answers: the first faulty line and its fault, or else the print.
fn add(hasher: &mut Sha256, alloc: Global, bytes: &[u8]) -> Result<(), Fail> {
    match parse(alloc, bytes) {
        Ok(script) => hasher.update(print(alloc, &script)?.as_slice()),
        Err(ScriptFault::At { line, kind }) => {
            hasher.update(format!(in alloc; "{line} {kind:?}")?.as_bytes());
        }
        Err(ScriptFault::NoMemory) => return Err("no memory".into()),
    }
    hasher.update(&[0u8]);
    Ok(())
}

/// A line with this byte at a place, in place of so many bytes there.
fn changed(
    alloc: Global,
    line: &[u8],
    place: usize,
    byte: u8,
    without: usize,
) -> Result<Vec<u8>, Fail>
    requires { place + without ≤ length line.now }
{
    let (before, behind) = line.split_at(place);
    let mut bytes = Vec::new(alloc);
    bytes.extend_from_slice(before)?;
    bytes.push(byte)?;
    bytes.extend_from_slice(&behind[without..])?;
    Ok(bytes)
}

/// Adds the answers to a line with each byte at this place, in place of so many bytes.
fn add_bytes(
    hasher: &mut Sha256,
    alloc: Global,
    line: &[u8],
    place: usize,
    without: usize,
) -> Result<(), Fail>
    requires { place + without ≤ length line.now }
{
    for byte in 0..=255 {
        let bytes = changed(alloc, line, place, byte, without)?;
        add(hasher, alloc, &bytes)?;
    }
    Ok(())
}

/// Adds the answers to a line with each byte in place of each, then before each and at the end.
fn add_places(hasher: &mut Sha256, alloc: Global, line: &[u8]) -> Result<(), Fail> {
    for place in 0..line.len() {
        add_bytes(hasher, alloc, line, place, 1)?;
    }
    for place in 0..line.len() {
        add_bytes(hasher, alloc, line, place, 0)?;
    }
    add_bytes(hasher, alloc, line, line.len(), 0)
}

/// The hash of the answers to these lines with each byte at each place.
fn hash_of_changes(alloc: Global, lines: &[&str]) -> Result<u128, Fail> {
    let mut hasher = Sha256::new();
    for line in lines {
        add_places(&mut hasher, alloc, line.as_bytes())?;
    }
    Ok(half(&hasher.finalize()))
}

#[test]
fn each_byte_at_each_place_of_a_line_is_read_by_the_grammar(rt: HostRuntime) -> Result<(), Fail> {
    let hash = hash_of_changes(rt.alloc(), &LINES)?;
    assert_eq!(rt; hash, 0x61e156a20a5f07c7a6f2b0e917f95fe3);
    Ok(())
}

/// The lines, each behind two that are skipped.
fn joined(alloc: Global, lines: &[&str]) -> Result<String, Fail> {
    let mut text = String::new(alloc);
    for line in lines {
        text.push_str("#\n\n")?;
        text.push_str(line)?;
        text.push_str("\n")?;
    }
    Ok(text)
}

/// The hash of the answers to a text cut after each byte, and before the first.
fn hash_of_cuts(alloc: Global, text: &[u8]) -> Result<u128, Fail> {
    let mut hasher = Sha256::new();
    for count in 0..text.len() {
        add(&mut hasher, alloc, &text[..count])?;
    }
    add(&mut hasher, alloc, text)?;
    Ok(half(&hasher.finalize()))
}

#[test]
fn a_script_cut_after_each_byte_is_read_by_the_grammar(rt: HostRuntime) -> Result<(), Fail> {
    let text = joined(rt.alloc(), &LINES)?;
    let hash = hash_of_cuts(rt.alloc(), text.as_bytes())?;
    assert_eq!(rt; hash, 0x824c10b00eaae3c1baee865b59fd1f94);
    Ok(())
}
