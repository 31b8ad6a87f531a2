//! What parsing answers, in short.

use bv_script::parse;
use spec_script::{ScriptFault, ScriptKind};
use std::alloc::Global;
use std::test::Fail;

/// The first faulty line and its first fault; none where the script is read.
pub type Answer = Option<(u32, ScriptKind)>;

/// What parsing answers to these bytes.
pub fn answer(alloc: Global, bytes: &[u8]) -> Result<Answer, Fail> {
    match parse(alloc, bytes) {
        Ok(_) => Ok(None),
        Err(ScriptFault::At { line, kind }) => Ok(Some((line, kind))),
        Err(ScriptFault::NoMemory) => Err("no memory".into()),
    }
}

/// A line so many times, and text behind them.
pub fn repeated(alloc: Global, line: &str, count: u32, last: &str) -> Result<String, Fail> {
    let mut text = String::new(alloc);
    for _ in 0..count {
        text.push_str(line)?;
    }
    text.push_str(last)?;
    Ok(text)
}

/// The first half of a hash.
pub fn half(hash: &[u8; 32]) -> u128 {
    let mut front = [0; 16];
    front.copy_from_slice(&hash[..16]);
    u128::from_be_bytes(front)
}
