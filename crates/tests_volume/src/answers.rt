//! What the lines of sessions answered, in short.

use spec_session::{LineResult, SessionEnd};
use std::process::Abort;

/// What a line answered: its word and the number behind it, 0 where there is none. Of bytes that is
/// how many there are.
pub type Answer = (&'static str, u64);

pub fn answer_of(answered: &LineResult) -> Answer {
    match answered {
        LineResult::Published => ("published", 0),
        LineResult::Exists => ("exists", 0),
        LineResult::Leaving { handles } => ("leaving", *handles),
        LineResult::NoSpace { need, .. } => ("no-space", *need),
        LineResult::Opened { size } => ("opened", *size),
        LineResult::NotFound => ("not-found", 0),
        LineResult::Bytes(bytes) => ("bytes", bytes.len() as u64),
        LineResult::Whole { size } => ("whole", *size),
        LineResult::Closed => ("closed", 0),
        LineResult::Unlinked => ("unlinked", 0),
        LineResult::Synced => ("synced", 0),
        LineResult::Listed(blobs) => ("list", blobs.len() as u64),
        _ => ("another", 0),
    }
}

/// The sessions answered this, one session after another.
pub fn have_answered<R: Abort>(rt: &R, ends: &[SessionEnd], wanted: &[Answer]) {
    let mut at = 0;
    for end in ends {
        assert!(rt; !end.memory);
        for answered in &end.results {
            assert!(rt; at < wanted.len());
            let (word, number) = answer_of(answered);
            assert_eq!(rt; word, wanted[at].0, "{at}");
            assert_eq!(rt; number, wanted[at].1, "{at}");
            at += 1;
        }
    }
    assert_eq!(rt; at, wanted.len());
}
