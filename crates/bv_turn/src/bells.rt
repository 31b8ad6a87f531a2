//! What shares sleep on while they wait for their turn.
//!
//! A bell only ends a sleep: whether a ticket may be drawn, a share sees at the table. So no bell is
//! part of the rule.

use crate::turn::BELLS;
use std::sync::atomic::AtomicU64;
use std::sync::atomic::Ordering::SeqCst;

/// Bells that nobody sleeps on.
pub(crate) fn new() -> [AtomicU64; BELLS] {
    [
        AtomicU64::new(0),
        AtomicU64::new(0),
        AtomicU64::new(0),
        AtomicU64::new(0),
        AtomicU64::new(0),
        AtomicU64::new(0),
        AtomicU64::new(0),
        AtomicU64::new(0),
        AtomicU64::new(0),
        AtomicU64::new(0),
        AtomicU64::new(0),
        AtomicU64::new(0),
        AtomicU64::new(0),
        AtomicU64::new(0),
        AtomicU64::new(0),
        AtomicU64::new(0),
    ]
}

/// The bell of a session.
pub(crate) fn of(bells: &[AtomicU64; BELLS], session: u32) -> &AtomicU64 {
    &bells[session as usize % BELLS]
}

/// Wakes one share that sleeps, if one does: the first whose bell is found, from this one on.
pub(crate) fn ring(bells: &[AtomicU64; BELLS], first: u64) {
    let first = (first % BELLS as u64) as usize;
    let (behind, from) = bells.split_at(first);
    for bell in from.iter().chain(behind) {
        // Mostly nobody sleeps there: a look costs less than an exchange.
        if bell.load(SeqCst) != 0 && bell.swap(0, SeqCst) != 0 {
            bell.wake_one();
            return;
        }
    }
}
