//! What the disk is, what was last written, and what the last Ok sync found, event by event.

ghost use Rattle.std.specs.Prelude.{◌≡◌, ◌≤◌, ℕ, length, IfOk};
ghost use Rattle.spec_disk.specs.Disk.{now_after, last_after, synced_part, synced_after};

use crate::event::Event;
use std::alloc::{AllocError, Global};

/// A block of a disk.
pub type Block = [u8; 8192];

/// Now: the disk with every Ok write applied, in order.
pub fn now_of(alloc: Global, base: &[Block], events: &[Event]) -> Result<Vec<Block>, AllocError>
    ensures { IfOk result (λ now. now.items ≡ now_after base.now events.now) }
{
    let mut disk = Vec::from_slice(alloc, base)?;
    for event in events {
        if let Event::Write { at, bytes, ok } = event {
            let place = *at as usize;
            if *ok && place < disk.len() {
                disk[place] = *bytes;
            }
        }
    }
    Ok(disk)
}

/// Last: the disk with every write applied, in order, failed ones too.
pub fn last_of(alloc: Global, base: &[Block], events: &[Event]) -> Result<Vec<Block>, AllocError>
    ensures { IfOk result (λ last. last.items ≡ last_after base.now events.now) }
{
    let mut disk = Vec::from_slice(alloc, base)?;
    for event in events {
        if let Event::Write { at, bytes, .. } = event {
            let place = *at as usize;
            if place < disk.len() {
                disk[place] = *bytes;
            }
        }
    }
    Ok(disk)
}

/// The number of events up to the last Ok sync, itself included; 0 without one.
pub fn synced_len(events: &[Event]) -> usize
    ensures exact { result ≡ length (synced_part events.now) }
    ensures within { result ≤ length events.now }
{
    let mut len = 0;
    for (i, event) in events.iter().enumerate() {
        if let Event::Sync { ok } = event {
            if *ok {
                len = i + 1;
            }
        }
    }
    len
}

/// Synced: what the disk was at the last Ok sync; before the first, the base.
pub fn synced_of(alloc: Global, base: &[Block], events: &[Event]) -> Result<Vec<Block>, AllocError>
    ensures { IfOk result (λ synced. synced.items ≡ synced_after base.now events.now) }
{
    now_of(alloc, base, &events[..synced_len(events)])
}
