//! Whether a stop may leave a disk, found by comparing sector after sector.

ghost use Rattle.std.specs.Prelude.{◌≡◌, ◌<◌, ◌↔◌, ℕ, [], ◌∷◌, length, IfOk, IsTrue, Contains};
ghost use Rattle.spec_disk.specs.Disk.{block, sector};
ghost use Rattle.spec_disk.specs.Images.{written_to, sectors_at, IsImage};

use crate::event::Event;
use crate::now::{Block, synced_len, synced_of};
use std::alloc::{AllocError, Global};

/// Whether a stop after these events may leave `image` of a disk that was `base`.
pub fn is_image(
    alloc: Global,
    base: &[Block],
    events: &[Event],
    image: &[Block],
) -> Result<bool, AllocError>
    ensures { IfOk result (λ yes. IsTrue yes ↔ IsImage base.now events.now image.now) }
{
    if image.len() != base.len() {
        return Ok(false);
    }
    let synced = synced_of(alloc, base, events)?;
    let since = &events[synced_len(events)..];
    Ok(are_blocks_left(image, &synced, since))
}

/// Whether each sector of `image` is that of `synced`, or of a write of these events to its block.
fn are_blocks_left(image: &[Block], synced: &[Block], since: &[Event]) -> bool
    requires { length image.now ≡ length synced.now }
    ensures { IsTrue result ↔ ((b s : ℕ) → b < length image.now
        → Contains (sectors_at s (block synced.now b ∷ written_to b since.now))
        (sector (block image.now b) s)) }
{
    for b in 0..image.len() {
        if !is_block_left(&image[b], &synced[b], since, b as u64) {
            return false;
        }
    }
    true
}

/// Whether each sector of `block` is that of `synced`, or of a write of these events to block `at`.
fn is_block_left(block: &Block, synced: &Block, since: &[Event], at: u64) -> bool
    ensures { IsTrue result ↔ ((s : ℕ)
        → Contains (sectors_at s (synced.now ∷ written_to at since.now)) (sector block.now s)) }
{
    for s in 0..16 {
        if !is_sector_left(block, synced, since, at, s) {
            return false;
        }
    }
    true
}

/// Whether sector `s` of `block` is that of `synced`, or of a write of these events to block `at`.
fn is_sector_left(block: &Block, synced: &Block, since: &[Event], at: u64, s: usize) -> bool
    requires { s < 16 }
    ensures { IsTrue result
        ↔ Contains (sectors_at s (synced.now ∷ written_to at since.now)) (sector block.now s) }
{
    let piece = sector_of(block, s);
    *piece == *sector_of(synced, s) || is_written(since, at, s, piece)
}

/// Whether a write of these events to block `at` has this sector `s`.
fn is_written(since: &[Event], at: u64, s: usize, piece: &[u8]) -> bool
    requires { s < 16 }
    ensures { IsTrue result ↔ Contains (sectors_at s (written_to at since.now)) piece.now }
{
    for event in since {
        if writes(event, at, s, piece) {
            return true;
        }
    }
    false
}

/// Whether this event is a write to block `at` that has this sector `s`.
fn writes(event: &Event, at: u64, s: usize, piece: &[u8]) -> bool
    requires { s < 16 }
    ensures { IsTrue result
        ↔ Contains (sectors_at s (written_to at (event.now ∷ []))) piece.now }
{
    match event {
        Event::Write {
            at: place,
            bytes,
            ..
        } => *place == at && *sector_of(bytes, s) == *piece,
        Event::Sync { .. } => false,
    }
}

/// Sector `s` of a block.
fn sector_of(block: &Block, s: usize) -> &[u8]
    requires { s < 16 }
    ensures { result.now ≡ sector block.now s }
{
    &block[512 * s..512 * s + 512]
}
