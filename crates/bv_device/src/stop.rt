//! The blocks that a stop of the machine leaves, by a choice of bytes.

ghost use Rattle.std.specs.Prelude.{◌≡◌, ◌≢◌, ◌<◌, ◌+◌, ◌*◌, ◌==◌, ℕ, ◌∷◌, length, map, IfOk, Contains, true, false, if◌then◌else◌};
ghost use Rattle.spec_disk.specs.Disk.{block, sector};
ghost use Rattle.spec_disk.specs.Images.{written_to, IsImage};
ghost use Rattle.bv_device.specs.Stop.{open_blocks, byte_for, nth_or_last, IsChosen};

use crate::{Block, Event};
use spec_disk::{synced_len, synced_of};
use std::alloc::{AllocError, Global};

/// The image of a disk that was `base` after these events, by this choice.
pub fn image_of(
    alloc: Global,
    base: &[Block],
    events: &[Event],
    choice: &[u8],
) -> Result<Vec<Block>, AllocError>
    ensures chosen { IfOk result (λ image. IsChosen base.now events.now choice.now image.items) }
    ensures image { IfOk result (λ image. IsImage base.now events.now image.items) }
{
    let mut image = synced_of(alloc, base, events)?;
    mix_all(&mut image, &events[synced_len(events)..], choice);
    Ok(image)
}

/// Gives each sector the candidate that the choice takes, `since` being the events since the last
/// Ok sync.
fn mix_all(image: &mut [Block], since: &[Event], choice: &[u8])
    ensures chosen { (b s : ℕ) → b < length image.old → s < 16
        → sector (block image.new b) s
        ≡ sector (nth_or_last (block image.old b ∷ written_to b since.now)
        (byte_for choice.now (16 * open_blocks since.now b + s))) s }
    ensures left { (b s : ℕ) → b < length image.old
        → Contains (map (λ w. sector w s) (block image.old b ∷ written_to b since.now))
        (sector (block image.new b) s) }
{
    let mut opened = 0;
    for b in 0..image.len() {
        if is_written(since, b as u64) {
            mix(&mut image[b], since, b as u64, choice, opened);
            opened += 1;
        }
    }
}

/// Gives each sector of a block the candidate that the choice takes, `opened` being the number of
/// open blocks before it.
fn mix(block: &mut Block, since: &[Event], at: u64, choice: &[u8], opened: usize)
    ensures chosen { (s : ℕ) → s < 16 → sector block.new s
        ≡ sector (nth_or_last (block.old ∷ written_to at since.now)
        (byte_for choice.now (16 * opened + s))) s }
    ensures left { (s : ℕ)
        → Contains (map (λ w. sector w s) (block.old ∷ written_to at since.now))
        (sector block.new s) }
{
    let synced = *block;
    for s in 0..16 {
        let number = choose(choice, opened, s);
        copy_sector(block, candidate(&synced, since, at, number), s);
    }
}

/// Copies sector `s` of a block.
fn copy_sector(into: &mut Block, from: &Block, s: usize)
    requires { s < 16 }
    ensures this { sector into.new s ≡ sector from.now s }
    ensures others { (t : ℕ) → t ≢ s → sector into.new t ≡ sector into.old t }
{
    let piece = &from[512 * s..512 * s + 512];
    into[512 * s..512 * s + 512].copy_from_slice(piece);
}

/// The number of the candidate that sector `s` takes in the open block with this number, from 0.
fn choose(choice: &[u8], opened: usize, s: usize) -> usize
    ensures { result ≡ byte_for choice.now (16 * opened + s) }
{
    if choice.is_empty() {
        return 0;
    }
    let number = opened.saturating_mul(16).saturating_add(s);
    choice[number.min(choice.len() - 1)] as usize
}

/// What was synced for 0, or what these events wrote to block `at` as the nth, or last.
fn candidate<'a>(synced: &'a Block, since: &'a [Event], at: u64, n: usize) -> &'a Block
    ensures { result.now ≡ nth_or_last (synced.now ∷ written_to at since.now) n }
{
    let mut found = synced;
    let mut left = n;
    for event in since {
        if let Event::Write {
            at: place,
            bytes,
            ..
        } = event
        {
            if *place == at && left > 0 {
                found = bytes;
                left -= 1;
            }
        }
    }
    found
}

/// Whether these events write to block `at`.
fn is_written(since: &[Event], at: u64) -> bool
    ensures { result ≡ (if length (written_to at since.now) == 0 then false else true) }
{
    for event in since {
        if let Event::Write { at: place, .. } = event {
            if *place == at {
                return true;
            }
        }
    }
    false
}
