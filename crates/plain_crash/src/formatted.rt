//! Whether an image is one that a stop within a `format` may leave.

ghost use Rattle.std.specs.Prelude.{◌≡◌, ◌⊎◌, ◌↔◌, [], IfOk, IsTrue};
ghost use Rattle.spec_crash.specs.Format.{head, HasOldHead, HasNoHead, IsEmptyVolume};
ghost use Rattle.spec_disk.specs.Disk as D;

use crate::volumes::volume_of;
use spec_disk::{Block, Event, now_of};
use spec_record::Geometry;
use spec_tree::{Blob, Digest};
use std::alloc::{AllocError, Global};
use std::collections::BTreeMap;

/// The first sector of block 0; without a block, no bytes.
fn head_of(disk: &[Block]) -> &[u8]
    ensures { result.now ≡ head disk.now }
{
    match disk.first() {
        Some(block) => &block[..512],
        None => &[],
    }
}

/// Whether an Ok sync stands among these events.
fn has_sync(events: &[Event]) -> bool
    ensures { result ≡ D.has_sync events.now }
{
    for event in events {
        if let Event::Sync { ok: true } = event {
            return true;
        }
    }
    false
}

/// Whether the head is the one that stood there before, with no Ok sync since.
fn has_old_head(
    alloc: Global,
    base: &[Block],
    before: &[Event],
    events: &[Event],
    image: &[Block],
) -> Result<bool, AllocError>
    ensures { IfOk result (λ yes.
        IsTrue yes ↔ HasOldHead base.now before.now events.now image.now) }
{
    let old = now_of(alloc, base, before)?;
    Ok(!has_sync(events) && head_of(image) == head_of(&old))
}

/// Whether the head is zeros. A reader then refuses it by its magic.
fn has_no_head(image: &[Block]) -> bool
    ensures { IsTrue result ↔ HasNoHead image.now }
{
    head_of(image) == [0; 512].as_slice()
}

/// Whether the geometry that was found is this one, and no blob is held.
fn is_same_and_empty(found: &Geometry, geometry: &Geometry, held: &BTreeMap<Digest, Blob>) -> bool
    ensures { IsTrue result ↔ ((found.now ≡ geometry.now) × (held.now.entries ≡ [])) }
{
    found == geometry && held.is_empty()
}

/// Whether an image is a volume of this geometry without a blob.
fn is_empty_volume(alloc: Global, geometry: &Geometry, image: &[Block]) -> Result<bool, AllocError>
    ensures { IfOk result (λ yes. IsTrue yes ↔ IsEmptyVolume geometry.now image.now) }
{
    let Some(volume) = volume_of(alloc, image)? else {
        return Ok(false);
    };
    Ok(is_same_and_empty(&volume.geometry, geometry, &volume.blobs))
}

/// Whether an image has the old head, or none, or is the new empty volume, where `base` and
/// `before` are the disk and its events when a `format` began, and `events` are its own so far.
pub fn is_left_by_format(
    alloc: Global,
    base: &[Block],
    before: &[Event],
    events: &[Event],
    geometry: &Geometry,
    image: &[Block],
) -> Result<bool, AllocError>
    ensures { IfOk result (λ yes. IsTrue yes ↔ (HasOldHead base.now before.now events.now image.now
        ⊎ (HasNoHead image.now ⊎ IsEmptyVolume geometry.now image.now))) }
{
    if has_no_head(image) || has_old_head(alloc, base, before, events, image)? {
        return Ok(true);
    }
    is_empty_volume(alloc, geometry, image)
}
