//! Whether an image that a stop left has no journal entry by chance, by the definition.

ghost use Rattle.std.specs.Prelude.{◌≡◌, ◌<◌, ◌≤◌, ◌^◌, ◌↔◌, ℕ, length, map};
ghost use Rattle.std.specs.Prelude.{All, Contains, IfOk, IfSome, IsTrue, Some};
ghost use Rattle.spec_disk.specs.Disk.{block};
ghost use Rattle.spec_record.specs.Entry.{Entry};
ghost use Rattle.spec_record.specs.Geometry.{IsGeometry, ring_slots, total_blocks};
ghost use Rattle.spec_record.specs.Info.{IsInfo, info_of};
ghost use Rattle.spec_record.specs.Laws.{SpellsSuper};
ghost use Rattle.spec_record.specs.Superblock.{super_of};
ghost use Rattle.spec_image.specs.Journal.{Journal, journal_of};
ghost use Rattle.spec_image.specs.Chance.{placed_at, placed_from, Accepts, SameSlots, NoChance};
ghost use Rattle.spec_image.specs.Volume.{image_super};
ghost use Rattle.plain_crash.specs.Placed.{placed_entry, IsKnown};

use crate::volumes::device_with;
use bv_entry::{Entry, read_info};
use bv_layout::read_super;
use bv_replay::scan;
use spec_disk::{Block, Event, last_of, synced_of};
use spec_record::{Geometry, Info, Super};
use std::alloc::{AllocError, Global};

/// An accepted entry and the slot at which it stands.
#[derive(Drop)]
struct Placed {
    slot: u64,
    entry: Entry,
}

/// What a block 0 stands for on a device of so many blocks, or none.
fn super_of_block(block: &Block, device_blocks: u64) -> Option<Super>
    ensures value { result ≡ super_of block.now device_blocks }
    ensures ok { IfSome result (SpellsSuper block.now device_blocks) }
{
    read_super(block, device_blocks).ok()
}

/// The superblock of an image, or none.
fn super_of_image(image: &[Block]) -> Option<Super>
    ensures value { result ≡ image_super image.now }
    ensures limits { IfSome result (λ s. IsGeometry s.geometry) }
    ensures room { IfSome result (λ s. total_blocks s.geometry ≤ length image.now) }
{
    super_of_block(image.first()?, image.len() as u64)
}

/// These entries, each with its slot, where the first stands at `start` of a ring of so many slots.
fn with_slots(
    alloc: Global,
    start: u64,
    slots: u64,
    entries: Vec<Entry>,
) -> Result<Vec<Placed>, AllocError>
    requires start { start < slots }
    requires small { slots < 2 ^ 32 }
    ensures { (j : Journal) → length j.ring ≡ slots → IfOk result (λ placed.
        map placed_entry placed.items ≡ placed_from j start entries.items) }
{
    let mut placed = Vec::new(alloc);
    let mut slot = start;
    for entry in entries {
        let next = slot + entry.targets().len() as u64 + 2;
        placed.push(Placed { slot, entry })?;
        slot = next % slots;
    }
    Ok(placed)
}

/// What a block says as the info block of a ring of so many slots, or none.
fn info_of_block(block: &Block, slots: u64) -> Option<Info>
    ensures value { result ≡ info_of block.now slots }
    ensures ok { IfSome result (IsInfo slots) }
{
    read_info(block, slots).ok()
}

/// What the info block of an image of this geometry says, or none.
fn info_in(image: &[Block], geometry: &Geometry) -> Option<Info>
    requires limits { IsGeometry geometry.now }
    requires room { total_blocks geometry.now ≤ length image.now }
    ensures value { result ≡ (journal_of geometry.now image.now).info }
    ensures ok { IfSome result (IsInfo (ring_slots geometry.now)) }
{
    info_of_block(&image[geometry.info_at() as usize], geometry.ring())
}

/// The entries of the journal of an image of this geometry, each with its slot.
fn entries_in(
    alloc: Global,
    image: &[Block],
    geometry: &Geometry,
) -> Result<Vec<Placed>, AllocError>
    requires limits { IsGeometry geometry.now }
    requires room { total_blocks geometry.now ≤ length image.now }
    ensures { let j = journal_of geometry.now image.now in IfOk result (λ placed.
        map placed_entry placed.items ≡ placed_at j j.info) }
{
    let Some(info) = info_in(image, geometry) else {
        return Ok(Vec::new(alloc));
    };
    let mut dev = device_with(alloc, image)?;
    let Ok(replay) = scan(alloc, &mut dev, *geometry) else {
        return Err(AllocError);
    };
    with_slots(alloc, info.start, geometry.ring(), replay.entries)
}

/// The entries that the replay of an image accepts, each with its slot.
fn accepted_in(alloc: Global, image: &[Block]) -> Result<Vec<Placed>, AllocError>
    ensures { IfOk result (λ placed. (slot : ℕ) (e : Entry)
        → Contains (map placed_entry placed.items) (slot, e) ↔ Accepts image.now slot e) }
{
    let Some(superblock) = super_of_image(image) else {
        return Ok(Vec::new(alloc));
    };
    entries_in(alloc, image, &superblock.geometry)
}

/// Whether two entries are the same at the same slot.
fn is_same(a: &Placed, b: &Placed) -> bool
    ensures { IsTrue result ↔ (placed_entry a.now ≡ placed_entry b.now) }
{
    if a.slot != b.slot || a.entry.number() != b.entry.number() {
        return false;
    }
    a.entry.targets() == b.entry.targets()
}

/// Whether an entry is among these, the same at the same slot.
fn is_among(placed: &[Placed], wanted: &Placed) -> bool
    ensures { IsTrue result
        ↔ Contains (map placed_entry placed.now) (placed_entry wanted.now) }
{
    for other in placed {
        if is_same(other, wanted) {
            return true;
        }
    }
    false
}

/// Whether the image has the block that was written last there.
fn is_last_block(image: &[Block], last: &[Block], at: usize) -> bool
    requires { at < length image.now }
    ensures { IsTrue result ↔ (block image.now at ≡ block last.now at) }
{
    at < last.len() && image[at] == last[at]
}

/// Whether the image has the blocks that were written last in so many slots, from this one on.
fn are_last_slots(
    image: &[Block],
    last: &[Block],
    geometry: &Geometry,
    slot: u64,
    count: u64,
) -> bool
    requires limits { IsGeometry geometry.now }
    requires room { total_blocks geometry.now ≤ length image.now }
    ensures { IsTrue result ↔ SameSlots geometry.now image.now last.now slot count }
{
    let ring = geometry.ring();
    let mut at = slot % ring;
    for _ahead in 0..count {
        if !is_last_block(image, last, geometry.slot_at(at) as usize) {
            return false;
        }
        at = (at + 1) % ring;
    }
    true
}

/// Whether an entry is among the synced ones, or has the blocks that were written last.
fn is_known(
    placed: &Placed,
    synced: &[Placed],
    image: &[Block],
    last: &[Block],
    geometry: &Geometry,
) -> bool
    requires limits { IsGeometry geometry.now }
    requires room { total_blocks geometry.now ≤ length image.now }
    ensures { IsTrue result ↔ IsKnown (map placed_entry synced.now) geometry.now image.now last.now
        (placed_entry placed.now) }
{
    let slots = placed.entry.targets().len() as u64 + 2;
    is_among(synced, placed) || are_last_slots(image, last, geometry, placed.slot, slots)
}

/// Whether each entry is among the synced ones, or has the blocks that were written last.
fn are_known(
    accepted: &[Placed],
    synced: &[Placed],
    image: &[Block],
    last: &[Block],
    geometry: &Geometry,
) -> bool
    requires limits { IsGeometry geometry.now }
    requires room { total_blocks geometry.now ≤ length image.now }
    ensures { IsTrue result
        ↔ All (IsKnown (map placed_entry synced.now) geometry.now image.now last.now)
        (map placed_entry accepted.now) }
{
    for placed in accepted {
        if !is_known(placed, synced, image, last, geometry) {
            return false;
        }
    }
    true
}

/// Whether no entry of `image` is by chance, where these events were done to a disk that was
/// `base`.
///
/// Each entry that the replay accepts is to be accepted in the synced disk too, the same at the
/// same slot, or to have the blocks that were written last.
pub fn is_no_chance(
    alloc: Global,
    base: &[Block],
    events: &[Event],
    image: &[Block],
) -> Result<bool, AllocError>
    ensures { IfOk result (λ yes. IsTrue yes ↔ NoChance base.now events.now image.now) }
{
    let Some(superblock) = super_of_image(image) else {
        return Ok(true);
    };
    let accepted = accepted_in(alloc, image)?;
    let synced = accepted_in(alloc, &synced_of(alloc, base, events)?)?;
    let last = last_of(alloc, base, events)?;
    Ok(are_known(&accepted, &synced, image, &last, &superblock.geometry))
}
