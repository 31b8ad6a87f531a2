//! Whether an image holds what a stop after so many calls of the device may leave of a history.

ghost use Rattle.std.specs.Prelude.{◌≡◌, ◌≤◌, ◌⊎◌, ◌↔◌, ℕ, [], ◌∷◌, length, Contains};
ghost use Rattle.std.specs.Prelude.{IfOk, IsTrue, OnOk};
ghost use Rattle.std.specs.List.Sorted.{IsStrictlySortedBy};
ghost use Rattle.std.specs.Map.{keys_of};
ghost use Rattle.spec_core.specs.History.{Legal, log_of, opening_map};
ghost use Rattle.spec_core.specs.Log.{changed};
ghost use Rattle.spec_crash.specs.Crash as C;
ghost use Rattle.spec_tree.specs.Order.{digest_cmp};
ghost use Rattle.plain_crash.specs.Holding.{IsLogOf, IsMapAt, IsLeftAt};

use crate::volumes::{is_whole, volume_of};
use bv_model::{History, logged_by, synced_by};
use plain_core::{Logged, logged_of, make_change, opening_of};
use spec_core::MapChange;
use spec_disk::Block;
use spec_tree::{Blob, Digest};
use std::alloc::{AllocError, Global};
use std::collections::BTreeMap;

/// The opening map of a history changed by the first `count` changes of its log.
fn map_after(
    alloc: Global,
    h: &History,
    log: &[MapChange],
    count: usize,
) -> Result<BTreeMap<Digest, Blob>, AllocError>
    requires sorted { IsStrictlySortedBy digest_cmp (keys_of (opening_map h.now.history)) }
    requires log { log.now ≡ log_of h.now.history }
    requires count { count ≤ length log.now }
    ensures { IfOk result (λ map. map.entries ≡ C.map_after h.now.history count) }
{
    let mut map = opening_of(alloc, h)?;
    for change in &log[..count] {
        make_change(&mut map, change)?;
    }
    Ok(map)
}

/// Whether a count is 0 or one of these lengths.
fn is_boundary(lengths: &[u64], count: u64) -> bool
    ensures { IsTrue result ↔ ((count ≡ 0) ⊎ Contains lengths.now count) }
{
    count == 0 || lengths.contains(&count)
}

/// Whether these are the blobs after the first `count` changes, which have each event's changes
/// whole or not at all.
fn is_map_at(
    alloc: Global,
    h: &History,
    logged: &Logged,
    count: usize,
    held: &BTreeMap<Digest, Blob>,
) -> Result<bool, AllocError>
    requires sorted { IsStrictlySortedBy digest_cmp (keys_of (opening_map h.now.history)) }
    requires logged { IsLogOf h.now.history logged.now }
    requires count { count ≤ length (log_of h.now.history) }
    ensures { IfOk result (λ yes. IsTrue yes ↔ IsMapAt h.now.history held.now.entries count) }
{
    if !is_boundary(&logged.lengths, count as u64) {
        return Ok(false);
    }
    let map = map_after(alloc, h, &logged.changes, count)?;
    Ok(map == *held)
}

/// Whether a stop after so many calls of the device may leave these blobs.
fn is_left(
    alloc: Global,
    h: &History,
    calls: u64,
    held: &BTreeMap<Digest, Blob>,
) -> Result<bool, AllocError>
    requires legal { (next : ℕ) × Legal h.now.history next }
    ensures { IfOk result (λ yes.
        IsTrue yes ↔ ((count : ℕ) × IsLeftAt h.now.history calls held.now.entries count)) }
{
    let least = synced_by(h, calls);
    let most = logged_by(h, calls);
    let logged = logged_of(alloc, h)?;
    for count in 0..logged.changes.len() + 1 {
        let is_within = least <= count as u64 && count as u64 <= most;
        if is_within && is_map_at(alloc, h, &logged, count, held)? {
            return Ok(true);
        }
    }
    Ok(false)
}

/// Whether an image holds a prefix of a history's log that a stop after so many calls of the
/// device may leave: all that was durable by then, none that wasn't yet logged, no part of an
/// event's changes, and each blob whole.
pub fn holds_prefix(
    alloc: Global,
    h: &History,
    calls: u64,
    image: &[Block],
) -> Result<bool, AllocError>
    requires legal { (next : ℕ) × Legal h.now.history next }
    ensures { IfOk result (λ yes. IsTrue yes ↔ C.HoldsPrefix h.now.history calls image.now) }
{
    let Some(volume) = volume_of(alloc, image)? else {
        return Ok(false);
    };
    if !is_whole(alloc, image)? {
        return Ok(false);
    }
    is_left(alloc, h, calls, &volume.blobs)
}
