//! A volume's parts, made before its recovery writes.
ghost use Rattle.std.specs.Prelude.{◌≡◌, ◌≤◌, ◌+◌, [], IfOk, IfSome};
ghost use Rattle.spec_record.specs.Geometry.{total_blocks};
ghost use Rattle.bv_claims.specs.Tokens.{IsBossOf, block_count, boss_owned, boss_room};
ghost use Rattle.bv_journaled.specs.Standing.{stored_of};
ghost use Rattle.bv_volume.specs.Seen.{IsSafe};
ghost use Rattle.bv_mounted.specs.Mounts.{Prepares, Takes, WasRecovered, first_standing, history_of};

use crate::holding::space_of;
use crate::opening::{first_history, store_of};
use crate::taken::Taken;
use crate::taking::take_memory;
use bv_claims::{Boss, Claims};
use bv_device::Device;
use bv_journaled::JournaledStore;
use bv_model::History;
use bv_mount::Inspected;
use bv_ring::Ring;
use bv_space::Space;
use bv_volume::Volume;
use spec_tree::{Blob, Digest};
use std::alloc::{AllocError, Global};
use std::collections::BTreeMap;

/// What a volume begins with beside its device. A mount makes it before it writes, so that it then
/// fails only where the device does.
#[derive(Drop)]
pub struct Prepared<'t> {
    /// The history, with no event.
    pub(crate) history: History,
    /// The blobs by their roots.
    pub(crate) map: BTreeMap<Digest, Blob>,
    /// The reservations, where the boss owns the blocks of the blobs.
    pub(crate) space: Space<'t>,
    /// The ring of an empty journal behind the replayed entries.
    pub(crate) ring: Ring,
}

/// The parts of the volume, of which this memory was taken.
fn parts_of<'t>(
    alloc: Global,
    inspected: &Inspected,
    taken: Taken,
    claims: &'t Claims,
    boss: Boss,
) -> Prepared<'t>
    requires taken { Takes inspected.now taken }
    requires table { IsBossOf claims.now boss }
    requires blocks { block_count claims.now ≡ inspected.now.geometry.blocks }
    requires none { boss_owned boss ≡ [] }
    requires room { boss_room boss + 1 ≡ block_count claims.now }
    ensures { Prepares inspected.now claims.now result }
{
    let Taken {
        map,
        opening,
        blobs,
        ring,
    } = taken;
    let history = first_history(alloc, inspected, opening);
    let space = space_of(alloc, claims, boss, &blobs);
    Prepared {
        history,
        map,
        space,
        ring,
    }
}

impl<'t> Prepared<'t> {
    /// Makes the parts of the volume that was inspected, and has the boss own the blocks of its blobs.
    ///
    /// `claims` is a table of as many blocks as the volume has, of which block 0 alone is taken, and
    /// `boss` its boss.
    pub fn new(
        alloc: Global,
        inspected: &Inspected,
        claims: &'t Claims,
        boss: Boss,
    ) -> Result<Prepared<'t>, AllocError>
        requires table { IsBossOf claims.now boss }
        requires blocks { block_count claims.now ≡ inspected.now.geometry.blocks }
        requires none { boss_owned boss ≡ [] }
        requires room { boss_room boss + 1 ≡ block_count claims.now }
        ensures { IfOk result (Prepares inspected.now claims.now) }
    {
        match take_memory(alloc, inspected) {
            Ok(taken) => Ok(parts_of(alloc, inspected, taken, claims, boss)),
            Err(error) => Err(error),
        }
    }

    /// The volume on a device that has done its recovery since it had made so many calls. It fails for
    /// no want of memory.
    pub fn start<D: Device>(
        self,
        alloc: Global,
        dev: D,
        opened: u64,
        inspected: Inspected,
        claims: &'t Claims,
    ) -> Volume<'t, JournaledStore<D>>
        requires prepared { Prepares inspected claims.now self }
        requires total { total_blocks inspected.geometry ≤ (D.seen dev).block_count }
        requires opened { opened ≤ (D.seen dev).calls_made }
        requires told { IfSome (D.seen dev).told (WasRecovered inspected opened) }
        ensures history { result.history ≡ history_of inspected }
        ensures next { result.next ≡ inspected.replay.next_number }
        ensures spare { result.spare ≡ 0 }
        ensures claims { result.space.claims ≡ claims.now }
        ensures store { result.store
            ≡ stored_of (first_standing (D.seen dev) opened inspected.meta self.entry.ring) }
        ensures crash { IsSafe result }
    {
        let Prepared {
            history,
            map,
            space,
            ring,
        } = self;
        let first = inspected.replay.next_number;
        let store = store_of(alloc, dev, opened, inspected, ring);
        Volume::new(alloc, history, map, first, space, store)
    }
}
