//! A volume mounted: what its journal holds goes in place, and the volume begins.
ghost use Rattle.std.specs.Prelude.{◌≡◌, ◌≤◌, ◌-◌, [], IfOk, IfErr};
ghost use Rattle.spec_record.specs.Geometry.{total_blocks};
ghost use Rattle.bv_claims.specs.Tokens.{IsBossOf, block_count, boss_owned, boss_room};
ghost use Rattle.bv_mounted.specs.Mounts.{Gives, Mounts, Refused};

use crate::prepared::Prepared;
use bv_claims::{Boss, Claims};
use bv_device::{Device, DeviceFault};
use bv_journaled::JournaledStore;
use bv_mount::{Inspected, MountFault};
use bv_replay::recover;
use bv_volume::Volume;
use std::alloc::{AllocError, Global};

/// Mounts the volume that an inspection of this device found: recovers it, and gives it with no event
/// yet. A refusal hands the device back: `NoMemory`, before anything was written; or `DeviceFault`,
/// with the device's count of failed calls. Once it writes it fails only where the device does.
///
/// `claims` is a table of as many blocks as the volume has, of which block 0 alone is taken, and
/// `boss` its boss.
pub fn mount<'t, D: Device>(
    alloc: Global,
    mut dev: D,
    inspected: Inspected,
    claims: &'t Claims,
    boss: Boss,
) -> Result<Volume<'t, JournaledStore<D>>, (D, MountFault)>
    requires total { total_blocks inspected.geometry ≤ (D.seen dev).block_count }
    requires table { IsBossOf claims.now boss }
    requires blocks { block_count claims.now ≡ inspected.geometry.blocks }
    requires none { boss_owned boss ≡ [] }
    requires room { boss_room boss ≡ inspected.geometry.blocks - 1 }
    requires gives { Gives (D.seen dev) inspected }
    ensures ok { IfOk result (Mounts (D.seen dev) inspected claims.now) }
    ensures err { IfErr result (λ e. Refused (D.seen dev) inspected (D.seen e.0) e.1) }
{
    let prepared = match Prepared::new(alloc, &inspected, claims, boss) {
        Ok(prepared) => prepared,
        Err(AllocError) => return Err((dev, MountFault::NoMemory)),
    };
    let opened = dev.calls();
    match recover(&mut dev, inspected.geometry, &inspected.replay) {
        Ok(()) => Ok(prepared.start(alloc, dev, opened, inspected, claims)),
        Err(DeviceFault { fault }) => Err((dev, MountFault::DeviceFault { fault })),
    }
}
