//! The upgrade of a device: its volume is recovered, and becomes one of version 2.
ghost use Rattle.std.specs.Prelude.{◌≡◌, ◌<◌, ◌≤◌, IfErr};
ghost use Rattle.spec_record.specs.Geometry.{total_blocks};
ghost use Rattle.spec_record.specs.Superblock.{IsSuper};
ghost use Rattle.spec_inspect.specs.declared.mount_fault.MountFault.TheVariants as mount;
ghost use Rattle.spec_upgrade.specs.Upgraded.{newest_super};
ghost use Rattle.bv_device.specs.Seen.{Performs};
ghost use Rattle.bv_mount.specs.Inspects.{inspection};
ghost use Rattle.bv_mount.specs.Upgrades.{Upgrades, super_plan, found_super, newest_plan, upgrade_plan};

use crate::recovering::recover_inspected;
use crate::{Inspected, MountFault, inspect};
use bv_device::{Device, DeviceFault, Failed, with_fault};
use bv_layout::{Geometry, Super, read_super, write_super};
use std::alloc::Global;

/// The version that an upgrade leaves behind.
const OLD: u32 = 1;

/// The version that it makes.
const NEWEST: u32 = 2;

/// Recovers the volume of a device, and makes it one of version 2 where it has version 1. Gives how
/// many entries were replayed. Its refusals are those of `inspect`; once it writes, it fails only
/// where a call of the device does.
///
/// All fields of the superblock lie in one sector, so a stop leaves the old version or the new one.
pub fn upgrade<D: Device>(alloc: Global, dev: &mut D) -> Result<u64, MountFault>
    ensures { Upgrades result (D.seen dev.old) (D.seen dev.new) }
{
    let inspected = inspect(alloc, dev)?;
    upgrade_inspected(dev, &inspected)?;
    Ok(inspected.replay.entries.len() as u64)
}

/// Recovers an inspected volume, and gives it the newest version.
fn upgrade_inspected<D: Device>(dev: &mut D, inspected: &Inspected) -> Result<(), MountFault>
    requires { total_blocks inspected.now.geometry ≤ (D.seen dev.old).block_count }
    ensures performs { Performs result (upgrade_plan (inspection inspected.now))
        (D.seen dev.old) (D.seen dev.new) }
    ensures fault { IfErr result (λ f. f ≡ mount.DeviceFault (D.seen dev.new).fault_count) }
{
    recover_inspected(dev, inspected)?;
    renew_inspected(dev, inspected)
}

/// The same as `renew`, with the fault as one of a volume.
fn renew_inspected<D: Device>(dev: &mut D, inspected: &Inspected) -> Result<(), MountFault>
    requires { total_blocks inspected.now.geometry ≤ (D.seen dev.old).block_count }
    ensures performs { Performs result (newest_plan (inspection inspected.now))
        (D.seen dev.old) (D.seen dev.new) }
    ensures fault { IfErr result (λ f. f ≡ mount.DeviceFault (D.seen dev.new).fault_count) }
{
    match renew(dev, inspected) {
        Ok(()) => Ok(()),
        Err(failed) => Err(MountFault::DeviceFault {
            fault: failed.fault,
        }),
    }
}

/// Gives a recovered volume the newest version, where it has the old one.
fn renew<D: Device>(dev: &mut D, inspected: &Inspected) -> Result<(), DeviceFault>
    requires { total_blocks inspected.now.geometry ≤ (D.seen dev.old).block_count }
    ensures performs { Performs result (newest_plan (inspection inspected.now))
        (D.seen dev.old) (D.seen dev.new) }
    ensures fault { IfErr result (λ e. e.fault ≡ (D.seen dev.new).fault_count) }
{
    if inspected.geometry.version != OLD {
        return Ok(());
    }
    let written = put_super(dev, &newest_of(inspected));
    with_fault(dev, written)
}

/// The superblock of an inspected volume of the old version, with the newest.
fn newest_of(inspected: &Inspected) -> Super
    requires { inspected.now.geometry.version ≡ 1 }
    ensures value { result ≡ newest_super (found_super (inspection inspected.now)) }
    ensures lawful { IsSuper result }
{
    let geometry = inspected.geometry;
    let Ok(found) = read_super(&inspected.meta.blocks()[0], geometry.total()) else {
        unreachable!();
    };
    Super {
        geometry: Geometry {
            version: NEWEST,
            blocks: geometry.blocks,
            nodes: geometry.nodes,
            journal: geometry.journal,
        },
        blobs: found.blobs,
        used_blocks: found.used_blocks,
        used_nodes: found.used_nodes,
    }
}

/// Writes a superblock, and makes it last.
fn put_super<D: Device>(dev: &mut D, superblock: &Super) -> Result<(), Failed>
    requires lawful { IsSuper superblock.now }
    requires room { 0 < (D.seen dev.old).block_count }
    ensures { Performs result (super_plan superblock.now) (D.seen dev.old) (D.seen dev.new) }
{
    dev.write(0, &write_super(superblock))?;
    dev.sync()
}
