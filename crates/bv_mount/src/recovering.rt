//! The recovery of a device: what its journal holds goes in place.
ghost use Rattle.std.specs.Prelude.{◌≡◌, ◌≤◌, IfErr};
ghost use Rattle.spec_record.specs.Geometry.{total_blocks};
ghost use Rattle.spec_inspect.specs.declared.mount_fault.MountFault.TheVariants as mount;
ghost use Rattle.bv_device.specs.Seen.{Performs};
ghost use Rattle.bv_mount.specs.Inspects.{inspection};
ghost use Rattle.bv_mount.specs.Recovers.{Recovers, plan_for};

use crate::{Inspected, MountFault, inspect};
use bv_device::Device;
use bv_replay::recover;
use std::alloc::Global;

/// Recovers the volume of a device, and gives how many entries were replayed. Its refusals are
/// those of `inspect`; once it writes, it fails only where a call of the device does.
pub fn recover_volume<D: Device>(alloc: Global, dev: &mut D) -> Result<u64, MountFault>
    ensures { Recovers result (D.seen dev.old) (D.seen dev.new) }
{
    let inspected = inspect(alloc, dev)?;
    recover_inspected(dev, &inspected)?;
    Ok(inspected.replay.entries.len() as u64)
}

/// Recovers an inspected volume.
pub(crate) fn recover_inspected<D: Device>(
    dev: &mut D,
    inspected: &Inspected,
) -> Result<(), MountFault>
    requires { total_blocks inspected.now.geometry ≤ (D.seen dev.old).block_count }
    ensures performs { Performs result (plan_for (inspection inspected.now))
        (D.seen dev.old) (D.seen dev.new) }
    ensures fault { IfErr result (λ f. f ≡ mount.DeviceFault (D.seen dev.new).fault_count) }
{
    match recover(dev, inspected.geometry, &inspected.replay) {
        Ok(()) => Ok(()),
        Err(failed) => Err(MountFault::DeviceFault {
            fault: failed.fault,
        }),
    }
}
