//! A device inspected: its volume, or the first thing that is wrong.
ghost use Rattle.std.specs.Prelude.{◌≡◌, ◌≤◌, ◌⊎◌, [], IfOk, IfErr};
ghost use Rattle.spec_record.specs.Geometry.{total_blocks};
ghost use Rattle.spec_meta.specs.Blocks.{metadata_at};
ghost use Rattle.spec_meta.specs.Survey.{survey_of};
ghost use Rattle.bv_device.specs.Reads.{Reads};
ghost use Rattle.spec_inspect.specs.declared.mount_fault.MountFault.TheVariants.{NoMemory};
ghost use Rattle.bv_mount.specs.Reports.{mount_reported};
ghost use Rattle.bv_mount.specs.Inspects.{AnswersInspect, AnswersInspectAll, HasBlobs, IsInspectedOf, IsFirstOf};

use crate::first_conditions::open_volume;
use crate::{Inspected, MountFault, Opening, Survey};
use bv_device::Device;
use std::alloc::Global;

/// Inspects a device: whether it holds a volume, and which. It writes nothing.
pub fn inspect<D: Device>(alloc: Global, dev: &mut D) -> Result<Inspected, MountFault>
    ensures reads { Reads (mount_reported result) (D.seen dev.old) (D.seen dev.new)
        (AnswersInspect result) }
    ensures total { IfOk result
        (λ i. total_blocks i.geometry ≤ (D.seen dev.old).block_count) }
{
    match inspect_all(alloc, dev) {
        Ok((inspected, _)) => Ok(inspected),
        Err(fault) => Err(fault),
    }
}

/// Inspects a device, and gives the volume's blobs too. It writes nothing.
pub fn inspect_all<D: Device>(alloc: Global, dev: &mut D) -> Result<(Inspected, Survey), MountFault>
    ensures reads { Reads (mount_reported result) (D.seen dev.old) (D.seen dev.new)
        (AnswersInspectAll result) }
    ensures total { IfOk result
        (λ p. total_blocks p.0.geometry ≤ (D.seen dev.old).block_count) }
    ensures blobs { IfOk result (λ p. HasBlobs p.0 p.1) }
{
    let opening = open_volume(alloc, dev)?;
    surveyed(alloc, opening)
}

/// The volume of opened metadata, or the first fault of its survey.
fn surveyed(alloc: Global, opening: Opening) -> Result<(Inspected, Survey), MountFault>
    ensures ok { IfOk result (λ p. IsInspectedOf opening p.0) }
    ensures blobs { IfOk result (λ p. HasBlobs p.0 p.1) }
    ensures err { IfErr result (λ f. (f ≡ NoMemory) ⊎ IsFirstOf
        (survey_of (metadata_at opening.superblock.geometry opening.meta.blocks)) f) }
{
    let survey = opening.meta.survey(alloc)?;
    if let Some(fault) = survey.faults.first() {
        return Err(MountFault::from(*fault));
    }
    let inspected = Inspected {
        geometry: opening.superblock.geometry,
        meta: opening.meta,
        replay: opening.replay,
    };
    Ok((inspected, survey))
}
