//! What an image holds, as the product's calls find it on a device in memory.

ghost use Rattle.std.specs.Prelude.{◌≡◌, ◌↔◌, List, true, IsTrue, IfOk, MatchOption, Result, Err};
ghost use Rattle.spec_crash.specs.Crash.{HoldsWhole};
ghost use Rattle.spec_tree.specs.declared.Digest.{Digest};
ghost use Rattle.spec_tree.specs.declared.blob.Blob.{Blob};
ghost use Rattle.spec_image.specs.Blobs.{blob_map};
ghost use Rattle.bv_device.specs.Memory.{device_of};
ghost use Rattle.bv_mount.specs.Inspects.{RefusesMount};
ghost use Rattle.bv_mount.specs.Opens.{Refuses};
ghost use Rattle.spec_inspect.specs.declared.mount_fault.MountFault.{MountFault};
ghost use Rattle.spec_inspect.specs.declared.open_fault.OpenFault.{OpenFault};
ghost use Rattle.spec_inspect.specs.Inspection.{Inspection};
ghost use Rattle.spec_inspect.specs.Report.{Findings, IsClean};
ghost use Rattle.bv_check.specs.Checks.{findings};
ghost use Rattle.plain_crash.specs.Volumes.{HasNoVolume, HasVolume};

use bv_check::{CheckFault, Report, check};
use bv_device::MemDevice;
use bv_mount::{MountFault, inspect_all};
use bv_node::BlobRec;
use spec_disk::Block;
use spec_record::Geometry;
use spec_tree::{Blob, Digest};
use std::alloc::{AllocError, Global};
use std::collections::BTreeMap;

/// A volume: its counts, and its blobs by their roots.
#[derive(Drop)]
pub(crate) struct Volume {
    pub(crate) geometry: Geometry,
    pub(crate) blobs: BTreeMap<Digest, Blob>,
}

/// A device that has an image, with no call to fail.
pub(crate) fn device_with(alloc: Global, image: &[Block]) -> Result<MemDevice, AllocError>
    ensures { IfOk result (λ dev. dev ≡ device_of image.now) }
{
    Ok(MemDevice::from_blocks(alloc, Vec::from_slice(alloc, image)?))
}

/// The map of these blobs. Of two with one root the first counts.
fn map_of(alloc: Global, records: &[BlobRec]) -> Result<BTreeMap<Digest, Blob>, AllocError>
    ensures { IfOk result (λ found. found.entries ≡ blob_map records.now) }
{
    let mut found = BTreeMap::new(alloc);
    let mut left = records.len();
    while left > 0 {
        left -= 1;
        let blob = &records[left];
        let value = Blob {
            size: blob.size(),
            version: blob.version() as u32,
        };
        found.insert(blob.root(), value)?;
    }
    Ok(found)
}

/// Whether a refusal to mount speaks of the image: neither of memory nor of the device.
fn is_of_image(fault: &MountFault) -> bool
    ensures { result ≡ true → (due : Result Inspection MountFault)
        → RefusesMount due fault.now → due ≡ Err fault.now }
{
    !matches!(fault, MountFault::NoMemory | MountFault::DeviceFault { .. })
}

/// The volume of an image, or none.
pub(crate) fn volume_of(alloc: Global, image: &[Block]) -> Result<Option<Volume>, AllocError>
    ensures { IfOk result (λ found.
        MatchOption found (HasNoVolume image.now) (HasVolume image.now)) }
{
    let mut dev = device_with(alloc, image)?;
    match inspect_all(alloc, &mut dev) {
        Ok((inspected, survey)) => {
            let blobs = map_of(alloc, &survey.blobs)?;
            let geometry = inspected.geometry;
            Ok(Some(Volume { geometry, blobs }))
        }
        Err(fault) if is_of_image(&fault) => Ok(None),
        Err(_) => Err(AllocError),
    }
}

/// Whether a refusal to check speaks of the image: neither of memory nor of the device.
fn is_of_metadata(fault: &CheckFault) -> bool
    ensures { result ≡ true → (due : Result Findings OpenFault)
        → Refuses due fault.now → due ≡ Err fault.now }
{
    !matches!(fault, CheckFault::NoMemory | CheckFault::DeviceFault { .. })
}

/// Whether nothing is wrong by a report.
fn is_clean(report: &Report) -> bool
    ensures { IsTrue result ↔ IsClean (findings report.now) }
{
    report.faults.is_empty() && report.damaged.is_empty()
}

/// Whether an image has a volume, and each of its blobs is whole.
pub(crate) fn is_whole(alloc: Global, image: &[Block]) -> Result<bool, AllocError>
    ensures { IfOk result (λ yes.
        IsTrue yes ↔ ((held : List (Digest × Blob)) × HoldsWhole image.now held)) }
{
    let mut dev = device_with(alloc, image)?;
    match check(alloc, &mut dev) {
        Ok(report) => Ok(is_clean(&report)),
        Err(fault) if is_of_metadata(&fault) => Ok(false),
        Err(_) => Err(AllocError),
    }
}
