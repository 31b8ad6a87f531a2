//! The memory of a mount, taken before it writes.
ghost use Rattle.std.specs.Prelude.{◌≡◌, IfOk};
ghost use Rattle.spec_image.specs.Blobs.{blob_map};
ghost use Rattle.bv_mounted.specs.Mounts.{Takes, opening_of};

use crate::taken::Taken;
use bv_mount::Inspected;
use bv_node::BlobRec;
use bv_ring::Ring;
use spec_tree::{Blob, Digest};
use std::alloc::{AllocError, Global};
use std::collections::BTreeMap;

/// Takes the memory for the blobs of a volume, and for the ring that its recovery leaves.
pub(crate) fn take_memory(alloc: Global, inspected: &Inspected) -> Result<Taken, AllocError>
    ensures { IfOk result (Takes inspected.now) }
{
    let survey = inspected.meta.survey(alloc)?;
    let map = map_of(alloc, &survey.blobs)?;
    let opening = opening_of(alloc, &map)?;
    let ring = Ring::new(
        alloc,
        inspected.geometry,
        inspected.replay.next_slot,
        inspected.replay.next_number,
    )?;
    Ok(Taken {
        map,
        opening,
        blobs: survey.blobs,
        ring,
    })
}

/// The map of these blobs.
fn map_of(alloc: Global, blobs: &[BlobRec]) -> Result<BTreeMap<Digest, Blob>, AllocError>
    ensures { IfOk result (λ map. map.entries ≡ blob_map blobs.now) }
{
    let mut map = BTreeMap::new(alloc);
    let mut left = blobs.len();
    while left > 0 {
        left -= 1;
        let blob = &blobs[left];
        let value = Blob {
            size: blob.size(),
            version: u32::from(blob.version()),
        };
        map.insert(blob.root(), value)?;
    }
    Ok(map)
}

/// The blobs of a map as a history opens with them.
fn opening_of(
    alloc: Global,
    map: &BTreeMap<Digest, Blob>,
) -> Result<Vec<(Digest, u64, u32)>, AllocError>
    ensures { IfOk result (λ opening. opening.items ≡ opening_of map.now.entries) }
{
    map.iter()
        .map(|(root, blob)| (*root, blob.size, blob.version))
        .collect(alloc)
}
