//! The command `list`: the blobs of a volume in the order of their roots.
ghost use Rattle.std.specs.Prelude.{◌≡◌, ◌++◌, IfOk, OnOk, MatchResult, Some, option_map};
ghost use Rattle.spec_image.specs.Blobs.{blob_map};
ghost use Rattle.bv_device.specs.Reads.{Reads};
ghost use Rattle.bv_mount.specs.Inspects.{RefusesMount};
ghost use Rattle.bv_mount.specs.Reports.{mount_reported};
ghost use Rattle.spec_inspect.specs.Inspection.{inspect_of};
ghost use Rattle.bv_serve.specs.Lines.{blob_line, list_text};
ghost use Rattle.bv_serve.specs.List.{RunsList, listed, in_order};
ghost use Rattle.bv_serve.specs.Runs.{Change, LeavesAlone, change};

use crate::lines::{print, refuse};
use crate::{Line, Refusal, Status};
use bv_device::Device;
use bv_io::Sink;
use bv_merkle::Digest;
use bv_mount::{MountFault, inspect_all};
use bv_node::BlobRec;
use spec_tree::Blob;
use std::alloc::{AllocError, Global};
use std::collections::BTreeMap;

/// Prints the blobs of the volume on the device.
pub(crate) fn list<D: Device, K: Sink>(alloc: Global, dev: &mut D, out: &mut K) -> Status
    ensures { (input : Change) → LeavesAlone input → RunsList result
        (D.seen dev.old) (D.seen dev.new)
        input (change (K.seen out.old) (K.seen out.new)) }
{
    match listed(alloc, dev) {
        Ok(text) => print(out, &text),
        Err(fault) => refuse(out, Refusal::from(fault)),
    }
}

/// The lines of the blobs on the device.
fn listed<D: Device>(alloc: Global, dev: &mut D) -> Result<Vec<u8>, MountFault>
    ensures { Reads (mount_reported result) (D.seen dev.old) (D.seen dev.new)
        (λ j. MatchResult result (λ text. option_map list_text (listed j) ≡ Some text.items)
        (RefusesMount (inspect_of j))) }
{
    let (_, survey) = inspect_all(alloc, dev)?;
    let text = text_of(alloc, &survey.blobs)?;
    Ok(text)
}

/// The lines of these blobs.
fn text_of(alloc: Global, blobs: &[BlobRec]) -> Result<Vec<u8>, AllocError>
    ensures { IfOk result (λ text. text.items
        ≡ list_text (in_order (blob_map blobs.now))) }
{
    let held = map_of(alloc, blobs)?;
    let mut text = Vec::new(alloc);
    for (root, blob) in held.as_slice() {
        text.extend_from_slice(blob_line(root, blob.size).as_bytes())?;
    }
    Ok(text)
}

/// The map of these blobs, in order.
fn map_of(alloc: Global, blobs: &[BlobRec]) -> Result<Vec<(Digest, Blob)>, AllocError>
    ensures { IfOk result (λ held. held.items ≡ blob_map blobs.now) }
{
    let mut held = BTreeMap::new(alloc);
    let mut left = blobs.len();
    while left > 0 {
        left -= 1;
        let blob = &blobs[left];
        let value = Blob {
            size: blob.size(),
            version: u32::from(blob.version()),
        };
        held.insert(blob.root(), value)?;
    }
    held.into_iter().collect(alloc)
}

/// The line of a blob.
fn blob_line(root: &Digest, size: u64) -> Line
    ensures { result ≡ blob_line (root.now, size) }
{
    let mut line = Line::new();
    line.push_root(root);
    line.push(b" ");
    line.push_number(size);
    line.push(b"\n");
    line
}
