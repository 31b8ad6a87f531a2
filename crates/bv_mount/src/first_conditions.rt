//! The first conditions on a device: its superblock, its journal, and the superblock that the
//! journal leaves.
ghost use Rattle.std.specs.Prelude.{◌≡◌, ◌≤◌, IfOk, length};
ghost use Rattle.spec_disk.specs.Disk.{block};
ghost use Rattle.spec_record.specs.Geometry.{IsGeometry, meta_blocks, total_blocks};
ghost use Rattle.spec_image.specs.After.{payloads_of};
ghost use Rattle.spec_meta.specs.Blocks.{patched};
ghost use Rattle.bv_device.specs.Reads.{Reads};
ghost use Rattle.bv_replay.specs.Found.{FitsGeometry};
ghost use Rattle.spec_inspect.specs.Readable.{or_moved};
ghost use Rattle.bv_mount.specs.Reports.{reported, scanned};
ghost use Rattle.bv_mount.specs.Opens.{IsOn, IsSpelled, AnswersSuper, AnswersJournal, AnswersMeta, kept_super};
ghost use Rattle.bv_mount.specs.Inspects.{AnswersOpen};

use crate::reading::{read_block, read_blocks};
use crate::{Meta, OpenFault, Opening, Replay};
use bv_device::{Block, Device};
use bv_layout::{Geometry, Super, SuperFault, read_super};
use bv_replay::{ReplayFault, scan};
use std::alloc::Global;

/// Reads the superblock, the journal and the metadata of a device. It writes nothing.
pub fn open_volume<D: Device>(alloc: Global, dev: &mut D) -> Result<Opening, OpenFault>
    ensures reads { Reads (reported result) (D.seen dev.old) (D.seen dev.new)
        (AnswersOpen result) }
    ensures total { IfOk result
        (λ o. total_blocks o.superblock.geometry ≤ (D.seen dev.old).block_count) }
{
    let geometry = read_first(dev)?.geometry;
    let replay = read_journal(alloc, dev, geometry)?;
    let meta = read_meta(alloc, dev, geometry, &replay)?;
    let superblock = replayed_super(&meta, &geometry, dev.blocks())?;
    Ok(Opening {
        superblock,
        meta,
        replay,
    })
}

/// Reads the superblock of a device. One without a block has none.
fn read_first<D: Device>(dev: &mut D) -> Result<Super, OpenFault>
    ensures reads { Reads (reported result) (D.seen dev.old) (D.seen dev.new)
        (AnswersSuper result) }
    ensures fits { IfOk result (λ s. IsOn (D.seen dev.old).block_count s.geometry) }
{
    let blocks = dev.blocks();
    if blocks == 0 {
        return Err(OpenFault::Super(SuperFault::Magic));
    }
    let block = read_block(dev, 0)?;
    match read_super(&block, blocks) {
        Ok(superblock) => Ok(superblock),
        Err(fault) => Err(OpenFault::Super(fault)),
    }
}

/// The answer of a scan.
fn scanned(answer: Result<Replay, ReplayFault>) -> Result<Replay, OpenFault>
    ensures { result ≡ scanned answer }
{
    match answer {
        Ok(replay) => Ok(replay),
        Err(ReplayFault::Info(fault)) => Err(OpenFault::Replay(fault)),
        Err(ReplayFault::NoMemory) => Err(OpenFault::NoMemory),
        Err(ReplayFault::DeviceFault { fault }) => Err(OpenFault::DeviceFault { fault }),
    }
}

/// Reads the journal of a volume of this geometry.
fn read_journal<D: Device>(
    alloc: Global,
    dev: &mut D,
    geometry: Geometry,
) -> Result<Replay, OpenFault>
    requires { IsOn (D.seen dev.old).block_count geometry }
    ensures reads { Reads (reported result) (D.seen dev.old) (D.seen dev.new)
        (AnswersJournal geometry result) }
    ensures within { IfOk result (FitsGeometry geometry) }
{
    scanned(scan(alloc, dev, geometry))
}

/// Reads the metadata of a volume of this geometry, and replays the journal over it.
fn read_meta<D: Device>(
    alloc: Global,
    dev: &mut D,
    geometry: Geometry,
    replay: &Replay,
) -> Result<Meta, OpenFault>
    requires on { IsOn (D.seen dev.old).block_count geometry }
    requires within { FitsGeometry geometry replay.now }
    ensures reads { Reads (reported result) (D.seen dev.old) (D.seen dev.new)
        (AnswersMeta geometry replay.now result) }
    ensures geometry { IfOk result (λ m. m.geometry ≡ geometry) }
{
    let blocks = read_blocks(alloc, dev, geometry.meta())?;
    Ok(replayed(geometry, blocks, replay))
}

/// Metadata blocks with the journal replayed over them.
fn replayed(geometry: Geometry, blocks: Vec<Block>, replay: &Replay) -> Meta
    requires limits { IsGeometry geometry }
    requires count { length blocks.items ≡ meta_blocks geometry }
    requires within { FitsGeometry geometry replay.now }
    ensures geometry { result.geometry ≡ geometry }
    ensures blocks { result.blocks ≡ patched (payloads_of replay.now.entries.items) blocks.items }
{
    let mut meta = Meta::new(geometry, blocks);
    for entry in &replay.entries {
        meta.apply(entry);
    }
    meta
}

/// The superblock that the metadata has, where it's a valid one of the same geometry.
fn replayed_super(meta: &Meta, geometry: &Geometry, device_blocks: u64) -> Result<Super, OpenFault>
    ensures value { result ≡ or_moved
        (kept_super geometry.now (block meta.now.blocks 0) device_blocks) }
    ensures spelled { IfOk result (λ s. IsSpelled s.geometry (block meta.now.blocks 0)) }
{
    let Ok(superblock) = read_super(&meta.blocks()[0], device_blocks) else {
        return Err(OpenFault::Moved);
    };
    if superblock.geometry == *geometry {
        Ok(superblock)
    } else {
        Err(OpenFault::Moved)
    }
}
