//! Volumes that are made and mounted on devices in memory.

use bv_claims::Claims;
use bv_device::{Device, MemDevice};
use bv_format::format;
use bv_journaled::JournaledStore;
use bv_mount::inspect;
use bv_mounted::mount;
use bv_volume::Volume;
use spec_core::Who;
use spec_record::Geometry;
use std::alloc::Global;
use std::process::Abort;
use std::test::Fail;

/// The first line of the first session.
const WHO: Who = Who {
    session: 0,
    line: 1,
};

/// The magic of the journal's entries, and the number 5.
const STALE: [u8; 16] = [
    0x79, 0x72, 0x74, 0x6e, 0x62, 0x6f, 0x6c, 0x62, 0x05, 0x00, 0x00, 0x00, 0x00, 0x00, 0x00, 0x00,
];

/// What a caller sees of a volume: its room in blocks, its blobs, and the events after it listed them.
type Looks = (u64, usize, usize);

/// A device with so many blocks and a volume that was just made.
fn made<R: Abort>(
    rt: &R,
    alloc: Global,
    total: u64,
    geometry: Geometry,
) -> Result<MemDevice, Fail> {
    assert!(rt; 1 <= geometry.version && geometry.version <= 2);
    let mut dev = MemDevice::new(alloc, total)?;
    assert!(rt; format(&mut dev, geometry).is_ok());
    Ok(dev)
}

/// Looks at a volume and gives it up.
fn looked_at(
    alloc: Global,
    volume: Volume<JournaledStore<MemDevice>>,
) -> Result<(Looks, MemDevice), Fail> {
    let mut volume = volume;
    let room = volume.room();
    let listed = match volume.reserve(alloc, 1) {
        Ok(()) => volume.list(alloc, WHO),
        Err(error) => Err(error),
    };
    let (history, store) = volume.give_up();
    let looks = (room, listed?.len(), history.events().len());
    Ok((looks, store.into_device()))
}

/// Mounts what the device holds, looks at it, and gives it up.
fn mounted<R: Abort>(
    rt: &R,
    alloc: Global,
    mut dev: MemDevice,
) -> Result<(Looks, MemDevice), Fail> {
    let Ok(inspected) = inspect(alloc, &mut dev) else {
        return Err(Fail::from("a volume"));
    };
    let blocks = inspected.geometry.blocks;
    assert!(rt; 2 <= blocks && blocks <= 1 << 22);
    let (claims, boss) = Claims::new(alloc, blocks)?;
    let Ok(volume) = mount(alloc, dev, inspected, &claims, boss) else {
        return Err(Fail::from("a mount"));
    };
    looked_at(alloc, volume)
}

#[test]
fn a_volume_that_was_made_is_mounted_without_a_blob_or_a_write(
    rt: HostRuntime,
) -> Result<(), Fail> {
    let alloc = rt.alloc();
    // Blocks, nodes and journal blocks; the blocks that the device needs.
    let rows = [(64, 128, 16, 83), (2, 128, 64, 69), (1_000, 256, 16, 1_020)];
    for (blocks, nodes, journal, total) in rows {
        for version in [1, 2] {
            let geometry = Geometry {
                blocks,
                nodes,
                journal,
                version,
            };
            let dev = made(&rt, alloc, total, geometry)?;
            let calls = dev.calls();
            // Data block 0 belongs to no blob, so that one block less is free.
            let (looks, dev) = mounted(&rt, alloc, dev)?;
            assert_eq!(rt; looks, (blocks - 1, 0, 1), "{blocks}");
            let (looks, dev) = mounted(&rt, alloc, dev)?;
            assert_eq!(rt; looks, (blocks - 1, 0, 1), "{blocks}");
            assert_eq!(rt; (dev.calls(), dev.faults()), (calls, 0), "{blocks}");
        }
    }
    Ok(())
}

#[test]
fn a_mount_recovers_once(rt: HostRuntime) -> Result<(), Fail> {
    let alloc = rt.alloc();
    let geometry = Geometry {
        blocks: 64,
        nodes: 128,
        journal: 16,
        version: 2,
    };
    let mut dev = made(&rt, alloc, 83, geometry)?;
    // Slot 2 of the journal, which begins behind the info block 3.
    let mut block = [0; 8192];
    block[..16].copy_from_slice(&STALE);
    assert!(rt; dev.blocks() == 83);
    assert!(rt; dev.write(6, &block).is_ok() && dev.sync().is_ok());
    let calls = dev.calls();
    // Nothing is put in place: a sync, the slot, a sync, the info block, a sync.
    let (looks, dev) = mounted(&rt, alloc, dev)?;
    assert_eq!(rt;
        (looks, dev.calls().checked_sub(calls)),
        ((63, 0, 1), Some(5))
    );
    let (looks, dev) = mounted(&rt, alloc, dev)?;
    assert_eq!(rt;
        (looks, dev.calls().checked_sub(calls)),
        ((63, 0, 1), Some(5))
    );
    Ok(())
}
