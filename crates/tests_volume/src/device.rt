//! A device in memory with a volume, and scripts that run on it.

ghost use Rattle.std.specs.Prelude.{◌≡◌, ◌⊎◌, []};
ghost use Rattle.bv_shared.specs.Since.{AreOfOneDisk};

use bv_claims::Claims;
use bv_device::MemDevice;
use bv_format::format;
use bv_io::Gate;
use bv_journaled::JournaledStore;
use bv_model::History;
use bv_mount::inspect;
use bv_mounted::mount;
use bv_script::{Script, parse};
use bv_sessions::{Ran, run_sessions};
use bv_volume::Volume;
use spec_record::Geometry;
use spec_session::SessionEnd;
use std::alloc::Global;
use std::process::Abort;
use std::sync::Wait;
use std::test::Fail;
use std::thread::Threads;

/// A small volume, which needs 83 blocks: 3 of metadata, 16 of the journal and 64 of data.
const SMALL: Geometry = Geometry {
    blocks: 64,
    nodes: 128,
    journal: 16,
    version: 1,
};

/// A device with so many blocks and a volume that was just made.
pub fn made_with<R: Abort>(
    rt: &R,
    alloc: Global,
    total: u64,
    geometry: Geometry,
) -> Result<MemDevice, Fail> {
    assert!(rt; 1 <= geometry.version && geometry.version <= 2);
    let mut dev = MemDevice::new(alloc, total)?;
    assert!(rt; format(&mut dev, geometry).is_ok());
    Ok(dev)
}

/// A device with a small volume of this version that was just made.
pub fn made<R: Abort>(rt: &R, alloc: Global, version: u32) -> Result<MemDevice, Fail> {
    made_with(rt, alloc, 83, Geometry { version, ..SMALL })
}

/// What a script left: its history, how each session ended, and the device.
#[derive(Drop)]
pub struct Left {
    pub history: History,
    pub ends: Vec<SessionEnd>,
    pub dev: MemDevice,
}

/// Runs a script on a volume that was just mounted past this gate.
fn done<R: Abort + Threads + Wait + Sync, G: Gate + Sync>(
    rt: &R,
    alloc: Global,
    volume: Volume<JournaledStore<MemDevice>>,
    claims: &Claims,
    script: &Script,
    gate: &G,
) -> Left
    requires fresh { volume.history.events ≡ [] }
    requires disk { AreOfOneDisk volume.store.began volume.store.told }
    requires claims { volume.space.claims ≡ claims.now }
    requires version { (volume.history.version ≡ 1) ⊎ (volume.history.version ≡ 2) }
{
    let Ran {
        history,
        ends,
        whole,
        store,
    } = run_sessions(rt, alloc, volume, claims, script.lines(), gate);
    assert!(rt; whole);
    Left {
        history,
        ends,
        dev: store.into_device(),
    }
}

/// Mounts what the device holds and runs a script on it past this gate, up to the unmount.
pub fn leaves<R: Abort + Threads + Wait + Sync, G: Gate + Sync>(
    rt: &R,
    alloc: Global,
    mut dev: MemDevice,
    bytes: &[u8],
    gate: &G,
) -> Result<Left, Fail> {
    let Ok(script) = parse(alloc, bytes) else {
        return Err(Fail::from("a script"));
    };
    let Ok(inspected) = inspect(alloc, &mut dev) else {
        return Err(Fail::from("a volume"));
    };
    let blocks = inspected.geometry.blocks;
    let version = inspected.geometry.version;
    assert!(rt; 2 <= blocks && blocks <= 1 << 22 && 1 <= version && version <= 2);
    let (claims, boss) = Claims::new(alloc, blocks)?;
    let Ok(volume) = mount(alloc, dev, inspected, &claims, boss) else {
        return Err(Fail::from("a mount"));
    };
    Ok(done(rt, alloc, volume, &claims, &script, gate))
}

/// The same, without the history.
pub fn runs<R: Abort + Threads + Wait + Sync, G: Gate + Sync>(
    rt: &R,
    alloc: Global,
    dev: MemDevice,
    bytes: &[u8],
    gate: &G,
) -> Result<(Vec<SessionEnd>, MemDevice), Fail> {
    let Left {
        history: _,
        ends,
        dev,
    } = leaves(rt, alloc, dev, bytes, gate)?;
    Ok((ends, dev))
}
