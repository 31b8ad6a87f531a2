//! The history of a script's run on a device's volume.

ghost use Rattle.std.specs.Prelude.{◌≡◌, ◌⊎◌, []};
ghost use Rattle.bv_shared.specs.Since.{AreOfOneDisk};

use crate::runs::{STORED, made};
use bv_claims::Claims;
use bv_device::{CallKind, Device, MemDevice};
use bv_io::NoGate;
use bv_journaled::JournaledStore;
use bv_model::History;
use bv_mount::inspect;
use bv_mounted::mount;
use bv_script::{Script, parse};
use bv_sessions::{Ran, run_sessions};
use bv_volume::Volume;
use plain_core::{is_caused, is_legal};
use std::alloc::Global;
use std::process::Abort;
use std::sync::Wait;
use std::test::Fail;
use std::thread::Threads;

/// No run here makes so many calls of one kind.
const MOST: u64 = 100;

/// Runs a script on a volume that was just mounted: the history, and the device.
fn done<R: Threads + Wait + Sync>(
    rt: &R,
    alloc: Global,
    volume: Volume<JournaledStore<MemDevice>>,
    claims: &Claims,
    script: &Script,
) -> (History, MemDevice)
    requires fresh { volume.history.events ≡ [] }
    requires disk { AreOfOneDisk volume.store.began volume.store.told }
    requires claims { volume.space.claims ≡ claims.now }
    requires version { (volume.history.version ≡ 1) ⊎ (volume.history.version ≡ 2) }
{
    let Ran {
        history,
        ends: _,
        whole: _,
        store,
    } = run_sessions(rt, alloc, volume, claims, script.lines(), &NoGate);
    (history, store.into_device())
}

/// Mounts what the device holds and runs a script on it, up to the unmount: the history and the
/// device; none where the mount failed.
pub fn ran<R: Abort + Threads + Wait + Sync>(
    rt: &R,
    alloc: Global,
    mut dev: MemDevice,
    bytes: &[u8],
) -> Result<Option<(History, MemDevice)>, Fail> {
    let Ok(script) = parse(alloc, bytes) else {
        return Err(Fail::from("a script"));
    };
    let Ok(inspected) = inspect(alloc, &mut dev) else {
        return Ok(None);
    };
    let blocks = inspected.geometry.blocks;
    let version = inspected.geometry.version;
    assert!(rt; 2 <= blocks && blocks <= 1 << 22 && 1 <= version && version <= 2);
    let (claims, boss) = Claims::new(alloc, blocks)?;
    let Ok(volume) = mount(alloc, dev, inspected, &claims, boss) else {
        return Ok(None);
    };
    Ok(Some(done(rt, alloc, volume, &claims, &script)))
}

/// What came of a run where one call fails.
#[derive(Clone, Copy, Debug, PartialEq, Eq)]
enum Came {
    /// The call failed before there was a history.
    NoHistory,
    /// The call failed under an event.
    Fault,
    /// No call failed.
    NoFault,
}

/// Where one call fails, the history is legal, and each fault in it has its cause.
fn comes<R: Abort + Threads + Wait + Sync>(
    rt: &R,
    alloc: Global,
    kind: CallKind,
    nth: u64,
) -> Result<Came, Fail> {
    let mut dev = made(rt, alloc)?;
    assert!(rt; 0 < nth);
    dev.fail(alloc, kind, nth)?;
    let Some((history, dev)) = ran(rt, alloc, dev, STORED.as_bytes())? else {
        return Ok(Came::NoHistory);
    };
    assert!(rt; is_legal(alloc, &history, 1)?, "{kind:?} {nth}");
    assert!(rt; is_caused(&history, 0, dev.faults()), "{kind:?} {nth}");
    if dev.faults() == 0 {
        return Ok(Came::NoFault);
    }
    Ok(Came::Fault)
}

/// What came of the runs where each call of a kind failed in turn, up to one where none did.
fn seen<R: Abort + Threads + Wait + Sync>(
    rt: &R,
    alloc: Global,
    kind: CallKind,
) -> Result<Vec<Came>, Fail> {
    let mut seen = Vec::new(alloc);
    for nth in 1..MOST {
        let came = comes(rt, alloc, kind, nth)?;
        if seen.last() != Some(&came) {
            seen.push(came)?;
        }
        if came == Came::NoFault {
            return Ok(seen);
        }
    }
    Err(Fail::from("a run without a fault"))
}

#[test]
fn whichever_call_fails_the_history_is_legal(rt: HostRuntime) -> Result<(), Fail> {
    let alloc = rt.alloc();
    // The mount of a new volume reads, and neither writes nor syncs.
    let reads = [Came::NoHistory, Came::Fault, Came::NoFault];
    assert_eq!(rt;
        seen(&rt, alloc, CallKind::Read)?.as_slice(),
        reads.as_slice()
    );
    for kind in [CallKind::Write, CallKind::Sync] {
        assert_eq!(rt; seen(&rt, alloc, kind)?.as_slice(), &reads[1..], "{kind:?}");
    }
    Ok(())
}
