//! The sessions of a script on the volume of a device.
ghost use Rattle.std.specs.Prelude.{◌≡◌, ◌≤◌, ◌⊎◌, [], None, IfSome};
ghost use Rattle.spec_record.specs.Geometry.{total_blocks};
ghost use Rattle.spec_record.specs.Tests.{IsBetween};
ghost use Rattle.bv_mounted.specs.Mounts.{Gives};
ghost use Rattle.bv_shared.specs.Since.{AreOfOneDisk};
ghost use Rattle.bv_run.specs.Mounted.{RunsOver};
ghost use Rattle.bv_run.specs.Outcomes.{Came};

use crate::finished::Finished;
use bv_claims::Claims;
use bv_device::Device;
use bv_format::format;
use bv_io::Gate;
use bv_journaled::JournaledStore;
use bv_mount::{Inspected, inspect};
use bv_mounted::mount;
use bv_script::Script;
use bv_serve::{Refusal, refusal_of};
use bv_sessions::{Ran, run_sessions};
use bv_volume::Volume;
use spec_record::Geometry;
use std::alloc::Global;
use std::sync::Wait;
use std::thread::Threads;

/// Runs the sessions over a mounted volume, unmounts it, and gives its device out.
fn run_mounted<'t, R: Threads + Wait + Sync, D: Device + Send, G: Gate + Sync>(
    rt: &R,
    alloc: Global,
    script: &Script,
    volume: Volume<'t, JournaledStore<D>>,
    claims: &Claims,
    gate: &G,
) -> (Result<Finished, Refusal>, D)
    requires fresh { volume.history.events ≡ [] }
    requires disk { AreOfOneDisk volume.store.began volume.store.told }
    requires claims { volume.space.claims ≡ claims.now }
    requires version { (volume.history.version ≡ 1) ⊎ (volume.history.version ≡ 2) }
    ensures { RunsOver script.now volume.entry result.0 (D.seen result.1) }
{
    let Ran {
        history,
        ends,
        whole,
        store,
    } = run_sessions(rt, alloc, volume, claims, script.lines(), gate);
    let dev = store.into_device();
    if whole {
        (Ok(Finished { history, ends }), dev)
    } else {
        (Err(Refusal::NoMemory), dev)
    }
}

/// Mounts the volume that was inspected, and runs the sessions over it.
fn run_inspected<R: Threads + Wait + Sync, D: Device + Send, G: Gate + Sync>(
    rt: &R,
    alloc: Global,
    script: &Script,
    dev: D,
    inspected: Inspected,
    gate: &G,
) -> (Result<Finished, Refusal>, D)
    requires total { total_blocks inspected.geometry ≤ (D.seen dev).block_count }
    requires gives { Gives (D.seen dev) inspected }
    ensures { Came script.now None result.0 (D.seen dev) (D.seen result.1) }
{
    let (claims, boss) = match Claims::new(alloc, inspected.geometry.blocks) {
        Ok(table) => table,
        Err(_) => return (Err(Refusal::NoMemory), dev),
    };
    match mount(alloc, dev, inspected, &claims, boss) {
        Ok(volume) => run_mounted(rt, alloc, script, volume, &claims, gate),
        Err((dev, fault)) => (Err(Refusal::from(fault)), dev),
    }
}

/// Runs the sessions on the volume that is there.
fn run_there<R: Threads + Wait + Sync, D: Device + Send, G: Gate + Sync>(
    rt: &R,
    alloc: Global,
    script: &Script,
    mut dev: D,
    gate: &G,
) -> (Result<Finished, Refusal>, D)
    ensures { Came script.now None result.0 (D.seen dev) (D.seen result.1) }
{
    match inspect(alloc, &mut dev) {
        Ok(inspected) => run_inspected(rt, alloc, script, dev, inspected, gate),
        Err(fault) => (Err(Refusal::from(fault)), dev),
    }
}

/// Makes a volume of these counts, and runs the sessions on it.
fn run_fresh<R: Threads + Wait + Sync, D: Device + Send, G: Gate + Sync>(
    rt: &R,
    alloc: Global,
    geometry: Geometry,
    script: &Script,
    mut dev: D,
    gate: &G,
) -> (Result<Finished, Refusal>, D)
    requires { IsBetween 1 geometry.version 2 }
    ensures { Came script.now (Some geometry) result.0 (D.seen dev) (D.seen result.1) }
{
    match format(&mut dev, geometry) {
        Ok(()) => run_there(rt, alloc, script, dev, gate),
        Err(fault) => (Err(refusal_of(fault)), dev),
    }
}

/// Makes a volume first, if one is to be made, and runs the sessions.
pub(crate) fn run_on<R: Threads + Wait + Sync, D: Device + Send, G: Gate + Sync>(
    rt: &R,
    alloc: Global,
    made: Option<Geometry>,
    script: &Script,
    dev: D,
    gate: &G,
) -> (Result<Finished, Refusal>, D)
    requires { IfSome made (λ g. IsBetween 1 g.version 2) }
    ensures { Came script.now made result.0 (D.seen dev) (D.seen result.1) }
{
    match made {
        Some(geometry) => run_fresh(rt, alloc, geometry, script, dev, gate),
        None => run_there(rt, alloc, script, dev, gate),
    }
}
