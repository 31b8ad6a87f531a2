//! The sessions of a script over a mounted volume.
ghost use Rattle.std.specs.Prelude.{◌≡◌, ◌⊎◌, []};
ghost use Rattle.spec_script.specs.Lawful.{AreLawful};
ghost use Rattle.bv_shared.specs.Since.{AreOfOneDisk};
ghost use Rattle.bv_sessions.specs.Runs.{Runs};

use crate::ending::{close, give_up};
use crate::ran::Ran;
use crate::run::run_all;
use bv_claims::Claims;
use bv_io::Gate;
use bv_shared::Shared;
use bv_store::Store;
use bv_volume::Volume;
use spec_script::ScriptLine;
use std::alloc::Global;
use std::sync::Wait;
use std::thread::Threads;

/// Runs the sessions of these lines over a volume whose history has no event yet, and unmounts it
/// where all sessions did all their lines. A session that finds no memory ends, and the others go
/// on; then the volume is given up as it is.
///
/// `claims` is the table of the volume's reservations.
pub fn run_sessions<'t, R: Threads + Wait + Sync, S: Store + Send, G: Gate + Sync>(
    rt: &R,
    alloc: Global,
    volume: Volume<'t, S>,
    claims: &Claims,
    lines: &[ScriptLine],
    gate: &G,
) -> Ran<S>
    requires fresh { volume.history.events ≡ [] }
    requires disk { AreOfOneDisk volume.store.began volume.store.told }
    requires claims { volume.space.claims ≡ claims.now }
    requires version { (volume.history.version ≡ 1) ⊎ (volume.history.version ≡ 2) }
    requires lawful { AreLawful lines.now }
    ensures { Runs lines.now volume.entry result.history.history result.ends.items result.whole
        (S.seen result.store) }
{
    let version = volume.history().setting().version;
    let shared = match Shared::new(alloc, volume) {
        Ok(shared) => shared,
        Err((volume, _)) => return give_up(volume, Vec::new(alloc)),
    };
    match run_all(rt, alloc, shared, claims, version, lines, gate) {
        Ok((shared, ends)) => {
            let volume = shared.into_volume();
            // The history is legal, so that no add is under way where all lines ended.
            let _history = volume.history();
            close(alloc, volume, ends)
        }
        Err((shared, _)) => give_up(shared.into_volume(), Vec::new(alloc)),
    }
}
