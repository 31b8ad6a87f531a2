//! The sessions of a script over a value behind the lock.
ghost use Rattle.std.specs.Prelude.{◌≡◌, ◌⊎◌, [], IfOk, IfErr, vec_len};
ghost use Rattle.spec_script.specs.Lawful.{AreLawful};
ghost use Rattle.spec_headline.specs.Run.{HasNoUnmount};
ghost use Rattle.spec_session.specs.Text.{results_of};
ghost use Rattle.bv_came.specs.Sees.{SessionsShow};
ghost use Rattle.bv_session.specs.Events.{history_of};
ghost use Rattle.bv_sessions.specs.Ends.{AllEnd};

use crate::back::{Back, room_for};
use crate::each::run_each;
use bv_claims::Claims;
use bv_io::Gate;
use bv_session::Serves;
use bv_turn::Turn;
use spec_script::ScriptLine;
use spec_session::SessionEnd;
use std::alloc::{AllocError, Global};
use std::sync::Wait;
use std::thread::Threads;

/// How many sessions a script has.
const SESSIONS: u32 = 16;

/// Runs the sessions of these lines over this value, which has no entry yet, each in a thread of its
/// own.
///
/// The answer has the value after all of them, and how each session ended, at the place of its
/// number: it ends early where it finds no memory, and the others go on. Where there is no memory to
/// begin with, the value comes back.
///
/// `claims` is the table of the value's basis, and `version` the version there.
pub fn run_all<R: Threads + Wait + Sync, V: Serves + Send, G: Gate + Sync>(
    rt: &R,
    alloc: Global,
    value: V,
    claims: &Claims,
    version: u32,
    lines: &[ScriptLine],
    gate: &G,
) -> Result<(V, Vec<SessionEnd>), (V, AllocError)>
    requires empty { V.entries value ≡ [] }
    requires claims { (V.basis value).claims ≡ claims.now }
    requires version { (V.basis value).geometry.version ≡ version }
    requires known { (version ≡ 1) ⊎ (version ≡ 2) }
    requires lawful { AreLawful lines.now }
    ensures basis { IfOk result (λ r. V.basis r.0 ≡ V.basis value) }
    ensures ends { IfOk result (λ r.
        AllEnd lines.now (history_of (V.basis r.0) (V.entries r.0)) r.1.items) }
    ensures count { IfOk result (λ r. vec_len r.1 ≡ 16) }
    ensures shows { IfOk result (λ r.
        SessionsShow (V.basis r.0) lines.now (V.entries r.0) (results_of r.1.items)) }
    ensures others { IfOk result (λ r. HasNoUnmount (history_of (V.basis r.0) (V.entries r.0))) }
    ensures err { IfErr result (λ r. r.0 ≡ value) }
{
    let Ok(back) = room_for(alloc, SESSIONS as usize) else {
        return Err((value, AllocError));
    };
    let (turn, shares) = Turn::new(alloc, value, SESSIONS)?;
    let Back { shares, ends } = run_each(
        rt, alloc, &turn, claims, version, shares, lines, gate, back,
    );
    Ok((turn.close(shares), ends))
}
