//! A thread for each session.
ghost use Rattle.std.specs.Prelude.{◌≡◌, ◌+◌, ◌++◌, ◌∷◌, [], All, vec_len};
ghost use Rattle.spec_script.specs.Lawful.{AreLawful};
ghost use Rattle.bv_session.specs.Ends.{IsReady, EndOf};
ghost use Rattle.bv_sessions.specs.Backs.{AllBack, IsEmptyFor, SameRoom};
ghost use denote.Param.Send.{IsSync};

use crate::back::{Back, with};
use bv_claims::Claims;
use bv_io::Gate;
use bv_session::{Ended, Serves, run_lines_of};
use bv_turn::{Keeps, Share, Turn};
use spec_script::ScriptLine;
use std::alloc::Global;
use std::snapshot::Snapshot;
use std::sync::Wait;
use std::thread;
use std::thread::{Promise, Threads};

/// What a session's thread promises: its share comes back with its session's part of the lines.
#[derive(Drop)]
struct SessionOf<'s, V: Keeps> {
    turn: Snapshot<Turn<V>>,
    share: Snapshot<Share<V>>,
    version: u32,
    lines: &'s [ScriptLine],
}

impl<'s, V: Keeps> SessionOf<'s, V> {
    fn of(
        turn: &Turn<V>,
        share: &Share<V>,
        version: u32,
        lines: &'s [ScriptLine],
    ) -> SessionOf<'s, V>
        ensures turn { result.turn.value ≡ turn.now }
        ensures share { result.share.value ≡ share.now }
        ensures version { result.version ≡ version }
        ensures lines { result.lines.now ≡ lines.now }
    {
        SessionOf {
            turn: Snapshot::of(turn),
            share: Snapshot::of(share),
            version,
            lines,
        }
    }
}

impl<'s, V: Serves> Promise<Ended<V>> for SessionOf<'s, V> {
    ghost kept_by = { λ p r. EndOf p.turn.value p.lines.now p.version p.share.value r };
}

/// Does the lines of each share's session in a thread of its own, beside those of all other shares.
/// Where no thread can be made, this one does its work, once the others have begun.
pub(crate) fn run_each<R: Threads + Wait + Sync, V: Serves + Send, G: Gate + Sync>(
    rt: &R,
    alloc: Global,
    turn: &Turn<V>,
    claims: &Claims,
    version: u32,
    mut shares: Vec<Share<V>>,
    lines: &[ScriptLine],
    gate: &G,
    back: Back<V>,
) -> Back<V>
    requires ready { All (IsReady turn.now claims.now version) shares.items }
    requires lawful { AreLawful lines.now }
    requires room { IsEmptyFor (vec_len shares) back }
    ensures back { AllBack turn.now lines.now version shares.items result }
    ensures room { SameRoom back result }
{
    let Some(share) = shares.pop() else {
        return back;
    };
    thread::scope(
        thread::scope_env(),
        rt,
        |scope| -> Back<V>
            requires { IsSync R.row × IsSync G.row
                × All (IsReady turn.now claims.now version) shares.items
                × IsReady turn.now claims.now version share × AreLawful lines.now
                × IsEmptyFor (vec_len shares + 1) back }
            ensures { AllBack turn.entry.now lines.entry.now version (shares.items ++ share ∷ []) result
                × SameRoom back result }
        {
            let started = scope.spawn_with(
                SessionOf::of(turn, &share, version, lines),
                move || -> Ended<V>
                    requires { IsReady turn.now claims.now version share × AreLawful lines.now }
                    ensures { EndOf turn.entry.now lines.entry.now version share result }
                { run_lines_of(rt, alloc, turn, claims, version, share, lines, gate) },
            );
            let back = run_each(rt, alloc, turn, claims, version, shares, lines, gate, back);
            let ended = match started {
                Ok(child) => child.join(rt),
                Err(refused) => (refused.value)(),
            };
            with(back, ended)
        },
    )
}
