//! A thread for each session.
ghost use Rattle.std.specs.Prelude.{◌≡◌, ◌+◌, ◌<◌, ◌≤◌, [], ◌∷◌, ◌++◌, length, All, IfOk, IfErr, vec_len, vec_capacity};
ghost use Rattle.bv_turn_uses.specs.Ends.{IsReady, EndOf, AllBack, IsEmptyFor, SameRoom};
ghost use Rattle.bv_turn_uses.specs.Events.{AllServed};
ghost use denote.Param.Send.{IsSync};

use crate::adds::Adds;
use crate::script::Script;
use crate::session::{Ended, run_session};
use bv_turn::{Keeps, Share, Turn};
use std::alloc::{AllocError, Global};
use std::snapshot::Snapshot;
use std::sync::Wait;
use std::thread;
use std::thread::{Promise, Threads};

/// What a session's thread promises: its share comes back with its session's part of the script.
#[derive(Drop)]
struct SessionOf<T: Keeps> {
    turn: Snapshot<Turn<T>>,
    share: Snapshot<Share<T>>,
    script: Snapshot<Script>,
}

impl<T: Keeps> SessionOf<T> {
    fn of(turn: &Turn<T>, share: &Share<T>, script: &Script) -> SessionOf<T>
        ensures turn { result.turn.value ≡ turn.now }
        ensures share { result.share.value ≡ share.now }
        ensures script { result.script.value ≡ script.now }
    {
        SessionOf {
            turn: Snapshot::of(turn),
            share: Snapshot::of(share),
            script: Snapshot::of(script),
        }
    }
}

impl<T: Adds> Promise<Ended<T>> for SessionOf<T> {
    ghost kept_by = { λ p r. EndOf p.turn.value p.script.value p.share.value r };
}

/// The shares that came back, in the order of their sessions, and whether each did all its lines.
#[derive(Drop)]
struct Back<T: Keeps> {
    shares: Vec<Share<T>>,
    whole: Vec<bool>,
}

// The last share's session runs in a thread of its own, beside those of all other shares. Where no
// thread can be made, this thread does its work, once the others have begun.
fn run_each<R: Threads + Wait + Sync, T: Adds + Send>(
    rt: &R,
    turn: &Turn<T>,
    mut shares: Vec<Share<T>>,
    script: &Script,
    back: Back<T>,
) -> Back<T>
    requires ready { All (IsReady turn.now) shares.items }
    requires room { IsEmptyFor (vec_len shares) back }
    ensures back { AllBack turn.now script.now shares.items result }
    ensures room { SameRoom back result }
{
    let Some(share) = shares.pop() else {
        return back;
    };
    thread::scope(
        thread::scope_env(),
        rt,
        |scope| -> Back<T>
            requires { IsSync R.row × All (IsReady turn.now) shares.items × IsReady turn.now share
                × IsEmptyFor (vec_len shares + 1) back }
            ensures { AllBack turn.entry.now script.entry.now (shares.items ++ share ∷ []) result
                × SameRoom back result }
        {
            let started = scope.spawn_with(
                SessionOf::of(turn, &share, script),
                move || -> Ended<T>
                    requires { IsReady turn.now share }
                    ensures { EndOf turn.entry.now script.entry.now share result }
                { run_session(rt, turn, share, script) },
            );
            let back = run_each(rt, turn, shares, script, back);
            let ended = match started {
                Ok(child) => child.join(rt),
                Err(refused) => (refused.value)(),
            };
            with(back, ended)
        },
    )
}

// The share that came back goes behind the others.
fn with<T: Keeps>(back: Back<T>, ended: Ended<T>) -> Back<T>
    requires shares { vec_len back.shares < vec_capacity back.shares }
    requires whole { vec_len back.whole < vec_capacity back.whole }
    ensures shares { result.shares.items ≡ back.shares.items ++ ended.share ∷ [] }
    ensures whole { result.whole.items ≡ back.whole.items ++ ended.whole ∷ [] }
    ensures room { SameRoom back result }
{
    let Back {
        mut shares,
        mut whole,
    } = back;
    shares.push_reserved(ended.share);
    whole.push_reserved(ended.whole);
    Back { shares, whole }
}

/// Runs the script's sessions over this value, each in a thread of its own.
///
/// The answer has the value after all of them, and for each session, at the place of its number,
/// whether it did all its lines: it ends early where an event finds no memory. Where there is no
/// memory for the shares, the value comes back.
pub fn run_sessions<R: Threads + Wait + Sync, T: Adds + Send>(
    rt: &R,
    alloc: Global,
    value: T,
    sessions: u32,
    script: &Script,
) -> Result<(T, Vec<bool>), (T, AllocError)>
    requires sessions { (0 < sessions) × (sessions ≤ 16) }
    requires empty { T.entries value ≡ [] }
    ensures served { IfOk result (λ r.
        AllServed T.session sessions script.now.lines.items (T.entries r.0) r.1.items) }
    ensures owned { IfOk result (λ r. All (λ e. T.session e < sessions) (T.entries r.0)) }
    ensures basis { IfOk result (λ r. T.basis r.0 ≡ T.basis value) }
    ensures err { IfErr result (λ r. r.0 ≡ value) }
{
    let Ok(back) = room_for(alloc, sessions as usize) else {
        return Err((value, AllocError));
    };
    let (turn, shares) = Turn::new(alloc, value, sessions)?;
    let Back { shares, whole } = run_each(rt, &turn, shares, script, back);
    Ok((turn.close(shares), whole))
}

fn room_for<T: Keeps>(alloc: Global, count: usize) -> Result<Back<T>, AllocError>
    ensures { IfOk result (IsEmptyFor count) }
{
    Ok(Back {
        shares: Vec::with_capacity(alloc, count)?,
        whole: Vec::with_capacity(alloc, count)?,
    })
}
