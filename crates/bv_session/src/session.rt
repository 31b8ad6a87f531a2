//! One session: its lines in order.
ghost use Rattle.std.specs.Prelude.{◌≡◌, ◌⊎◌, None, [], true};
ghost use Rattle.spec_script.specs.Lawful.{AreLawful, IsLine};
ghost use Rattle.spec_session.specs.Own.{add_of};
ghost use Rattle.bv_turn.specs.Tokens.{IsOf, IsIdle, session_of};
ghost use Rattle.bv_session.specs.Ends.{IsReady, EndOf, Goes, GoesLine};
ghost use Rattle.bv_session.specs.Pages.{SlotsKnow};
ghost use Rattle.bv_session.specs.Sessions.{own, BasisHas, Stays};
ghost use Rattle.bv_session.specs.Shown.{LinesShow, ShowsNext};

use crate::line::run_line;
use crate::serves::Serves;
use crate::slots::Slots;
use crate::{LineResult, SessionEnd};
use bv_claims::Claims;
use bv_io::Gate;
use bv_turn::{Keeps, Share, Turn};
use spec_script::ScriptLine;
use std::alloc::Global;
use std::sync::Wait;

/// A share that came back, and how its session ended.
#[derive(Drop)]
pub struct Ended<T: Keeps> {
    pub share: Share<T>,
    pub end: SessionEnd,
}

/// Does the lines of the share's session in order. Its share comes back.
pub fn run_lines_of<R: Wait, T: Serves, G: Gate>(
    rt: &R,
    alloc: Global,
    turn: &Turn<T>,
    claims: &Claims,
    version: u32,
    share: Share<T>,
    lines: &[ScriptLine],
    gate: &G,
) -> Ended<T>
    requires ready { IsReady turn.now claims.now version share }
    requires lawful { AreLawful lines.now }
    ensures { EndOf turn.now lines.now version share result }
{
    let mut share = share;
    let mut results = Vec::new(alloc);
    let whole = do_all(
        rt,
        alloc,
        turn,
        claims,
        version,
        &mut share,
        lines,
        gate,
        &mut results,
    );
    Ended {
        share,
        end: SessionEnd {
            results,
            memory: !whole,
        },
    }
}

// Makes the slots, and does the lines; says whether all were done.
fn do_all<R: Wait, T: Serves, G: Gate>(
    rt: &R,
    alloc: Global,
    turn: &Turn<T>,
    claims: &Claims,
    version: u32,
    share: &mut Share<T>,
    lines: &[ScriptLine],
    gate: &G,
    results: &mut Vec<LineResult>,
) -> bool
    requires ready { IsReady turn.now claims.now version share.old }
    requires lawful { AreLawful lines.now }
    requires none { results.old.items ≡ [] }
    ensures stays { Stays turn.now share.old share.new }
    ensures goes { Goes version lines.now (session_of share.old) result (own share.new)
        results.new.items }
    ensures shows { LinesShow version lines.now (session_of share.old) share.new
        results.new.items }
{
    let mut slots = match Slots::new(alloc) {
        Ok(slots) => slots,
        Err(_) => return false,
    };
    do_lines(
        rt, alloc, turn, claims, version, share, &mut slots, lines, gate, results,
    )
}

// The lines, up to the first that finds no memory; says whether all were done.
fn do_lines<R: Wait, T: Serves, G: Gate>(
    rt: &R,
    alloc: Global,
    turn: &Turn<T>,
    claims: &Claims,
    version: u32,
    share: &mut Share<T>,
    slots: &mut Slots,
    lines: &[ScriptLine],
    gate: &G,
    results: &mut Vec<LineResult>,
) -> bool
    requires ready { IsReady turn.now claims.now version share.old }
    requires lawful { AreLawful lines.now }
    requires none { results.old.items ≡ [] }
    requires slots { SlotsKnow share.old slots.old.pages.items }
    ensures stays { Stays turn.now share.old share.new }
    ensures goes { Goes version lines.now (session_of share.old) result (own share.new)
        results.new.items }
    ensures shows { LinesShow version lines.now (session_of share.old) share.new
        results.new.items }
{
    for line in lines {
        if !do_line(
            rt, alloc, turn, claims, version, share, slots, line, gate, results,
        ) {
            return false;
        }
    }
    gate.pass(share.session(), 0);
    true
}

// A line, if it is of the share's session; says whether it was done and noted.
fn do_line<R: Wait, T: Serves, G: Gate>(
    rt: &R,
    alloc: Global,
    turn: &Turn<T>,
    claims: &Claims,
    version: u32,
    share: &mut Share<T>,
    slots: &mut Slots,
    line: &ScriptLine,
    gate: &G,
    results: &mut Vec<LineResult>,
) -> bool
    requires this { IsOf turn.now share.old × IsIdle share.old }
    requires basis { BasisHas share.old (λ b. (b.claims ≡ claims.now)
        × (b.geometry.version ≡ version)) }
    requires version { (version ≡ 1) ⊎ (version ≡ 2) }
    requires lawful { IsLine line.now }
    requires idle { add_of (own share.old) ≡ None }
    requires slots { SlotsKnow share.old slots.old.pages.items }
    ensures stays { Stays turn.now share.old share.new }
    ensures line { GoesLine version (session_of share.old) line.now result
        (own share.old) (own share.new) results.old.items results.new.items }
    ensures idle { add_of (own share.new) ≡ None }
    ensures slots { result ≡ true → SlotsKnow share.new slots.new.pages.items }
    ensures shows { ShowsNext version (session_of share.old) line.now result
        share.old share.new results.old.items results.new.items }
{
    if line.session != share.session() {
        return true;
    }
    gate.pass(line.session, line.number);
    if results.reserve(1).is_err() {
        return false;
    }
    let result = match run_line(rt, alloc, turn, claims, version, share, slots, line, gate) {
        Ok(result) => result,
        Err(_) => return false,
    };
    results.push_reserved(result);
    true
}
