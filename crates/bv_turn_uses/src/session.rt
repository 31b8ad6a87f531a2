//! What one session does: a holding of the turn for each of its lines.
ghost use Rattle.std.specs.Prelude.{◌≡◌, ◌++◌, ◌∷◌, [], true, OnOk, OnErr};
ghost use Rattle.bv_turn.specs.Tokens.{IsOf, IsIdle, session_of, list_of, basis_of};
ghost use Rattle.bv_turn_uses.specs.Events.{event};
ghost use Rattle.bv_turn_uses.specs.Ends.{IsReady, ComesBack, EndOf};

use crate::adds::Adds;
use crate::script::Script;
use bv_turn::{Keeps, Share, Turn};
use std::alloc::AllocError;
use std::sync::Wait;

/// A session's share once it ended, and whether all its lines were done.
#[derive(Drop)]
pub struct Ended<T: Keeps> {
    pub share: Share<T>,
    pub whole: bool,
}

/// Does the lines of the share's session in order, up to the first that finds no memory.
pub fn run_session<R: Wait, T: Adds>(
    rt: &R,
    turn: &Turn<T>,
    share: Share<T>,
    script: &Script,
) -> Ended<T>
    requires { IsReady turn.now share }
    ensures { EndOf turn.now script.now share result }
{
    let mut share = share;
    let whole = run_lines(rt, turn, &mut share, script);
    Ended { share, whole }
}

fn run_lines<R: Wait, T: Adds>(
    rt: &R,
    turn: &Turn<T>,
    share: &mut Share<T>,
    script: &Script,
) -> bool
    requires { IsReady turn.now share.old }
    ensures { ComesBack turn.now script.now share.old share.new result }
{
    for line in &script.lines {
        if line.session == share.session() && add(rt, turn, share, line.amount).is_err() {
            return false;
        }
    }
    true
}

// One event, in one holding.
fn add<R: Wait, T: Adds>(
    rt: &R,
    turn: &Turn<T>,
    share: &mut Share<T>,
    amount: u64,
) -> Result<(), AllocError>
    requires { IsOf turn.now share.old × IsIdle share.old }
    ensures this { IsOf turn.now share.new × IsIdle share.new }
    ensures session { session_of share.new ≡ session_of share.old }
    ensures basis { basis_of share.new ≡ basis_of share.old }
    ensures ok { OnOk result
        (list_of share.new ≡ list_of share.old ++ event (session_of share.old) amount ∷ []) }
    ensures err { OnErr result (list_of share.new ≡ list_of share.old) }
{
    let mut held = turn.hold(rt, share);
    let added = held.value.add(share.session(), amount);
    turn.pass(share, held);
    added
}
