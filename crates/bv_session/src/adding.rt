//! An add line: begin, claim, admit, every put, and settle.
ghost use Rattle.std.specs.Prelude.{◌≡◌, ◌≤◌, ◌+◌, [], None, Some, length};
ghost use Rattle.bv_turn.specs.Tokens.{list_of};
ghost use Rattle.bv_writer.specs.Blocks.{IsBlobOf};
ghost use Rattle.spec_tree.specs.Tree.{need_of};
ghost use Rattle.spec_session.specs.Lines.{admits};
ghost use Rattle.spec_session.specs.Own.{new_add, add_of};
ghost use Rattle.bv_claims.specs.Tokens.{IsClaimedOf, claimed_gained, claimed_left};
ghost use Rattle.bv_session.specs.Adds.{begins, all_put, put_of, AddEnds, PutsEnd, IfAllPut};
ghost use Rattle.bv_session.specs.Written.{HasWritten, written};
ghost use Rattle.bv_session.specs.Sessions.{own, IsFor, BasisHas, Stays};

use crate::reply::result_of;
use crate::serves::{Answer, Outcome, Serves};
use crate::{LineResult, steps};
use bv_claims::{Claimed, Claims};
use bv_io::Gate;
use bv_turn::{Share, Turn};
use bv_writer::Adding;
use spec_core::Who;
use std::alloc::{AllocError, Global};
use std::sync::Wait;

/// Adds a blob that was planned. The lock is held for each event, and not between two.
pub fn add<R: Wait, T: Serves, G: Gate>(
    rt: &R,
    alloc: Global,
    turn: &Turn<T>,
    claims: &Claims,
    share: &mut Share<T>,
    who: Who,
    adding: &Adding,
    gate: &G,
) -> Result<LineResult, AllocError>
    requires ready { IsFor turn.now who share.old }
    requires basis { BasisHas share.old (λ b. (b.claims ≡ claims.now)
        × (b.geometry.version ≡ adding.now.version)) }
    requires need { need_of adding.now.version adding.now.size ≤ 65535 }
    requires blob { IsBlobOf adding.now.version adding.now.root adding.now.size adding.now.blocks }
    requires idle { add_of (own share.old) ≡ None }
    ensures stays { Stays turn.now share.old share.new }
    ensures line { AddEnds adding.now who [] result (own share.old) (own share.new) }
    ensures idle { add_of (own share.new) ≡ None }
{
    let (root, size) = (adding.root(), adding.size());
    let answer = match steps::begin(rt, turn, share, who, alloc, root, size) {
        Ok(answer) => answer,
        Err(error) => return Err(error),
    };
    match answer {
        Answer::Refused(reply) => Ok(result_of(reply)),
        Answer::Done(tokens) => {
            let (begun, grant) = tokens;
            gate.work(who.session, who.line);
            let claimed = claims.claim(grant);
            admit(rt, alloc, turn, share, who, adding, begun, claimed)
        }
    }
}

// Goes on once blocks are claimed.
fn admit<R: Wait, T: Serves>(
    rt: &R,
    alloc: Global,
    turn: &Turn<T>,
    share: &mut Share<T>,
    who: Who,
    adding: &Adding,
    begun: T::Begun,
    claimed: Claimed,
) -> Result<LineResult, AllocError>
    requires ready { IsFor turn.now who share.old }
    requires begun { T.begun begun ≡ new_add adding.now.root adding.now.size }
    requires add { add_of (own share.old) ≡ Some (new_add adding.now.root adding.now.size) }
    requires blob { IsBlobOf adding.now.version adding.now.root adding.now.size adding.now.blocks }
    requires claimed { BasisHas share.old (λ b. (b.geometry.version ≡ adding.now.version)
        × IsClaimedOf b.claims claimed
        × (length (claimed_gained claimed) + claimed_left claimed
        ≡ need_of adding.now.version adding.now.size)) }
    ensures stays { Stays turn.now share.old share.new }
    ensures line { AddEnds adding.now who (begins adding.now) result
        (own share.old) (own share.new) }
    ensures idle { add_of (own share.new) ≡ None }
{
    let answer = match steps::admit(rt, turn, share, who, alloc, begun, claimed) {
        Ok(answer) => answer,
        Err((begun, claimed)) => {
            steps::retire_begun(rt, turn, share, who, begun, claimed);
            return Err(AllocError);
        }
    };
    match answer {
        Answer::Refused(reply) => Ok(result_of(reply)),
        Answer::Done(admitted) => put_and_settle(rt, alloc, turn, share, who, adding, admitted),
    }
}

// Goes on once the add is admitted.
fn put_and_settle<R: Wait, T: Serves>(
    rt: &R,
    alloc: Global,
    turn: &Turn<T>,
    share: &mut Share<T>,
    who: Who,
    adding: &Adding,
    mut add: T::Admitted,
) -> Result<LineResult, AllocError>
    requires ready { IsFor turn.now who share.old }
    requires admitted { T.admitted add ≡ put_of adding.now 0 }
    requires add { add_of (own share.old) ≡ Some (put_of adding.now 0) }
    requires none { written (list_of share.old) ≡ [] }
    requires basis { BasisHas share.old (λ b. b.geometry.version ≡ adding.now.version) }
    requires blob { IsBlobOf adding.now.version adding.now.root adding.now.size adding.now.blocks }
    ensures stays { Stays turn.now share.old share.new }
    ensures line { AddEnds adding.now who (admits adding.now.root adding.now.size) result
        (own share.old) (own share.new) }
    ensures idle { add_of (own share.new) ≡ None }
{
    let outcome = match put_all(rt, alloc, turn, share, who, adding, &mut add) {
        Ok(outcome) => outcome,
        Err(error) => {
            steps::retire(rt, turn, share, who, add);
            return Err(error);
        }
    };
    match outcome {
        Outcome::Refused(reply) => {
            steps::retire(rt, turn, share, who, add);
            Ok(result_of(reply))
        }
        Outcome::Done => settle(rt, alloc, turn, share, who, adding, add),
    }
}

// Puts the blocks in order, up to the first that is refused.
fn put_all<R: Wait, T: Serves>(
    rt: &R,
    alloc: Global,
    turn: &Turn<T>,
    share: &mut Share<T>,
    who: Who,
    adding: &Adding,
    add: &mut T::Admitted,
) -> Result<Outcome, AllocError>
    requires ready { IsFor turn.now who share.old }
    requires admitted { T.admitted add.old ≡ put_of adding.now 0 }
    requires add { add_of (own share.old) ≡ Some (put_of adding.now 0) }
    requires none { written (list_of share.old) ≡ [] }
    requires basis { BasisHas share.old (λ b. b.geometry.version ≡ adding.now.version) }
    requires blob { IsBlobOf adding.now.version adding.now.root adding.now.size adding.now.blocks }
    ensures stays { Stays turn.now share.old share.new }
    ensures puts { PutsEnd adding.now who result (T.admitted add.new)
        (own share.old) (own share.new) }
    ensures written { IfAllPut result
        (BasisHas share.old (λ b. HasWritten b.told adding.now.blocks (list_of share.new))) }
{
    for index in 0..adding.need() {
        let block = adding.block(index);
        let outcome = match steps::put(rt, turn, share, who, alloc, add, &block) {
            Ok(outcome) => outcome,
            Err(error) => return Err(error),
        };
        match outcome {
            Outcome::Refused(reply) => return Ok(Outcome::Refused(reply)),
            Outcome::Done => (),
        }
    }
    Ok(Outcome::Done)
}

// Goes on once all blocks are put.
fn settle<R: Wait, T: Serves>(
    rt: &R,
    alloc: Global,
    turn: &Turn<T>,
    share: &mut Share<T>,
    who: Who,
    adding: &Adding,
    add: T::Admitted,
) -> Result<LineResult, AllocError>
    requires ready { IsFor turn.now who share.old }
    requires admitted { T.admitted add
        ≡ put_of adding.now (need_of adding.now.version adding.now.size) }
    requires add { add_of (own share.old)
        ≡ Some (put_of adding.now (need_of adding.now.version adding.now.size)) }
    requires basis { BasisHas share.old (λ b. (b.geometry.version ≡ adding.now.version)
        × HasWritten b.told adding.now.blocks (list_of share.old)) }
    requires blob { IsBlobOf adding.now.version adding.now.root adding.now.size adding.now.blocks }
    ensures stays { Stays turn.now share.old share.new }
    ensures line { AddEnds adding.now who (all_put adding.now) result
        (own share.old) (own share.new) }
    ensures idle { add_of (own share.new) ≡ None }
{
    let outcome = match steps::settle(rt, turn, share, who, alloc, add) {
        Ok(outcome) => outcome,
        Err(add) => {
            steps::retire(rt, turn, share, who, add);
            return Err(AllocError);
        }
    };
    match outcome {
        Outcome::Refused(reply) => Ok(result_of(reply)),
        Outcome::Done => Ok(LineResult::Published),
    }
}
