//! A line of a session.
ghost use Rattle.std.specs.Prelude.{◌≡◌, ◌≤◌, ◌⊎◌, None, OnOk};
ghost use Rattle.spec_script.specs.Lawful.{IsLine};
ghost use Rattle.spec_script.specs.Limits.{word_len};
ghost use Rattle.spec_script.specs.Tasks.{task_of};
ghost use Rattle.spec_script.specs.declared.command.Command.TheVariants.{Add};
ghost use Rattle.spec_session.specs.Own.{add_of};
ghost use Rattle.spec_session.specs.Conform.{own_act, request_of};
ghost use Rattle.spec_session.specs.Told.{who_of};
ghost use Rattle.bv_session.specs.Pages.{SlotsKnow};
ghost use Rattle.bv_session.specs.Sessions.{own, BasisHas, IsFor, Stays, Ends};
ghost use Rattle.bv_session.specs.Shown.{Shows};

use crate::LineResult;
use crate::adding::add;
use crate::opening::open;
use crate::plain::{close, list, sync, unlink};
use crate::ranging::{read, scan};
use crate::serves::Serves;
use crate::slots::Slots;
use bv_claims::Claims;
use bv_io::Gate;
use bv_turn::{Share, Turn};
use bv_words::{bytes_of, root_of_name};
use bv_writer::Adding;
use spec_core::Who;
use spec_script::{Command, ScriptLine, Word};
use std::alloc::{AllocError, Global};
use std::sync::Wait;

/// Does a line of the share's session.
pub fn run_line<R: Wait, T: Serves, G: Gate>(
    rt: &R,
    alloc: Global,
    turn: &Turn<T>,
    claims: &Claims,
    version: u32,
    share: &mut Share<T>,
    slots: &mut Slots,
    line: &ScriptLine,
    gate: &G,
) -> Result<LineResult, AllocError>
    requires ready { IsFor turn.now (who_of line.now) share.old }
    requires basis { BasisHas share.old (λ b. (b.claims ≡ claims.now)
        × (b.geometry.version ≡ version)) }
    requires version { (version ≡ 1) ⊎ (version ≡ 2) }
    requires lawful { IsLine line.now }
    requires idle { add_of (own share.old) ≡ None }
    requires slots { SlotsKnow share.old slots.old.pages.items }
    ensures stays { Stays turn.now share.old share.new }
    ensures line { Ends version (who_of line.now) (own_act (task_of line.now.command)) result
        (own share.old) (own share.new) }
    ensures idle { add_of (own share.new) ≡ None }
    ensures slots { OnOk result (SlotsKnow share.new slots.new.pages.items) }
    ensures shows { Shows share.old share.new (request_of line.now) result }
{
    let who = Who {
        session: line.session,
        line: line.number,
    };
    match &line.command {
        Command::Add { word } => {
            add_word(rt, alloc, turn, claims, version, share, who, word, gate)
        }
        Command::Open { slot, name } => match root_of_name(alloc, name) {
            Ok(root) => open(rt, alloc, turn, share, who, *slot, root, slots, gate),
            Err(error) => Err(error),
        },
        Command::Read { slot, off, len } => {
            read(rt, alloc, turn, share, who, *slot, *off, *len, slots, gate)
        }
        Command::Scan { slot } => scan(rt, alloc, turn, share, who, *slot, slots, gate),
        Command::Close { slot } => {
            let pages = slots.take(*slot);
            close(rt, alloc, turn, share, who, *slot, pages)
        }
        Command::Unlink { name } => match root_of_name(alloc, name) {
            Ok(root) => unlink(rt, alloc, turn, share, who, root),
            Err(error) => Err(error),
        },
        Command::Sync => sync(rt, alloc, turn, share, who),
        Command::List => list(rt, alloc, turn, share, who),
    }
}

// Adds the blob that a word spells: it is planned outside the lock.
fn add_word<R: Wait, T: Serves, G: Gate>(
    rt: &R,
    alloc: Global,
    turn: &Turn<T>,
    claims: &Claims,
    version: u32,
    share: &mut Share<T>,
    who: Who,
    word: &Word,
    gate: &G,
) -> Result<LineResult, AllocError>
    requires ready { IsFor turn.now who share.old }
    requires basis { BasisHas share.old (λ b. (b.claims ≡ claims.now)
        × (b.geometry.version ≡ version)) }
    requires version { (version ≡ 1) ⊎ (version ≡ 2) }
    requires lawful { word_len word.now ≤ 4194304 }
    requires idle { add_of (own share.old) ≡ None }
    ensures stays { Stays turn.now share.old share.new }
    ensures line { Ends version who (own_act (task_of (Add word.now))) result
        (own share.old) (own share.new) }
    ensures idle { add_of (own share.new) ≡ None }
{
    gate.work(who.session, who.line);
    let bytes = match bytes_of(alloc, word) {
        Ok(bytes) => bytes,
        Err(error) => return Err(error),
    };
    let adding = match Adding::plan_as(alloc, version, bytes) {
        Ok(adding) => adding,
        Err(error) => return Err(error),
    };
    add(rt, alloc, turn, claims, share, who, &adding, gate)
}
