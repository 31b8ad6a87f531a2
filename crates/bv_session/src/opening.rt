//! An open line: the slot holds a blob, and its last window is verified before the line answers.

ghost use Rattle.std.specs.Prelude.{◌≡◌, ℕ, ◌+◌, ◌<◌, [], ◌∷◌, Some, IfOk, IfSome, OnErr, OnOk};
ghost use Rattle.spec_core.specs.declared.act.Act.TheVariants.{Close, Open};
ghost use Rattle.spec_core.specs.declared.reply.Reply.{Reply};
ghost use Rattle.spec_core.specs.declared.reply.Reply.TheVariants.{Opened};
ghost use Rattle.spec_session.specs.Own.{add_of, slot_holds};
ghost use Rattle.bv_session.specs.Pages.{IsKept, ReaderKnows, SameBut, SlotKnows};
ghost use Rattle.bv_session.specs.Sessions.{own, Gains, IsFor, Stays, Ends, EndsAfter};
ghost use Rattle.bv_session.specs.Shown.{Shows, SlotShows, open_range};

use crate::reply::result_of;
use crate::serves::{Answer, Serves};
use crate::slots::Slots;
use crate::windows::know_window;
use crate::{LineResult, steps};
use bv_io::Gate;
use bv_merkle::windows;
use bv_pager::{Reader, Shown};
use bv_turn::{Share, Turn};
use spec_core::Who;
use spec_tree::Digest;
use std::alloc::{AllocError, Global};
use std::sync::Wait;

/// An open line. Where the last window isn't read or doesn't verify, the slot is closed again.
pub fn open<R: Wait, T: Serves, G: Gate>(
    rt: &R,
    alloc: Global,
    turn: &Turn<T>,
    share: &mut Share<T>,
    who: Who,
    slot: u32,
    root: Digest,
    slots: &mut Slots,
    gate: &G,
) -> Result<LineResult, AllocError>
    requires ready { IsFor turn.now who share.old }
    requires slot { slot < 64 }
    requires pages { SlotKnows slot share.old slots.old.pages.items }
    ensures stays { Stays turn.now share.old share.new }
    ensures line { (version : ℕ) → Ends version who (Open slot root) result
        (own share.old) (own share.new) }
    ensures idle { add_of (own share.new) ≡ add_of (own share.old) }
    ensures slots { OnOk result (SlotKnows slot share.new slots.new.pages.items) }
    ensures others { SameBut slot slots.old.pages.items slots.new.pages.items }
    ensures shows { Shows share.old share.new (who, Open slot root) result }
{
    let answer = match steps::open(rt, turn, share, who, alloc, slot, root) {
        Ok(answer) => answer,
        Err(error) => return Err(error),
    };
    match answer {
        Answer::Refused(reply) => Ok(result_of(reply)),
        Answer::Done(found) => {
            let (size, kept) = found;
            match reader_of(alloc, root, size, kept) {
                Ok(reader) => know_last(rt, alloc, turn, share, who, slot, reader, slots, gate),
                Err(error) => Err(error),
            }
        }
    }
}

// The reader that was kept, or one that knows nothing yet.
pub(crate) fn reader_of(
    alloc: Global,
    root: Digest,
    size: u64,
    kept: Option<Reader>,
) -> Result<Reader, AllocError>
    requires { IfSome kept (λ reader. (reader.root ≡ root) × (reader.size ≡ size)) }
    ensures named { IfOk result (λ reader. (reader.root ≡ root) × (reader.size ≡ size)) }
    ensures kept { IfOk result (λ reader. IsKept kept reader) }
{
    match kept {
        Some(reader) => Ok(reader),
        None => {
            let shown = match Shown::new(alloc, root, size) {
                Ok(shown) => shown,
                Err(error) => return Err(error),
            };
            Reader::new(alloc, shown)
        }
    }
}

// Goes on once the slot holds the blob: the last window has to be known.
fn know_last<R: Wait, T: Serves, G: Gate>(
    rt: &R,
    alloc: Global,
    turn: &Turn<T>,
    share: &mut Share<T>,
    who: Who,
    slot: u32,
    mut reader: Reader,
    slots: &mut Slots,
    gate: &G,
) -> Result<LineResult, AllocError>
    requires ready { IsFor turn.now who share.old }
    requires slot { slot < 64 }
    requires holds { slot_holds slot (own share.old) ≡ Some (reader.root, reader.size) }
    requires pages { ReaderKnows slot share.old reader }
    ensures stays { Stays turn.now share.old share.new }
    ensures line { (version : ℕ) → EndsAfter version [] who (Open slot reader.root)
        ((Open slot reader.root, Opened reader.size) ∷ []) result (own share.old) (own share.new) }
    ensures idle { add_of (own share.new) ≡ add_of (own share.old) }
    ensures slots { OnOk result (SlotKnows slot share.new slots.new.pages.items) }
    ensures others { SameBut slot slots.old.pages.items slots.new.pages.items }
    ensures shows { SlotShows slot (reader.root, reader.size) (open_range reader.size)
        share.old share.new result }
{
    let last = windows(reader.size()) - 1;
    let found = match know_window(rt, alloc, turn, share, who, slot, &mut reader, last, gate) {
        Ok(found) => found,
        Err(error) => return Err(error),
    };
    let size = reader.size();
    match found {
        None => {
            slots.put(slot, reader);
            Ok(LineResult::Opened { size })
        }
        Some(result) => {
            // What stands there is of a blob that the slot held before.
            let _before = slots.take(slot);
            shut(rt, alloc, turn, share, who, slot, result)
        }
    }
}

// Closes the slot again, and answers with this result.
fn shut<R: Wait, T: Serves>(
    rt: &R,
    alloc: Global,
    turn: &Turn<T>,
    share: &mut Share<T>,
    who: Who,
    slot: u32,
    found: LineResult,
) -> Result<LineResult, AllocError>
    requires ready { IsFor turn.now who share.old }
    ensures stays { Stays turn.now share.old share.new }
    ensures ok { IfOk result (λ r. (r ≡ found)
        × ((q : Reply) × Gains who (Close slot) q (own share.old) (own share.new))) }
    ensures err { OnErr result (own share.new ≡ own share.old) }
    ensures idle { add_of (own share.new) ≡ add_of (own share.old) }
{
    match steps::close(rt, turn, share, who, alloc, slot, None) {
        Ok(_) => Ok(found),
        Err(error) => Err(error),
    }
}
