//! Read and scan lines: the windows that the reader doesn't know are fetched and verified, in their
//! order.

ghost use Rattle.std.specs.Prelude.{◌≡◌, ℕ, ◌+◌, ◌<◌, ◌≤◌, List, Some, IfOk, IfSome, OnOk, min};
ghost use Rattle.spec_core.specs.declared.act.Act.TheVariants.{Read, Scan};
ghost use Rattle.spec_core.specs.declared.event.CoreEvent.{CoreEvent};
ghost use Rattle.spec_core.specs.declared.reply.Reply.TheVariants.{Reading};
ghost use Rattle.spec_session.specs.Own.{add_of, slot_holds};
ghost use Rattle.spec_tree.specs.Tree.{windows_of};
ghost use Rattle.spec_session.specs.Lines.{read_windows};
ghost use Rattle.spec_served.specs.Answers.{read_of};
ghost use Rattle.spec_served.specs.Device.{IsBytes};
ghost use Rattle.bv_pager.specs.Reading.{IsReading};
ghost use Rattle.bv_session.specs.Windows.{KnowsBetween, known_of};
ghost use Rattle.bv_session.specs.Pages.{IsKept, ReaderKnows, SameBut, SlotKnows, reader_at};
ghost use Rattle.bv_session.specs.Sessions.{own, Gains, IsFor, Stays, Ends};
ghost use Rattle.bv_session.specs.Shown.{Shows, SlotShows, read_range, scan_range};

use crate::opening::reader_of;
use crate::reply::result_of;
use crate::serves::{Answer, Serves};
use crate::slots::Slots;
use crate::windows::know_range;
use crate::{LineResult, steps};
use bv_io::Gate;
use bv_merkle::windows;
use bv_pager::{ReadFault, Reader};
use bv_turn::{Share, Turn};
use spec_core::{Act, Who};
use spec_tree::Digest;
use std::alloc::{AllocError, Global};
use std::sync::Wait;

/// The bytes of a window.
const WINDOW_LEN: u64 = 65_536;

/// A scan line: each window of the slot's blob is verified.
pub fn scan<R: Wait, T: Serves, G: Gate>(
    rt: &R,
    alloc: Global,
    turn: &Turn<T>,
    share: &mut Share<T>,
    who: Who,
    slot: u32,
    slots: &mut Slots,
    gate: &G,
) -> Result<LineResult, AllocError>
    requires ready { IsFor turn.now who share.old }
    requires slot { slot < 64 }
    requires pages { SlotKnows slot share.old slots.old.pages.items }
    ensures stays { Stays turn.now share.old share.new }
    ensures line { (version : ℕ) → Ends version who (Scan slot) result
        (own share.old) (own share.new) }
    ensures idle { add_of (own share.new) ≡ add_of (own share.old) }
    ensures slots { OnOk result (SlotKnows slot share.new slots.new.pages.items) }
    ensures others { SameBut slot slots.old.pages.items slots.new.pages.items }
    ensures shows { Shows share.old share.new (who, Scan slot) result }
{
    let act = Act::Scan { slot };
    let answer = match steps::look(rt, turn, share, who, alloc, slot, act) {
        Ok(answer) => answer,
        Err(error) => return Err(error),
    };
    match answer {
        Answer::Refused(reply) => Ok(result_of(reply)),
        Answer::Done(blob) => {
            let (root, size) = blob;
            let reader = match taken(alloc, slots, slot, root, size) {
                Ok(reader) => reader,
                Err(error) => return Err(error),
            };
            scan_with(rt, alloc, turn, share, who, slot, reader, slots, gate)
        }
    }
}

// Goes on once the scan has begun: every window has to be known.
fn scan_with<R: Wait, T: Serves, G: Gate>(
    rt: &R,
    alloc: Global,
    turn: &Turn<T>,
    share: &mut Share<T>,
    who: Who,
    slot: u32,
    mut reader: Reader,
    slots: &mut Slots,
    gate: &G,
) -> Result<LineResult, AllocError>
    requires ready { IsFor turn.now who share.old }
    requires slot { slot < 64 }
    requires holds { slot_holds slot (own share.old) ≡ Some (reader.root, reader.size) }
    requires pages { ReaderKnows slot share.old reader }
    ensures stays { Stays turn.now share.old share.new }
    ensures line { (version : ℕ) (start : List CoreEvent)
        → slot_holds slot start ≡ Some (reader.root, reader.size)
        → Gains who (Scan slot) Reading start (own share.old)
        → Ends version who (Scan slot) result start (own share.new) }
    ensures idle { add_of (own share.new) ≡ add_of (own share.old) }
    ensures slots { OnOk result (SlotKnows slot share.new slots.new.pages.items) }
    ensures others { SameBut slot slots.old.pages.items slots.new.pages.items }
    ensures shows { SlotShows slot (reader.root, reader.size) (scan_range reader.size)
        share.old share.new result }
{
    let past = windows(reader.size());
    let found = match know_range(
        rt,
        alloc,
        turn,
        share,
        who,
        slot,
        &mut reader,
        0,
        past,
        gate,
    ) {
        Ok(found) => found,
        Err(error) => return Err(error),
    };
    let size = reader.size();
    slots.put(slot, reader);
    match found {
        Some(result) => Ok(result),
        None => Ok(LineResult::Whole { size }),
    }
}

/// A read line: each window of the range is verified, and the bytes are cut out of them.
pub fn read<R: Wait, T: Serves, G: Gate>(
    rt: &R,
    alloc: Global,
    turn: &Turn<T>,
    share: &mut Share<T>,
    who: Who,
    slot: u32,
    off: u64,
    len: u64,
    slots: &mut Slots,
    gate: &G,
) -> Result<LineResult, AllocError>
    requires ready { IsFor turn.now who share.old }
    requires slot { slot < 64 }
    requires pages { SlotKnows slot share.old slots.old.pages.items }
    requires len { len ≤ 65536 }
    ensures stays { Stays turn.now share.old share.new }
    ensures line { (version : ℕ) → Ends version who (Read slot off len) result
        (own share.old) (own share.new) }
    ensures idle { add_of (own share.new) ≡ add_of (own share.old) }
    ensures slots { OnOk result (SlotKnows slot share.new slots.new.pages.items) }
    ensures others { SameBut slot slots.old.pages.items slots.new.pages.items }
    ensures shows { Shows share.old share.new (who, Read slot off len) result }
{
    let act = Act::Read { slot, off, len };
    let answer = match steps::look(rt, turn, share, who, alloc, slot, act) {
        Ok(answer) => answer,
        Err(error) => return Err(error),
    };
    match answer {
        Answer::Refused(reply) => Ok(result_of(reply)),
        Answer::Done(blob) => {
            let (root, size) = blob;
            let reader = match taken(alloc, slots, slot, root, size) {
                Ok(reader) => reader,
                Err(error) => return Err(error),
            };
            read_with(
                rt, alloc, turn, share, who, slot, off, len, reader, slots, gate,
            )
        }
    }
}

// Goes on once the read has begun: the windows of the range have to be known.
fn read_with<R: Wait, T: Serves, G: Gate>(
    rt: &R,
    alloc: Global,
    turn: &Turn<T>,
    share: &mut Share<T>,
    who: Who,
    slot: u32,
    off: u64,
    len: u64,
    mut reader: Reader,
    slots: &mut Slots,
    gate: &G,
) -> Result<LineResult, AllocError>
    requires ready { IsFor turn.now who share.old }
    requires slot { slot < 64 }
    requires len { len ≤ 65536 }
    requires holds { slot_holds slot (own share.old) ≡ Some (reader.root, reader.size) }
    requires pages { ReaderKnows slot share.old reader }
    ensures stays { Stays turn.now share.old share.new }
    ensures line { (version : ℕ) (start : List CoreEvent)
        → slot_holds slot start ≡ Some (reader.root, reader.size)
        → Gains who (Read slot off len) Reading start (own share.old)
        → Ends version who (Read slot off len) result start (own share.new) }
    ensures idle { add_of (own share.new) ≡ add_of (own share.old) }
    ensures slots { OnOk result (SlotKnows slot share.new slots.new.pages.items) }
    ensures others { SameBut slot slots.old.pages.items slots.new.pages.items }
    ensures shows { SlotShows slot (reader.root, reader.size) (read_range reader.size off len)
        share.old share.new result }
{
    let (first, past) = windows_read(reader.size(), off, len);
    let found = match know_range(
        rt,
        alloc,
        turn,
        share,
        who,
        slot,
        &mut reader,
        first,
        past,
        gate,
    ) {
        Ok(found) => found,
        Err(error) => return Err(error),
    };
    let size = reader.size();
    match found {
        Some(result) => {
            slots.put(slot, reader);
            Ok(result)
        }
        None => {
            let given = bytes_of(alloc, &reader, size, off, len);
            slots.put(slot, reader);
            given
        }
    }
}

// The windows of a read, cut to the size: the first, and the one past the last.
fn windows_read(size: u64, off: u64, len: u64) -> (u64, u64)
    ensures first { result.0 ≡ (read_windows size off len).first }
    ensures past { result.1 ≡ (read_windows size off len).past }
    ensures order { result.0 ≤ result.1 }
    ensures within { result.1 ≤ windows_of size }
{
    let from = off.min(size);
    let to = off.saturating_add(len).min(size);
    if from == to {
        (from / WINDOW_LEN, from / WINDOW_LEN)
    } else {
        (from / WINDOW_LEN, to.div_ceil(WINDOW_LEN))
    }
}

// The bytes of a read, all windows of which are known.
fn bytes_of(
    alloc: Global,
    reader: &Reader,
    size: u64,
    off: u64,
    len: u64,
) -> Result<LineResult, AllocError>
    requires size { size ≡ reader.now.size }
    requires reading { IsReading reader.now }
    requires len { len ≤ 65536 }
    requires known { KnowsBetween reader.now (read_windows reader.now.size off len).first
        (read_windows reader.now.size off len).past }
    ensures bytes { IfOk result
        (λ r. IsBytes (read_of reader.now.size (known_of reader.now) off len) r) }
{
    if size <= off || len == 0 {
        return Ok(LineResult::Bytes(Vec::new(alloc)));
    }
    let fault = match reader.read(alloc, off, len) {
        Ok(bytes) => return Ok(LineResult::Bytes(bytes)),
        Err(fault) => fault,
    };
    match fault {
        ReadFault::Missing { .. } => unreachable!(),
        ReadFault::NoMemory => Err(AllocError),
    }
}

// The slot's reader, where it is of this blob, or one that knows nothing yet.
fn taken(
    alloc: Global,
    slots: &mut Slots,
    slot: u32,
    root: Digest,
    size: u64,
) -> Result<Reader, AllocError>
    requires { slot < 64 }
    ensures named { IfOk result (λ reader. (reader.root ≡ root) × (reader.size ≡ size)) }
    ensures kept { IfOk result (λ reader. IsKept (reader_at slots.old.pages.items slot) reader) }
    ensures others { SameBut slot slots.old.pages.items slots.new.pages.items }
{
    reader_of(alloc, root, size, of_blob(slots.take(slot), root, size))
}

// A reader, where it is of this blob.
fn of_blob(reader: Option<Reader>, root: Digest, size: u64) -> Option<Reader>
    ensures named { IfSome result (λ reader. (reader.root ≡ root) × (reader.size ≡ size)) }
    ensures same { IfSome result (λ found. reader ≡ Some found) }
{
    match reader {
        Some(reader) => {
            if reader.root() == root && reader.size() == size {
                Some(reader)
            } else {
                None
            }
        }
        None => None,
    }
}
