//! Readers that share windows, and the readers that are kept.

ghost use Rattle.std.specs.Prelude.{All};
ghost use Rattle.bv_pager.specs.Reading.{FitsIn};

use crate::blobs::{fits, honest, seq, with_one};
use crate::rows::{BLOCK_3, CHANGED_3};
use bv_cache::Kept;
use bv_merkle::{Digest, root, windows};
use bv_pager::{LoadFault, Reader, Shown};
use bv_proof::{Exhibit, Mismatch, RawWindow, VerifiedWindow, exhibit, verify};
use std::alloc::{AllocError, Global};
use std::sync::Arc;
use std::test::Fail;
use std::thread;
use std::thread::Threads;

/// How many readers are kept, and one more.
const MANY: u8 = 65;

/// Verifies a window that fits.
fn verified(name: Digest, size: u64, raw: RawWindow) -> Option<VerifiedWindow> {
    if !fits(size, &raw) {
        return None;
    }
    verify(name, size, raw).ok()
}

/// What two windows of one place exhibit.
fn exhibit_of(
    alloc: Global,
    a: &VerifiedWindow,
    b: &VerifiedWindow,
) -> Result<Option<Exhibit>, AllocError> {
    if a.name() != b.name() || a.size() != b.size() || a.window() != b.window() {
        return Ok(None);
    }
    exhibit(alloc, a, b)
}

/// Has a reader load a window that fits.
fn load(alloc: Global, reader: &mut Reader, raw: RawWindow) -> Option<Result<(), LoadFault>> {
    if !fits(reader.size(), &raw) {
        return None;
    }
    Some(reader.load(alloc, raw))
}

/// Has a reader load a window that was lent.
fn load_lent(
    alloc: Global,
    reader: &mut Reader,
    raw: &mut Option<RawWindow>,
) -> Option<Result<(), LoadFault>> {
    load(alloc, reader, raw.take()?)
}

/// Two readers of one blob that each load a window, on two threads.
fn load_twice<R: Threads + Sync>(
    rt: &R,
    alloc: Global,
    first: &mut Reader,
    second: &mut Reader,
    raws: (RawWindow, RawWindow),
) -> [Option<Result<(), LoadFault>>; 2] {
    let mut one = Some(raws.0);
    let mut other = Some(raws.1);
    let (front, back) = thread::join_mut(
        rt,
        &mut || load_lent(alloc, first, &mut one),
        &mut || load_lent(alloc, second, &mut other),
    );
    [front, back]
}

/// Has a reader load windows that fit by one call.
fn load_both<R: Threads + Sync>(
    rt: &R,
    alloc: Global,
    reader: &mut Reader,
    first: RawWindow,
    second: RawWindow,
) -> Result<Result<(), LoadFault>, AllocError> {
    let size = reader.size();
    let raws = with_one(size, Vec::new(alloc), first)?;
    let raws = with_one(size, raws, second)?;
    Ok(load_all(rt, alloc, reader, raws))
}

/// Has it load these windows.
fn load_all<R: Threads + Sync>(
    rt: &R,
    alloc: Global,
    reader: &mut Reader,
    raws: Vec<RawWindow>,
) -> Result<(), LoadFault>
    requires { All (FitsIn reader.old.size) raws.items }
{
    reader.load_many(rt, alloc, raws)
}

/// Whether a reader knows a window.
fn knows(reader: &Reader, window: u64) -> bool {
    window < windows(reader.size()) && reader.hit(window).is_some()
}

/// Two readers of a blob that share its windows.
fn two_readers(alloc: Global, name: Digest, size: u64) -> Result<(Reader, Reader), AllocError> {
    let shown = Shown::new(alloc, name, size)?;
    let first = Reader::new(alloc, Arc::try_clone(&shown)?)?;
    let second = Reader::new(alloc, shown)?;
    Ok((first, second))
}

/// Has readers of so many names be kept, each of no bytes.
fn keep_many(alloc: Global, kept: &mut Kept, count: u8) -> Result<(), AllocError> {
    for k in 0..count {
        let shown = Shown::new(alloc, Digest([k; 32]), 0)?;
        let reader = Reader::new(alloc, shown)?;
        kept.keep(reader.root(), reader)?;
    }
    Ok(())
}

#[test]
fn two_honest_windows_exhibit_nothing(rt: HostRuntime) -> Result<(), Fail> {
    let bytes = seq(rt.alloc(), 73_728)?;
    let name = root(&bytes);
    let first = honest(rt.alloc(), &bytes, 1)?.expect(&rt, "a window");
    let second = honest(rt.alloc(), &bytes, 1)?.expect(&rt, "a window");
    let first = verified(name, 73_728, first).expect(&rt, "a page");
    let second = verified(name, 73_728, second).expect(&rt, "a page");
    assert_eq!(rt; first.bytes().len(), 8192);
    assert!(rt; exhibit_of(rt.alloc(), &first, &second)?.is_none());
    Ok(())
}

#[test]
fn two_readers_of_one_blob_give_the_same_bytes(rt: HostRuntime) -> Result<(), Fail> {
    let bytes = seq(rt.alloc(), 131_072)?;
    let (mut first, mut second) = two_readers(rt.alloc(), root(&bytes), 131_072)?;
    let raw = honest(rt.alloc(), &bytes, 0)?.expect(&rt, "a window");
    assert_eq!(rt; load(rt.alloc(), &mut first, raw), Some(Ok(())));
    assert!(rt; second.read(rt.alloc(), 0, 65_536).is_err());
    let raw = honest(rt.alloc(), &bytes, 0)?.expect(&rt, "a window");
    assert_eq!(rt; load(rt.alloc(), &mut second, raw), Some(Ok(())));
    let one = first.read(rt.alloc(), 0, 65_536).ok().expect(&rt, "bytes");
    let other = second.read(rt.alloc(), 0, 65_536).ok().expect(&rt, "bytes");
    assert!(rt; one == other);
    assert!(rt; one.len() == 65_536 && bytes.starts_with(&one));
    Ok(())
}

#[test]
fn two_threads_may_load_one_window_at_once(rt: HostRuntime) -> Result<(), Fail> {
    let bytes = seq(rt.alloc(), 131_072)?;
    for window in 0..2 {
        let (mut first, mut second) = two_readers(rt.alloc(), root(&bytes), 131_072)?;
        let one = honest(rt.alloc(), &bytes, window)?.expect(&rt, "a window");
        let other = honest(rt.alloc(), &bytes, window)?.expect(&rt, "a window");
        let answers = load_twice(&rt, rt.alloc(), &mut first, &mut second, (one, other));
        assert_eq!(rt; answers, [Some(Ok(())), Some(Ok(()))]);
        let from = window * 65_536;
        let one = first
            .read(rt.alloc(), from, 65_536)
            .ok()
            .expect(&rt, "bytes");
        let other = second
            .read(rt.alloc(), from, 65_536)
            .ok()
            .expect(&rt, "bytes");
        assert!(rt; one.len() == 65_536 && one == other);
    }
    Ok(())
}

#[test]
fn the_first_mismatch_of_many_windows_is_told(rt: HostRuntime) -> Result<(), Fail> {
    let bytes = vec![in rt.alloc(); 0x41u8; 131_072]?;
    let shown = Shown::new(rt.alloc(), root(&bytes), 131_072)?;
    let mut reader = Reader::new(rt.alloc(), shown)?;
    let mut raw = honest(rt.alloc(), &bytes, 0)?.expect(&rt, "a window");
    if let Some(byte) = raw.bytes.get_mut(24_576) {
        *byte = 0x40;
    }
    let second = honest(rt.alloc(), &bytes, 1)?.expect(&rt, "a window");
    let wanted = Mismatch {
        level: 0,
        offset: 24_576,
        wanted: BLOCK_3,
        found: CHANGED_3,
    };
    let answer = load_both(&rt, rt.alloc(), &mut reader, second, raw)?;
    assert_eq!(rt; answer, Err(LoadFault::Mismatch(wanted)));
    assert!(rt; knows(&reader, 1));
    assert!(rt; !knows(&reader, 0));
    Ok(())
}

#[test]
fn of_65_kept_readers_the_first_is_gone(rt: HostRuntime) -> Result<(), Fail> {
    let mut kept = Kept::new(rt.alloc())?;
    keep_many(rt.alloc(), &mut kept, MANY)?;
    assert_eq!(rt; kept.len(), 64);
    assert!(rt; kept.reuse(Digest([0; 32])).is_none());
    assert!(rt; kept.reuse(Digest([1; 32])).is_some());
    Ok(())
}
