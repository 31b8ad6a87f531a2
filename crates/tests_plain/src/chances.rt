//! Entries by chance, in whole images by hand: the entry that wraps around the ring.

use crate::images::{info, journaled, put_at, set};
use plain_crash::is_no_chance;
use spec_disk::{Block, Event};
use std::alloc::{AllocError, Global};
use std::test::Fail;

/// Where the entry's blocks stand: its header, three payloads and its commit.
const ENTRY: [usize; 5] = [17, 18, 4, 5, 6];

/// The image with zeros in place of the entry's blocks.
fn without_entry(alloc: Global) -> Result<Vec<Block>, AllocError> {
    let mut image = journaled(alloc)?;
    for at in ENTRY {
        set(&mut image, at, &[0; 8192]);
    }
    Ok(image)
}

/// The image with the entry one slot earlier. The info's checksum is zlib's.
fn with_entry_moved(alloc: Global) -> Result<Vec<Block>, AllocError> {
    let whole = journaled(alloc)?;
    let mut image = without_entry(alloc)?;
    set(&mut image, 3, &info(12, 7, 0xeca1_6b58));
    for (from, to) in ENTRY.into_iter().zip([16, 17, 18, 4, 5]) {
        if let Some(block) = whole.get(from) {
            set(&mut image, to, block);
        }
    }
    Ok(image)
}

/// Writes of the entry's blocks, as an image has them.
fn writes(alloc: Global, image: &[Block], ok: bool) -> Result<Vec<Event>, AllocError> {
    let mut events = Vec::new(alloc);
    for at in ENTRY {
        if let Some(block) = image.get(at) {
            events.push(Event::Write {
                at: at as u64,
                bytes: *block,
                ok,
            })?;
        }
    }
    Ok(events)
}

#[test]
fn an_entry_is_by_chance_where_it_was_neither_synced_nor_written_last(
    rt: HostRuntime,
) -> Result<(), Fail> {
    let whole = journaled(rt.alloc())?;
    let before = without_entry(rt.alloc())?;
    let moved = with_entry_moved(rt.alloc())?;
    let mut bare = journaled(rt.alloc())?;
    put_at(&mut bare, 0, 0, &[0]);
    let none = Vec::new(rt.alloc());
    let written = writes(rt.alloc(), &whole, true)?;
    let failed = writes(rt.alloc(), &whole, false)?;
    let mut torn = writes(rt.alloc(), &whole, true)?;
    torn.push(Event::Write {
        at: 5,
        bytes: [1; 8192],
        ok: true,
    })?;
    let rows = [
        ("as synced", &whole, &none, &whole, true),
        ("synced, then written over", &whole, &torn, &whole, true),
        ("written last", &before, &written, &whole, true),
        ("by failed writes", &before, &failed, &whole, true),
        ("no entry yet", &before, &written, &before, true),
        ("no superblock", &before, &none, &bare, true),
        ("written by nobody", &before, &none, &whole, false),
        ("a payload written over", &before, &torn, &whole, false),
        ("synced at another slot", &moved, &none, &whole, false),
        ("as synced there", &moved, &none, &moved, true),
    ];
    for (name, base, events, image, wanted) in rows {
        assert_eq!(rt;
            is_no_chance(rt.alloc(), base, events, image)?,
            wanted,
            "{name}"
        );
    }
    Ok(())
}
