//! Images that a stop may leave of two blocks after a few events.

use spec_disk::{Block, Event, is_image};
use std::test::Fail;

/// A write of one byte in all places.
fn write(at: u64, fill: u8, ok: bool) -> Event {
    Event::Write {
        at,
        bytes: [fill; 8192],
        ok,
    }
}

/// A block whose first sector has one byte in all places, and whose other sectors have another.
fn torn(first: u8, rest: u8) -> Block {
    let mut block = [rest; 8192];
    for place in 0..512usize {
        block[place] = first;
    }
    block
}

#[test]
fn an_image_has_each_sector_from_the_last_sync_or_from_a_write_since(
    rt: HostRuntime,
) -> Result<(), Fail> {
    let base = [[0u8; 8192]; 2];
    let events = [
        write(0, 1, true),
        Event::Sync { ok: true },
        write(0, 2, false),
        write(0, 3, true),
        Event::Sync { ok: false },
    ];
    let rows = [
        (torn(1, 1), torn(0, 0), true, "as synced"),
        (torn(3, 3), torn(0, 0), true, "as written last"),
        (torn(2, 3), torn(0, 0), true, "a sector of the failed write"),
        (torn(1, 2), torn(0, 0), true, "a sector as synced"),
        (
            torn(0, 1),
            torn(0, 0),
            false,
            "a sector from before the sync",
        ),
        (torn(1, 4), torn(0, 0), false, "sectors that nobody wrote"),
        (torn(1, 1), torn(2, 0), false, "a sector of another block"),
    ];
    for (first, second, wanted, what) in rows {
        assert_eq!(rt;
            is_image(rt.alloc(), &base, &events, &[first, second])?,
            wanted,
            "{what}"
        );
    }
    let longer = [torn(1, 1), torn(0, 0), torn(0, 0)];
    assert!(rt;
        !is_image(rt.alloc(), &base, &events, &longer)?,
        "a block more"
    );
    Ok(())
}
