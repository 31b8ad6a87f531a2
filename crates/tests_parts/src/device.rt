//! Runs of the devices in memory with ample memory, and what stops of them leave.

use bv_device::{Block, CallKind, Device, Event, Failed, Lie, LyingDevice, MemDevice};
use std::alloc::Global;
use std::test::Fail;

/// A device of two blocks of zeros with six events: block 0 is written and synced, and then two
/// writes to block 0, of which the first fails, one to block 1, and a sync that fails.
fn torn(alloc: Global) -> Result<MemDevice, Fail> {
    let mut dev = MemDevice::new(alloc, 2)?;
    dev.fail(alloc, CallKind::Write, 2)?;
    dev.fail(alloc, CallKind::Sync, 2)?;
    let _ = put(&mut dev, 0, 1);
    let _ = dev.sync();
    let _ = put(&mut dev, 0, 2);
    let _ = put(&mut dev, 0, 3);
    let _ = put(&mut dev, 1, 4);
    let _ = dev.sync();
    Ok(dev)
}

/// Writes one byte to all places of a block.
fn put<D: Device>(dev: &mut D, at: u64, fill: u8) -> Result<(), Failed> {
    if at < dev.blocks() {
        dev.write(at, &[fill; 8192])
    } else {
        Err(Failed)
    }
}

/// Reads a block; an error where there is none.
fn get<D: Device>(dev: &mut D, at: u64) -> Result<Block, Failed> {
    let mut block = [0xffu8; 8192];
    if at < dev.blocks() {
        dev.read(at, &mut block)?;
        return Ok(block);
    }
    Err(Failed)
}

/// The first bytes of sectors 0, 1 and 15 of a block.
fn sectors(block: &Block) -> [u8; 3] {
    [block[0], block[512], block[7680]]
}

#[test]
fn a_call_fails_where_it_was_named_and_leaves_its_event(rt: HostRuntime) -> Result<(), Fail> {
    let alloc = rt.alloc();
    let mut dev = torn(alloc)?;
    dev.fail(alloc, CallKind::Read, 2)?;
    assert_eq!(rt; get(&mut dev, 0).map(|b| b[8191]), Ok(3));
    assert_eq!(rt; get(&mut dev, 1).map(|b| b[0]), Err(Failed));
    assert_eq!(rt; get(&mut dev, 1).map(|b| b[0]), Ok(4));
    assert_eq!(rt; (dev.calls(), dev.faults(), dev.short()), (6, 3, 0));
    // each event: the block (2 for a sync), its first byte, and whether it was Ok
    let rows = [
        (0, 1, true),
        (2, 0, true),
        (0, 2, false),
        (0, 3, true),
        (1, 4, true),
        (2, 0, false),
    ];
    assert_eq!(rt; dev.trace_len(), 6);
    for (k, row) in rows.iter().enumerate() {
        assert!(rt; (k as u64) < dev.trace_len());
        let told = match dev.event(k as u64) {
            Event::Write { at, bytes, ok } => (*at, bytes[0], *ok),
            Event::Sync { ok } => (2, 0, *ok),
        };
        assert_eq!(rt; told, *row, "event {k}");
    }
    Ok(())
}

#[test]
fn a_stop_leaves_what_the_choice_takes(rt: HostRuntime) -> Result<(), Fail> {
    let alloc = rt.alloc();
    let dev = torn(alloc)?;
    // the events before the stop, the choice, and sectors 0, 1 and 15 of both blocks
    let rows: [(u64, &[u8], [u8; 3], [u8; 3]); 14] = [
        (0, &[255], [0, 0, 0], [0, 0, 0]),
        (1, &[], [0, 0, 0], [0, 0, 0]),
        (1, &[1], [1, 1, 1], [0, 0, 0]),
        (1, &[1, 0], [1, 0, 0], [0, 0, 0]),
        (2, &[0], [1, 1, 1], [0, 0, 0]),
        (3, &[255], [2, 2, 2], [0, 0, 0]),
        (6, &[], [1, 1, 1], [0, 0, 0]),
        (6, &[0], [1, 1, 1], [0, 0, 0]),
        (6, &[1], [2, 2, 2], [4, 4, 4]),
        (6, &[2], [3, 3, 3], [4, 4, 4]),
        (6, &[255], [3, 3, 3], [4, 4, 4]),
        (6, &[1, 2, 0], [2, 3, 1], [0, 0, 0]),
        (
            6,
            &[0, 0, 0, 0, 0, 0, 0, 0, 0, 0, 0, 0, 0, 0, 0, 0, 1, 0],
            [1, 1, 1],
            [4, 0, 0],
        ),
        (
            6,
            &[0, 0, 0, 0, 0, 0, 0, 0, 0, 0, 0, 0, 0, 0, 0, 2, 0],
            [1, 1, 3],
            [0, 0, 0],
        ),
    ];
    for (row, (p, choice, first, second)) in rows.iter().enumerate() {
        assert!(rt; *p <= dev.trace_len());
        let mut left = dev.stop_after(alloc, *p, choice)?;
        assert_eq!(rt;
            get(&mut left, 0).map(|b| sectors(&b)),
            Ok(*first),
            "row {row}"
        );
        assert_eq!(rt;
            get(&mut left, 1).map(|b| sectors(&b)),
            Ok(*second),
            "row {row}"
        );
        assert_eq!(rt; (left.calls(), left.faults()), (0, 0), "row {row}");
    }
    Ok(())
}

#[test]
fn a_device_lies_at_the_named_read_alone(rt: HostRuntime) -> Result<(), Fail> {
    let alloc = rt.alloc();
    let lies = vec![in alloc;
        Lie {
            call: 2,
            bytes: [7; 8192]
        },
        Lie {
            call: 2,
            bytes: [8; 8192]
        },
    ]?;
    let mut dev = LyingDevice::new(alloc, vec![in alloc; [5u8; 8192]; 2]?, lies);
    for wanted in [5, 7, 5] {
        assert_eq!(rt; get(&mut dev, 1).map(|b| b[100]), Ok(wanted));
    }
    assert_eq!(rt; put(&mut dev, 1, 6), Ok(()));
    assert_eq!(rt; dev.sync(), Ok(()));
    assert_eq!(rt; get(&mut dev, 1).map(|b| b[100]), Ok(6));
    assert_eq!(rt; get(&mut dev, 0).map(|b| b[100]), Ok(5));
    assert_eq!(rt; (dev.calls(), dev.faults(), dev.blocks()), (2, 0, 2));
    Ok(())
}
