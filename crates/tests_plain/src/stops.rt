//! Images of volumes that `format` makes, with a blob that is put in by hand, against histories
//! whose answers are worked out by hand. The root of the blob without bytes is hashlib's.

use bv_device::{Block, Device, MemDevice};
use bv_format::format;
use bv_model::History;
use plain_core::is_legal;
use plain_crash::{holds_prefix, is_left_by_format};
use spec_core::{Act, CoreEvent, Reply, Setting, Who};
use spec_record::Geometry;
use spec_tree::Digest;
use std::alloc::{AllocError, Global};
use std::test::Fail;

/// The root of the blob without bytes.
const EMPTY: Digest = Digest([
    0x15, 0xec, 0x7b, 0xf0, 0xb5, 0x07, 0x32, 0xb4, 0x9f, 0x82, 0x28, 0xe0, 0x7d, 0x24, 0x36, 0x53,
    0x38, 0xf9, 0xe3, 0xab, 0x99, 0x4b, 0x00, 0xaf, 0x08, 0xe5, 0xa3, 0xbf, 0xfe, 0x55, 0xfd, 0x8b,
]);

/// A name that no bytes at hand have.
const OTHER: Digest = Digest([1; 32]);

/// The geometry of the volumes. It takes 83 blocks.
const GEOMETRY: Geometry = Geometry {
    blocks: 64,
    nodes: 128,
    journal: 16,
    version: 1,
};

/// The act, reply and calls of an event.
type Told = (Act, Reply, u64);

const BEGIN: Told = (
    Act::Begin {
        root: EMPTY,
        size: 0,
    },
    Reply::Granted,
    0,
);

const ADMIT: Told = (Act::Admit { root: EMPTY }, Reply::Admitted, 0);

const SETTLE: Told = (Act::Settle { root: EMPTY }, Reply::Published, 3);

/// The blob without bytes is added.
const ADDED: [Told; 3] = [BEGIN, ADMIT, SETTLE];

/// The same, and a sync.
const SYNCED: [Told; 4] = [BEGIN, ADMIT, SETTLE, (Act::Sync, Reply::Synced, 5)];

/// Two blobs are unlinked, and one sync purges both.
const PURGED: [Told; 3] = [
    (Act::Unlink { root: OTHER }, Reply::Unlinked, 0),
    (Act::Unlink { root: EMPTY }, Reply::Unlinked, 0),
    (Act::Sync, Reply::Synced, 2),
];

/// The opening, the events, after how many calls, the image's blob, and whether it holds.
struct Row(
    &'static [Digest],
    &'static [Told],
    u64,
    Option<Digest>,
    bool,
);

const ROWS: [Row; 13] = [
    Row(&[], &[], 0, None, true),
    Row(&[], &[], 0, Some(EMPTY), false),
    Row(&[EMPTY], &[], 0, None, false),
    Row(&[EMPTY], &[], 0, Some(EMPTY), true),
    Row(&[OTHER], &[], 0, Some(OTHER), false),
    Row(&[], &ADDED, 0, Some(EMPTY), false),
    Row(&[], &ADDED, 3, None, true),
    Row(&[], &ADDED, 3, Some(EMPTY), true),
    Row(&[], &SYNCED, 4, None, true),
    Row(&[], &SYNCED, 5, None, false),
    Row(&[], &SYNCED, 5, Some(EMPTY), true),
    Row(&[OTHER, EMPTY], &PURGED, 1, None, true),
    Row(&[OTHER, EMPTY], &PURGED, 1, Some(EMPTY), false),
];

/// The history of a mount that began with these blobs, each without bytes.
fn history_of(alloc: Global, opening: &[Digest], events: &[Told]) -> Result<History, AllocError> {
    let setting = Setting {
        blocks: GEOMETRY.blocks,
        nodes: GEOMETRY.nodes,
        version: GEOMETRY.version,
    };
    let who = Who {
        session: 0,
        line: 1,
    };
    let mut blobs = Vec::new(alloc);
    for root in opening {
        blobs.push((*root, 0, 1))?;
    }
    let mut history = History::new(alloc, setting, blobs);
    for (act, reply, calls) in events {
        history.reserve(alloc, 1)?;
        history.note(CoreEvent {
            who,
            act: *act,
            reply: *reply,
            calls: *calls,
        });
    }
    Ok(history)
}

/// The blocks that a device has now.
fn blocks_of(alloc: Global, dev: &mut MemDevice) -> Result<Vec<Block>, AllocError> {
    let mut blocks = Vec::new(alloc);
    for at in 0..83 {
        let mut block = [0; 8192];
        if at < dev.blocks() && dev.read(at, &mut block).is_ok() {
            blocks.push(block)?;
        }
    }
    Ok(blocks)
}

/// Writes bytes at an offset of a block of an image.
fn put(image: &mut [Block], at: usize, offset: usize, bytes: &[u8]) {
    if at < image.len() && offset <= 8192 && bytes.len() <= 8192 - offset {
        image[at][offset..offset + bytes.len()].copy_from_slice(bytes);
    }
}

/// The image of a new volume, with a blob without bytes of this name, where one is given.
fn image_with(alloc: Global, root: Option<Digest>) -> Result<Vec<Block>, AllocError> {
    let mut dev = MemDevice::new(alloc, 83)?;
    // it fails only for want of memory for the device's trace
    format(&mut dev, GEOMETRY).map_err(|_| AllocError)?;
    let mut image = blocks_of(alloc, &mut dev)?;
    if let Some(root) = root {
        put(&mut image, 0, 64, &[1]);
        put(&mut image, 0, 80, &[1]);
        put(&mut image, 2, 0, &[1, 0, 1, 0, 0xff, 0xff, 0xff, 0xff]);
        put(&mut image, 2, 8, &root.0);
    }
    Ok(image)
}

/// Whether an image holds what a stop after so many calls may leave; none where the history isn't
/// legal.
fn holds(
    alloc: Global,
    history: &History,
    calls: u64,
    image: &[Block],
) -> Result<Option<bool>, AllocError> {
    if !is_legal(alloc, history, 1)? {
        return Ok(None);
    }
    Ok(Some(holds_prefix(alloc, history, calls, image)?))
}

#[test]
fn an_image_holds_what_was_durable_and_at_most_what_was_logged(
    rt: HostRuntime,
) -> Result<(), Fail> {
    let alloc = rt.alloc();
    for (at, Row(opening, events, calls, root, wanted)) in ROWS.iter().enumerate() {
        let history = history_of(alloc, opening, events)?;
        let image = image_with(alloc, *root)?;
        assert_eq!(rt;
            holds(alloc, &history, *calls, &image)?,
            Some(*wanted),
            "row {at}"
        );
    }
    Ok(())
}

#[test]
fn a_stop_within_a_format_leaves_the_old_head_or_none_or_the_new_volume(
    rt: HostRuntime,
) -> Result<(), Fail> {
    let alloc = rt.alloc();
    let base = vec![in alloc; [0xaau8; 8192]; 83]?;
    let mut dev = MemDevice::from_blocks(alloc, base.clone()?);
    assert_eq!(rt; format(&mut dev, GEOMETRY), Ok(()));
    let mut events = Vec::new(alloc);
    for stop in 0..24 {
        assert!(rt; stop <= dev.trace_len());
        let mut left = dev.stop_after(alloc, stop, &[255])?;
        let mut image = blocks_of(alloc, &mut left)?;
        assert!(rt;
            is_left_by_format(alloc, &base, &[], &events, &GEOMETRY, &image)?,
            "{stop}"
        );
        put(&mut image, 0, 17, &[0x55]);
        assert!(rt;
            !is_left_by_format(alloc, &base, &[], &events, &GEOMETRY, &image)?,
            "{stop}"
        );
        if stop < dev.trace_len() {
            events.push(*dev.event(stop))?;
        }
    }
    assert_eq!(rt; events.len(), 23);
    assert!(rt; !is_left_by_format(alloc, &base, &[], &events, &GEOMETRY, &base)?);
    Ok(())
}
