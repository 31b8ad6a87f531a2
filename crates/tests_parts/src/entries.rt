//! Entries and info blocks byte by byte. The bytes are the tables', written out by hand; zlib gave
//! the checksums.
use bv_bytes::{Block, crc_more, crc32};
use bv_entry::{
    Entry, EntryFault, Info, InfoFault, ReadEntryFault, read_entry, read_info, write_entry,
    write_info,
};
use std::alloc::Global;
use std::test::Fail;

/// All bits of one byte of a number, from its lowest byte on.
const TURNED: [u64; 8] = [
    0xff,
    0xff00,
    0xff_0000,
    0xff00_0000,
    0xff_0000_0000,
    0xff00_0000_0000,
    0xff_0000_0000_0000,
    0xff00_0000_0000_0000,
];

/// The magic of headers and commits as it is stored.
const MAGIC: [u8; 8] = [0x79, 0x72, 0x74, 0x6e, 0x62, 0x6f, 0x6c, 0x62];

/// A block of one byte that begins with these eight.
fn block(front: [u8; 8], rest: u8) -> Block {
    let mut block = [rest; 8192];
    block[..8].copy_from_slice(&front);
    block
}

/// The three blocks of entry 1 with one payload, for metadata block 2, that begins with the magic.
fn escaped() -> [Block; 3] {
    let mut header = block(MAGIC, 0);
    header[8] = 1;
    header[16] = 1;
    header[32] = 1;
    header[40] = 2;
    header[5472] = 1;
    let mut commit = block(MAGIC, 0);
    commit[8] = 1;
    commit[16] = 2;
    commit[32..36].copy_from_slice(&[0x36, 0xfb, 0xf3, 0xb4]);
    [header, block([0; 8], 7), commit]
}

#[test]
fn an_escaped_payload_is_stored_without_the_magic_and_comes_back_whole(
    rt: HostRuntime,
) -> Result<(), Fail> {
    let alloc = rt.alloc();
    let entry = Entry::new(1, vec![in alloc; (2, block(MAGIC, 7))]?);
    let blocks = write_entry(alloc, &entry, 3)?;
    assert!(rt; blocks.as_slice() == escaped().as_slice());
    let read = read_entry(alloc, &blocks, 1, 3).ok().ok_or("an entry")?;
    assert_eq!(rt; read.number(), 1);
    assert!(rt; read.targets() == [(2, block(MAGIC, 7))].as_slice());
    let targets = read.into_targets();
    assert_eq!(rt; targets.len(), 1);
    Ok(())
}

/// The first and the last byte of each row of an entry's blocks, and of the first places.
const EDGES: [usize; 22] = [
    0, 7, 8, 15, 16, 23, 24, 31, 32, 35, 36, 39, 40, 47, 48, 5471, 5472, 5475, 5476, 8187, 8188,
    8191,
];

/// The fault that an entry of a number is refused with.
fn fault_in(alloc: Global, blocks: &[Block], number: u64, meta: u64) -> Option<ReadEntryFault> {
    if blocks.is_empty() || meta < 1 || meta > 679 {
        return None;
    }
    read_entry(alloc, blocks, number, meta).err()
}

/// The row that fails first where all bits of the byte at `offset` of a block of `escaped` are
/// turned; `found` is the checksum of what then stands before the commit.
fn entry_row(block: usize, offset: usize, found: u32) -> EntryFault {
    let wanted = 0xb4f3_fb36;
    let turned = TURNED[offset % 8];
    match (block, offset) {
        (0, 0..8) => EntryFault::Magic,
        (0, 8..16) => EntryFault::Number {
            wanted: 1,
            found: 1 ^ turned,
        },
        (0, 16..24) => EntryFault::Kind { value: 1 ^ turned },
        (0, 32..40) => EntryFault::Count { value: 1 ^ turned },
        (0, 40..5472) => EntryFault::Target {
            index: (offset as u64 - 40) / 8,
        },
        (0, 5472..8188) => EntryFault::Target {
            index: (offset as u64 - 5472) / 4,
        },
        (0, _) => EntryFault::Target { index: 679 },
        (1, 0..8) => EntryFault::Target { index: 0 },
        (1, _) => EntryFault::Checksum { wanted, found },
        (_, 32..36) => EntryFault::Checksum {
            wanted: wanted ^ TURNED[offset - 32] as u32,
            found: wanted,
        },
        _ => EntryFault::Commit,
    }
}

/// The blocks of `escaped` with all bits of one byte turned.
fn turned(block: usize, offset: usize) -> [Block; 3] {
    let mut blocks = escaped();
    if block < 3 && offset < 8192 {
        blocks[block][offset] ^= 0xff;
    }
    blocks
}

#[test]
fn each_row_of_an_entry_has_its_fault_from_its_first_byte_to_its_last(rt: HostRuntime) {
    for block in 0..3usize {
        for offset in EDGES {
            let blocks = turned(block, offset);
            let found = crc_more(crc32(&blocks[0]), &blocks[1]);
            let row = Some(ReadEntryFault::Entry(entry_row(block, offset, found)));
            assert_eq!(rt;
                fault_in(rt.alloc(), &blocks, 1, 3),
                row,
                "byte {offset} of {block}"
            );
        }
    }
}

/// The info block of start 14 and entry 7.
fn info_block() -> Block {
    let mut block = block([0x6c, 0x6e, 0x72, 0x6a, 0x62, 0x6f, 0x6c, 0x62], 0);
    block[8] = 14;
    block[24] = 7;
    block[32..36].copy_from_slice(&[0x57, 0xa7, 0x9a, 0x35]);
    block
}

/// The checksum that an info block has to have.
fn front_sum(block: &Block) -> u32 {
    crc32(&block[..32])
}

/// The row that fails first where all bits of the byte at `offset` are turned, `found` being the
/// checksum of the front then.
fn info_row(offset: usize, found: u32) -> InfoFault {
    let wanted = 0x359a_a757;
    match offset {
        0..8 => InfoFault::Magic,
        8..32 => InfoFault::Checksum { wanted, found },
        32..36 => InfoFault::Checksum {
            wanted: wanted ^ TURNED[offset - 32] as u32,
            found: wanted,
        },
        _ => InfoFault::Zero {
            offset: offset as u64,
        },
    }
}

/// What is read where that checksum is stored in place of the old one, for a byte of the front.
fn mended_row(offset: usize) -> Result<Info, InfoFault> {
    let turned = TURNED[offset % 8];
    match offset {
        0..8 => Err(InfoFault::Magic),
        8..16 => Err(InfoFault::Start { value: 14 ^ turned }),
        16..24 => Err(InfoFault::Zero {
            offset: offset as u64,
        }),
        31 => Err(InfoFault::Number { value: 7 ^ turned }),
        _ => Ok(Info {
            start: 14,
            number: 7 ^ turned,
        }),
    }
}

#[test]
fn each_byte_of_an_info_block_has_its_row(rt: HostRuntime) {
    let info = Info {
        start: 14,
        number: 7,
    };
    assert!(rt; write_info(&info) == info_block());
    assert_eq!(rt; read_info(&info_block(), 15), Ok(info));
    assert_eq!(rt;
        read_info(&info_block(), 14),
        Err(InfoFault::Start { value: 14 })
    );
    let last = Info {
        start: 0,
        number: 1 << 62,
    };
    assert_eq!(rt; read_info(&write_info(&last), 1), Ok(last));
    let mut bytes = info_block();
    for offset in 0..8192usize {
        let whole = bytes[offset];
        bytes[offset] = whole ^ 0xff;
        let found = front_sum(&bytes);
        assert_eq!(rt;
            read_info(&bytes, 15),
            Err(info_row(offset, found)),
            "byte {offset}"
        );
        if offset < 32 {
            let mut mended = bytes;
            mended[32..36].copy_from_slice(&found.to_le_bytes());
            assert_eq!(rt;
                read_info(&mended, 15),
                mended_row(offset),
                "byte {offset} mended"
            );
        }
        bytes[offset] = whole;
    }
}
