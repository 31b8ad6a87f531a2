//! A superblock byte by byte, and counts about their limits. The bytes are the table's, written out
//! by hand.
use bv_bytes::Block;
use bv_layout::{FieldName, Geometry, Super, SuperFault, read_super, write_super};

/// The superblock of 64 data blocks, 128 nodes and 16 journal blocks with one blob, but its zeros.
const FRONT: [u8; 88] = [
    0x62, 0x6c, 0x6f, 0x62, 0x76, 0x6f, 0x6c, 0x00, 0x70, 0x72, 0x6f, 0x66, 0x69, 0x6c, 0x65, 0x31,
    0x01, 0x00, 0x00, 0x00, 0x00, 0x00, 0x00, 0x00, 0x40, 0x00, 0x00, 0x00, 0x00, 0x00, 0x00, 0x00,
    0x80, 0x00, 0x00, 0x00, 0x00, 0x00, 0x00, 0x00, 0x10, 0x00, 0x00, 0x00, 0x00, 0x00, 0x00, 0x00,
    0x01, 0x00, 0x00, 0x00, 0x00, 0x00, 0x00, 0x00, 0x01, 0x00, 0x00, 0x00, 0x00, 0x00, 0x00, 0x00,
    0x01, 0x00, 0x00, 0x00, 0x00, 0x00, 0x00, 0x00, 0x02, 0x00, 0x00, 0x00, 0x00, 0x00, 0x00, 0x00,
    0x01, 0x00, 0x00, 0x00, 0x00, 0x00, 0x00, 0x00,
];

fn block() -> Block {
    let mut block = [0; 8192];
    block[..88].copy_from_slice(&FRONT);
    block
}

fn geometry(version: u32, blocks: u64, nodes: u64, journal: u64) -> Geometry {
    Geometry {
        blocks,
        nodes,
        journal,
        version,
    }
}

#[test]
fn a_superblock_has_the_bytes_of_its_table_and_names_its_regions(rt: HostRuntime) {
    let geometry = Geometry {
        blocks: 64,
        nodes: 128,
        journal: 16,
        version: 1,
    };
    let sup = Super {
        geometry,
        blobs: 1,
        used_blocks: 2,
        used_nodes: 1,
    };
    assert!(rt; write_super(&sup) == block());
    assert_eq!(rt; read_super(&block(), 83), Ok(sup));
    assert_eq!(rt;
        [geometry.meta(), geometry.info_at(), geometry.total()],
        [3, 3, 83]
    );
    assert_eq!(rt;
        [
            geometry.slot_at(0),
            geometry.slot_at(14),
            geometry.block_at(0)
        ],
        [4, 18, 19]
    );
    let longer = Geometry {
        blocks: 65_537,
        nodes: 65_536,
        journal: 518,
        version: 2,
    };
    assert_eq!(rt;
        [
            longer.bitmap(),
            longer.node_map(),
            longer.meta(),
            longer.ring()
        ],
        [2, 512, 515, 517]
    );
}

/// All bits of one byte of a number, from its lowest byte on.
const TURNED: [u64; 8] = [
    0xff,
    0xff00,
    0xff_0000,
    0xff00_0000,
    0xff_0000_0000,
    0xff00_0000_0000,
    0xff_0000_0000_0000,
    0xff00_0000_0000_0000,
];

/// The row of the table that fails first, on a device of 83 blocks, where all bits of the byte at
/// `offset` are turned.
fn row_at(offset: usize) -> SuperFault {
    let counts = [
        (FieldName::Blocks, 64),
        (FieldName::Nodes, 128),
        (FieldName::Journal, 16),
        (FieldName::BitmapBlocks, 1),
        (FieldName::NodeBlocks, 1),
        (FieldName::Blobs, 1),
        (FieldName::UsedBlocks, 2),
        (FieldName::UsedNodes, 1),
    ];
    match offset {
        0..16 => SuperFault::Magic,
        16..20 => SuperFault::Version(1 ^ TURNED[offset - 16] as u32),
        24..88 => {
            let (field, count) = counts[offset / 8 - 3];
            let value = count ^ TURNED[offset % 8];
            let may_grow = field == FieldName::Blocks || field == FieldName::Journal;
            if may_grow && value <= 65_536 {
                let wanted = 83u64.wrapping_sub(count).wrapping_add(value);
                return SuperFault::ShortDevice { wanted, has: 83 };
            }
            SuperFault::Counts { field, value }
        }
        _ => SuperFault::Zero {
            offset: offset as u64,
        },
    }
}

#[test]
fn each_byte_of_a_superblock_has_its_row(rt: HostRuntime) {
    let mut bytes = block();
    for offset in 0..8192usize {
        let whole = bytes[offset];
        bytes[offset] = whole ^ 0xff;
        assert_eq!(rt;
            read_super(&bytes, 83),
            Err(row_at(offset)),
            "byte {offset}"
        );
        bytes[offset] = whole;
    }
}
