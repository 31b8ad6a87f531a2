//! Metadata that is wrong in one thing, in both versions. The faults are those of an independent reading
//! of the rules.

use crate::base::{Edit, Lost, edited, rest_of};
use bv_txn::SurveyFault;
use bv_txn::SurveyFault::{Bitmap, Node, Overlap, SuperCount, Twice};
use spec_record::NodeFault::{BadLink, Count, Extent, Orphan, Version, Zero};
use spec_record::{FieldName, NodeFault};
use spec_tree::Digest;
use std::alloc::Global;
use std::process::Abort;
use std::test::Fail;

/// What is put over the metadata; the first faults that a survey finds; and which blob isn't read any
/// more, by which bits and counts are wrong too.
#[derive(Clone, Copy, Debug)]
pub struct Row<'a> {
    pub edits: &'a [Edit<'a>],
    pub faults: &'a [SurveyFault],
    pub lost: Lost,
}

/// The blocks of the metadata.
const SUPER: usize = 0;

const BITS: usize = 1;

const NODES: usize = 2;

/// No more nodes.
const NONE: [u8; 4] = [0xff; 4];

/// A survey of the row's metadata finds what the row says.
fn finds<R: Abort>(rt: &R, alloc: Global, version: u32, row: &Row) -> Result<(), Fail> {
    let survey = edited(alloc, version, row.edits)?.survey(alloc)?;
    let mut wanted = Vec::from_slice(alloc, row.faults)?;
    for fault in rest_of(row.lost) {
        wanted.push(*fault)?;
    }
    assert_eq!(rt; survey.faults, wanted, "{version} {row:?}");
    Ok(())
}

pub fn all_find<R: Abort>(rt: &R, alloc: Global, rows: &[Row]) -> Result<(), Fail> {
    for row in rows {
        for version in [1, 2] {
            finds(rt, alloc, version, row)?;
        }
    }
    Ok(())
}

/// A byte of the node map, and those behind it.
pub const fn nodes(at: usize, bytes: &[u8]) -> Edit<'_> {
    Edit {
        block: NODES,
        at,
        bytes,
    }
}

/// The small blob isn't read, and why.
pub const fn small(fault: NodeFault) -> [SurveyFault; 1] {
    [Node { node: 0, fault }]
}

/// The large blob isn't read, and why; so its containers are in no chain.
pub const fn large(fault: NodeFault) -> [SurveyFault; 3] {
    [
        Node { node: 1, fault },
        Node {
            node: 2,
            fault: Orphan,
        },
        Node {
            node: 3,
            fault: Orphan,
        },
    ]
}

#[test]
fn metadata_without_a_fault_has_its_blobs(rt: HostRuntime) -> Result<(), Fail> {
    let alloc = rt.alloc();
    for version in [1, 2] {
        let survey = edited(alloc, version, &[])?.survey(alloc)?;
        assert_eq!(rt; survey.faults.len(), 0);
        assert_eq!(rt; survey.blobs.len(), 2);
        for (blob, (size, extents, nodes)) in survey.blobs.iter().zip([(2, 1, 1), (73_728, 8, 3)]) {
            assert_eq!(rt; blob.size(), size);
            assert_eq!(rt; blob.extents().len(), extents);
            assert_eq!(rt; blob.nodes().len(), nodes);
        }
        let starts = [2, 4, 6, 8, 10, 12, 14, 16];
        for (extent, start) in survey
            .blobs
            .iter()
            .skip(1)
            .flat_map(|b| b.extents())
            .zip(starts)
        {
            assert_eq!(rt; extent.start, start);
        }
    }
    Ok(())
}

#[test]
fn a_count_or_an_extent_that_is_wrong_is_told(rt: HostRuntime) -> Result<(), Fail> {
    let rows = [
        // The extent begins at 0, has no block, ends past the last, has a block more.
        (
            56,
            [0, 0, 0, 0, 0, 0, 1, 0].as_slice(),
            Extent { node: 0, index: 0 },
        ),
        (56, &[1, 0, 0, 0, 0, 0, 0, 0], Extent { node: 0, index: 0 }),
        (56, &[63, 0, 0, 0, 0, 0, 2, 0], Extent { node: 0, index: 0 }),
        (56, &[20, 0, 0, 0, 0, 0, 2, 0], Count { said: 1, found: 2 }),
        // No extent is counted, and one stands there or doesn't; more than blocks are counted.
        (52, &[0, 0], Zero { offset: 56 }),
        (
            52,
            &[0, 0, 0, 0, 0, 0, 0, 0, 0, 0, 0, 0],
            Count { said: 0, found: 1 },
        ),
        (52, &[2, 0], Count { said: 2, found: 1 }),
        // 536,870,912 bytes in 65,793 blocks.
        (
            40,
            &[0, 0, 0, 0x20, 0, 0, 0, 0, 1, 1, 1, 0],
            Count {
                said: 65_793,
                found: 65_535,
            },
        ),
    ];
    let alloc = rt.alloc();
    for (at, bytes, fault) in rows {
        let row = Row {
            edits: &[nodes(at, bytes)],
            faults: &small(fault),
            lost: Lost::Small,
        };
        all_find(&rt, alloc, &[row])?;
    }
    Ok(())
}

#[test]
fn a_chain_that_is_wrong_is_told(rt: HostRuntime) -> Result<(), Fail> {
    let rows = [
        // The inode's link names itself, a free node, one past the last.
        (68, [1, 0, 0, 0].as_slice(), BadLink { node: 1 }),
        (68, &[5, 0, 0, 0], BadLink { node: 1 }),
        (68, &[128, 0, 0, 0], BadLink { node: 1 }),
        // A container's link leads back to it; the last one's leads back, or on to a free node.
        (132, &[2, 0, 0, 0], BadLink { node: 2 }),
        (196, &[2, 0, 0, 0], BadLink { node: 3 }),
        (196, &[5, 0, 0, 0], BadLink { node: 3 }),
        // The first container isn't full; the last has a place too many.
        (140, &[5], Zero { offset: 56 }),
        (204, &[2], Count { said: 2, found: 1 }),
        // The chain ends too early.
        (132, &NONE, BadLink { node: 2 }),
    ];
    let alloc = rt.alloc();
    for (at, bytes, fault) in rows {
        let own = matches!(fault, Zero { .. });
        let faults = if own {
            [
                Node {
                    node: 1,
                    fault: BadLink { node: 1 },
                },
                Node { node: 2, fault },
                Node {
                    node: 3,
                    fault: Orphan,
                },
            ]
        } else {
            large(fault)
        };
        let row = Row {
            edits: &[nodes(at, bytes)],
            faults: &faults,
            lost: Lost::Large,
        };
        all_find(&rt, alloc, &[row])?;
    }
    Ok(())
}

#[test]
fn containers_that_are_not_full_or_of_another_version_are_told(
    rt: HostRuntime,
) -> Result<(), Fail> {
    let alloc = rt.alloc();
    // The last extent of the first container goes to the second, before its own.
    let moved = [
        nodes(140, &[5]),
        nodes(184, &[0; 8]),
        nodes(204, &[2]),
        nodes(208, &[14, 0, 0, 0, 0, 0, 1, 0, 16, 0, 0, 0, 0, 0, 3, 0]),
    ];
    let row = Row {
        edits: &moved,
        faults: &large(Count { said: 5, found: 6 }),
        lost: Lost::Large,
    };
    all_find(&rt, alloc, &[row])?;
    // A container of the other version: in a volume of version 1 it doesn't read.
    let newer = Row {
        edits: &[nodes(130, &[2])],
        faults: &[
            Node {
                node: 1,
                fault: BadLink { node: 1 },
            },
            Node {
                node: 2,
                fault: Version(2),
            },
            Node {
                node: 3,
                fault: Orphan,
            },
        ],
        lost: Lost::Large,
    };
    finds(&rt, alloc, 1, &newer)?;
    let older = Row {
        edits: &[nodes(130, &[1])],
        faults: &large(BadLink { node: 1 }),
        lost: Lost::Large,
    };
    finds(&rt, alloc, 2, &older)
}

#[test]
fn a_node_in_no_chain_or_in_two_is_told(rt: HostRuntime) -> Result<(), Fail> {
    let alloc = rt.alloc();
    // The inode of 16,384 bytes in two extents, whose link names a container of the large blob.
    let mut shared = [0; 64];
    shared[..8].copy_from_slice(&[1, 0, 1, 0, 2, 0, 0, 0]);
    shared[8..40].copy_from_slice(&[0x33; 32]);
    shared[40..64].copy_from_slice(&[
        0, 0x40, 0, 0, 0, 0, 0, 0, 3, 0, 0, 0, 2, 0, 0, 0, 20, 0, 0, 0, 0, 0, 2, 0,
    ]);
    let mut newer = shared;
    newer[2] = 2;
    let faults = [Node {
        node: 4,
        fault: BadLink { node: 4 },
    }];
    for (version, inode) in [(1, shared), (2, newer)] {
        let row = Row {
            edits: &[nodes(256, &inode)],
            faults: &faults,
            lost: Lost::Neither,
        };
        finds(&rt, alloc, version, &row)?;
    }
    // A container of one extent, and one that counts nine: whatever they count, no chain has them.
    let orphan = [Node {
        node: 6,
        fault: Orphan,
    }];
    for count in [1, 9] {
        let container = [
            9, 0, 1, 0, 0xff, 0xff, 0xff, 0xff, 1, 0, 0, 0, count, 0, 0, 0, 30, 0, 0, 0, 0, 0, 1,
        ];
        let row = Row {
            edits: &[nodes(384, &container)],
            faults: &orphan,
            lost: Lost::Neither,
        };
        all_find(&rt, alloc, &[row])?;
    }
    Ok(())
}

#[test]
fn a_block_in_two_extents_is_told_and_counted_once(rt: HostRuntime) -> Result<(), Fail> {
    let less = SuperCount {
        field: FieldName::UsedBlocks,
        said: 12,
        found: 11,
    };
    let alloc = rt.alloc();
    // The small blob lies at a block of the large one; the large one has a block twice.
    for (at, free) in [(56, 1), (144, 4)] {
        let bit = Bitmap {
            block: free,
            says: true,
        };
        let row = Row {
            edits: &[nodes(at, &[2])],
            faults: &[Overlap { block: 2 }, bit, less],
            lost: Lost::Neither,
        };
        all_find(&rt, alloc, &[row])?;
    }
    Ok(())
}

/// The superblock counts this.
fn said(field: FieldName, said: u64, found: u64) -> SurveyFault {
    SuperCount { field, said, found }
}

/// A bit of the bitmap's block says this.
fn bit(block: u64, says: bool) -> SurveyFault {
    Bitmap { block, says }
}

#[test]
fn a_root_a_bit_or_a_count_that_is_wrong_is_told(rt: HostRuntime) -> Result<(), Fail> {
    let root = Digest([0x11; 32]);
    let fault = Zero { offset: 63 };
    let rows = [
        (NODES, 72, [0x11; 32].as_slice(), Twice { root }),
        (NODES, 383, &[7], Node { node: 5, fault }),
        (BITS, 3, &[0x40], bit(30, true)),
        (BITS, 0, &[0x47], bit(4, false)),
        (BITS, 0, &[0x56], bit(0, false)),
        (BITS, 8, &[1], bit(64, true)),
        (BITS, 8191, &[0x80], bit(65_535, true)),
        (SUPER, 64, &[3], said(FieldName::Blobs, 3, 2)),
        (
            SUPER,
            72,
            &[0xff; 8],
            said(FieldName::UsedBlocks, u64::MAX, 12),
        ),
        (SUPER, 80, &[0], said(FieldName::UsedNodes, 0, 4)),
    ];
    let alloc = rt.alloc();
    for (block, at, bytes, fault) in rows {
        let row = Row {
            edits: &[Edit { block, at, bytes }],
            faults: &[fault],
            lost: Lost::Neither,
        };
        all_find(&rt, alloc, &[row])?;
    }
    Ok(())
}
