//! Metadata that is wrong in two things, in both versions: the fault that is tested earlier is told. The
//! faults are those of an independent reading of the rules.

use crate::base::{Edit, Lost};
use crate::surveys::{Row, all_find, large, nodes, small};
use bv_txn::SurveyFault::{Bitmap, Overlap, SuperCount, Twice};
use spec_record::NodeFault::{BadLink, Count, Extent, Flags, Version, Zero};
use spec_record::{FieldName, NodeFault};
use spec_tree::Digest;
use std::test::Fail;

/// Two edits of the node map, each wrong by itself.
type Pair<'a> = [Edit<'a>; 2];

#[test]
fn of_two_faults_of_an_inode_the_earlier_is_told(rt: HostRuntime) -> Result<(), Fail> {
    let rows: [(Pair, NodeFault); 8] = [
        ([nodes(0, &[0x81]), nodes(2, &[7])], Flags(0x81)),
        ([nodes(0, &[0x81]), nodes(54, &[1])], Flags(0x81)),
        ([nodes(2, &[7]), nodes(54, &[1])], Version(7)),
        ([nodes(54, &[1]), nodes(48, &[2])], Zero { offset: 54 }),
        ([nodes(54, &[1]), nodes(55, &[1])], Zero { offset: 54 }),
        // The blocks aren't those of the size, and there are more extents than blocks.
        (
            [nodes(48, &[2]), nodes(52, &[3])],
            Count { said: 2, found: 1 },
        ),
        // There are more extents than blocks, and the first begins at 0.
        (
            [nodes(52, &[2]), nodes(56, &[0])],
            Count { said: 2, found: 1 },
        ),
        // The first extent begins at 0, and a link follows the last node.
        (
            [nodes(56, &[0]), nodes(4, &[5, 0, 0, 0])],
            Extent { node: 0, index: 0 },
        ),
    ];
    for (edits, fault) in rows {
        let row = Row {
            edits: &edits,
            faults: &small(fault),
            lost: Lost::Small,
        };
        all_find(&rt, rt.alloc(), &[row])?;
    }
    Ok(())
}

#[test]
fn of_two_faults_of_a_chain_the_earlier_is_told(rt: HostRuntime) -> Result<(), Fail> {
    let rows: [(Pair, NodeFault); 6] = [
        // The inode's extent, and its link.
        (
            [nodes(120, &[0]), nodes(68, &[5, 0, 0, 0])],
            Extent { node: 1, index: 0 },
        ),
        // The inode's link, and the count of the container that it named.
        (
            [nodes(68, &[5, 0, 0, 0]), nodes(140, &[9])],
            BadLink { node: 1 },
        ),
        // The container's count, and an extent of it.
        (
            [nodes(140, &[9]), nodes(144, &[0])],
            Count { said: 9, found: 6 },
        ),
        // Two of its extents.
        (
            [nodes(176, &[0]), nodes(160, &[0])],
            Extent { node: 2, index: 2 },
        ),
        // An extent of it, and its link.
        (
            [nodes(184, &[0]), nodes(132, &[5, 0, 0, 0])],
            Extent { node: 2, index: 5 },
        ),
        // The last link, and the sum of the lengths.
        (
            [nodes(196, &[5, 0, 0, 0]), nodes(214, &[2])],
            BadLink { node: 3 },
        ),
    ];
    for (edits, fault) in rows {
        let row = Row {
            edits: &edits,
            faults: &large(fault),
            lost: Lost::Large,
        };
        all_find(&rt, rt.alloc(), &[row])?;
    }
    Ok(())
}

#[test]
fn faults_of_the_whole_are_told_in_their_order(rt: HostRuntime) -> Result<(), Fail> {
    // The small blob lies at a block of the large one, and has its root.
    let row = Row {
        edits: &[nodes(56, &[2]), nodes(8, &[0x22; 32])],
        faults: &[
            Overlap { block: 2 },
            Twice {
                root: Digest([0x22; 32]),
            },
            Bitmap {
                block: 1,
                says: true,
            },
            SuperCount {
                field: FieldName::UsedBlocks,
                said: 12,
                found: 11,
            },
        ],
        lost: Lost::Neither,
    };
    all_find(&rt, rt.alloc(), &[row])
}
