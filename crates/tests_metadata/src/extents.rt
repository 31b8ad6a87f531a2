//! How blobs lie in extents, and extents in nodes.

use bv_bytes::Block;
use bv_node::{ChainFault, NodeMap, chain, nodes_for, runs_of};
use spec_record::{Extent, NodeFault};
use std::test::Fail;

#[test]
fn extents_take_an_inode_and_containers_of_six(rt: HostRuntime) {
    for (extents, nodes) in [(0, 1), (1, 1), (2, 2), (7, 2), (8, 3), (65_535, 10_924)] {
        assert_eq!(rt; nodes_for(extents), nodes);
    }
}

#[test]
fn blocks_that_follow_one_another_are_one_extent(rt: HostRuntime) -> Result<(), Fail> {
    let alloc = rt.alloc();
    let extents = runs_of(alloc, &[3, 4, 5, 9])?;
    let wanted = [Extent { start: 3, len: 3 }, Extent { start: 9, len: 1 }];
    assert_eq!(rt; extents.as_slice(), wanted.as_slice());
    assert_eq!(rt; runs_of(alloc, &[])?.len(), 0);
    Ok(())
}

/// The inode of a blob of 57,344 bytes in eight blocks and seven extents, and its container.
const CHAIN: [u8; 128] = [
    0x01, 0x00, 0x01, 0x00, 0x01, 0x00, 0x00, 0x00, 0x44, 0x44, 0x44, 0x44, 0x44, 0x44, 0x44, 0x44,
    0x44, 0x44, 0x44, 0x44, 0x44, 0x44, 0x44, 0x44, 0x44, 0x44, 0x44, 0x44, 0x44, 0x44, 0x44, 0x44,
    0x44, 0x44, 0x44, 0x44, 0x44, 0x44, 0x44, 0x44, 0x00, 0xe0, 0x00, 0x00, 0x00, 0x00, 0x00, 0x00,
    0x08, 0x00, 0x00, 0x00, 0x07, 0x00, 0x00, 0x00, 0x28, 0x00, 0x00, 0x00, 0x00, 0x00, 0x01, 0x00,
    0x09, 0x00, 0x01, 0x00, 0xff, 0xff, 0xff, 0xff, 0x00, 0x00, 0x00, 0x00, 0x06, 0x00, 0x00, 0x00,
    0x04, 0x00, 0x00, 0x00, 0x00, 0x00, 0x01, 0x00, 0x06, 0x00, 0x00, 0x00, 0x00, 0x00, 0x02, 0x00,
    0x14, 0x00, 0x00, 0x00, 0x00, 0x00, 0x01, 0x00, 0x0a, 0x00, 0x00, 0x00, 0x00, 0x00, 0x01, 0x00,
    0x0c, 0x00, 0x00, 0x00, 0x00, 0x00, 0x01, 0x00, 0x3f, 0x00, 0x00, 0x00, 0x00, 0x00, 0x01, 0x00,
];

/// A block of the node map with these nodes alone.
fn node_map() -> [Block; 1] {
    let mut block = [0; 8192];
    block[..128].copy_from_slice(&CHAIN);
    [block]
}

#[test]
fn seven_extents_are_read_in_their_order(rt: HostRuntime) -> Result<(), Fail> {
    let blocks = node_map();
    let nodes = NodeMap::new(&blocks);
    let blob = chain(rt.alloc(), &nodes, 64, 1, 0)?;
    assert_eq!(rt; blob.size(), 57_344);
    assert_eq!(rt; blob.nodes(), [0, 1].as_slice());
    let wanted = [(40, 1), (4, 1), (6, 2), (20, 1), (10, 1), (12, 1), (63, 1)];
    assert_eq!(rt; blob.extents().len(), 7);
    for (extent, (start, len)) in blob.extents().iter().zip(wanted) {
        assert_eq!(rt; *extent, Extent { start, len });
    }
    Ok(())
}

#[test]
fn a_chain_begins_at_an_inode_alone(rt: HostRuntime) {
    let blocks = node_map();
    let nodes = NodeMap::new(&blocks);
    let refused = Some(ChainFault::Node(NodeFault::NotInode));
    for node in [1, 2, 127] {
        assert_eq!(rt; chain(rt.alloc(), &nodes, 64, 1, node).err(), refused);
    }
}
