//! Nodes that all are containers of one another: a survey ends, and tells each of them.

use crate::base::{metadata, put};
use bv_bytes::Block;
use bv_txn::SurveyFault;
use spec_record::NodeFault::{Count, Orphan};
use spec_record::{Geometry, NodeFault};
use std::alloc::Global;
use std::process::Abort;
use std::test::Fail;

/// Six extents of block 1 alone.
const EXTENTS: [u8; 48] = [
    0x01, 0x00, 0x00, 0x00, 0x00, 0x00, 0x01, 0x00, 0x01, 0x00, 0x00, 0x00, 0x00, 0x00, 0x01, 0x00,
    0x01, 0x00, 0x00, 0x00, 0x00, 0x00, 0x01, 0x00, 0x01, 0x00, 0x00, 0x00, 0x00, 0x00, 0x01, 0x00,
    0x01, 0x00, 0x00, 0x00, 0x00, 0x00, 0x01, 0x00, 0x01, 0x00, 0x00, 0x00, 0x00, 0x00, 0x01, 0x00,
];

/// The inode of a blob of 65,279 data blocks in as many extents as its 65,535 blocks, from its
/// size on.
const INODE: [u8; 24] = [
    0x00, 0xe0, 0xdf, 0x1f, 0x00, 0x00, 0x00, 0x00, 0xff, 0xff, 0x00, 0x00, 0xff, 0xff, 0x00, 0x00,
    0x01, 0x00, 0x00, 0x00, 0x00, 0x00, 0x01, 0x00,
];

/// Metadata whose nodes are full containers, each between the two beside it, the last and the first
/// too. No bit but that of block 0 is set.
fn ring(alloc: Global, version: u8, nodes: u32) -> Result<Vec<Block>, Fail> {
    let mut blocks = vec![in alloc; [0u8; 8192]; 2 + nodes as usize / 128]?;
    let last = nodes.saturating_sub(1);
    for node in 0..nodes {
        let next = if node == last { 0 } else { node + 1 };
        let [n0, n1, n2, n3] = next.to_le_bytes();
        let [p0, p1, p2, p3] = (if node == 0 { last } else { node - 1 }).to_le_bytes();
        let head = [9, 0, version, 0, n0, n1, n2, n3, p0, p1, p2, p3, 6, 0, 0, 0];
        if let Some(block) = blocks.get_mut(2 + node as usize / 128) {
            let place = 64 * (node as usize % 128);
            put(block, place, &head);
            put(block, place + 16, &EXTENTS);
        }
    }
    if let Some(first) = blocks.get_mut(0) {
        put(first, 72, &[1]);
    }
    if let Some(bits) = blocks.get_mut(1) {
        put(bits, 0, &[1]);
    }
    Ok(blocks)
}

/// A survey of these blocks finds this fault of node 0, and that each other node is in no chain.
fn finds_orphans<R: Abort>(
    rt: &R,
    alloc: Global,
    geometry: Geometry,
    blocks: Vec<Block>,
    first: NodeFault,
) -> Result<(), Fail> {
    assert!(rt; geometry.nodes <= 65_536);
    let nodes = geometry.nodes as u32;
    let survey = metadata(geometry, blocks)?.survey(alloc)?;
    assert_eq!(rt; survey.blobs.len(), 0);
    assert_eq!(rt; survey.faults.len(), nodes as usize);
    let mut wanted = first;
    for (found, node) in survey.faults.iter().zip(0..nodes) {
        assert_eq!(rt;
            *found,
            SurveyFault::Node {
                node,
                fault: wanted
            }
        );
        wanted = Orphan;
    }
    Ok(())
}

#[test]
fn containers_of_one_another_are_told_each(rt: HostRuntime) -> Result<(), Fail> {
    let alloc = rt.alloc();
    for (version, nodes, journal) in [(1u8, 32_768u32, 261), (2, 65_536, 517)] {
        let geometry = Geometry {
            blocks: 64,
            nodes: u64::from(nodes),
            journal,
            version: u32::from(version),
        };
        finds_orphans(&rt, alloc, geometry, ring(alloc, version, nodes)?, Orphan)?;
    }
    Ok(())
}

#[test]
fn a_chain_into_such_containers_ends_where_its_count_does(rt: HostRuntime) -> Result<(), Fail> {
    let alloc = rt.alloc();
    let mut blocks = ring(alloc, 1, 32_768)?;
    if let Some(nodes) = blocks.get_mut(2) {
        put(nodes, 0, &[1]);
        put(nodes, 8, &[0; 32]);
        put(nodes, 40, &INODE);
    }
    let geometry = Geometry {
        blocks: 64,
        nodes: 32_768,
        journal: 261,
        version: 1,
    };
    // 65,534 extents behind the first fill 10,922 containers, and two more are in the next.
    let fault = Count { said: 6, found: 2 };
    finds_orphans(&rt, alloc, geometry, blocks, fault)
}
