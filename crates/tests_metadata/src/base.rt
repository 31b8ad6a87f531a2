//! Metadata without a fault, written out by hand from the tables of the format, and what a survey finds
//! once some of its bytes are others.

use bv_bytes::Block;
use bv_layout::check_counts;
use bv_txn::{Meta, SurveyFault};
use spec_record::{FieldName, Geometry};
use std::alloc::Global;
use std::test::Fail;

/// The superblock of 64 data blocks, 128 nodes and 16 journal blocks with two blobs in eleven blocks and
/// four nodes, but its zeros.
const SUPER: [u8; 88] = [
    0x62, 0x6c, 0x6f, 0x62, 0x76, 0x6f, 0x6c, 0x00, 0x70, 0x72, 0x6f, 0x66, 0x69, 0x6c, 0x65, 0x31,
    0x01, 0x00, 0x00, 0x00, 0x00, 0x00, 0x00, 0x00, 0x40, 0x00, 0x00, 0x00, 0x00, 0x00, 0x00, 0x00,
    0x80, 0x00, 0x00, 0x00, 0x00, 0x00, 0x00, 0x00, 0x10, 0x00, 0x00, 0x00, 0x00, 0x00, 0x00, 0x00,
    0x01, 0x00, 0x00, 0x00, 0x00, 0x00, 0x00, 0x00, 0x01, 0x00, 0x00, 0x00, 0x00, 0x00, 0x00, 0x00,
    0x02, 0x00, 0x00, 0x00, 0x00, 0x00, 0x00, 0x00, 0x0c, 0x00, 0x00, 0x00, 0x00, 0x00, 0x00, 0x00,
    0x04, 0x00, 0x00, 0x00, 0x00, 0x00, 0x00, 0x00,
];

/// Blocks 0, 1, 2, 4, 6, 8, 10, 12, 14, 16, 17 and 18.
const BITS: [u8; 3] = [0x57, 0x55, 0x07];

/// Node 0 is the inode of a blob of two bytes in block 1. Node 1 is that of a blob of 73,728 bytes in
/// eight extents, whose containers are nodes 2 and 3.
const NODES: [u8; 256] = [
    0x01, 0x00, 0x01, 0x00, 0xff, 0xff, 0xff, 0xff, 0x11, 0x11, 0x11, 0x11, 0x11, 0x11, 0x11, 0x11,
    0x11, 0x11, 0x11, 0x11, 0x11, 0x11, 0x11, 0x11, 0x11, 0x11, 0x11, 0x11, 0x11, 0x11, 0x11, 0x11,
    0x11, 0x11, 0x11, 0x11, 0x11, 0x11, 0x11, 0x11, 0x02, 0x00, 0x00, 0x00, 0x00, 0x00, 0x00, 0x00,
    0x01, 0x00, 0x00, 0x00, 0x01, 0x00, 0x00, 0x00, 0x01, 0x00, 0x00, 0x00, 0x00, 0x00, 0x01, 0x00,
    0x01, 0x00, 0x01, 0x00, 0x02, 0x00, 0x00, 0x00, 0x22, 0x22, 0x22, 0x22, 0x22, 0x22, 0x22, 0x22,
    0x22, 0x22, 0x22, 0x22, 0x22, 0x22, 0x22, 0x22, 0x22, 0x22, 0x22, 0x22, 0x22, 0x22, 0x22, 0x22,
    0x22, 0x22, 0x22, 0x22, 0x22, 0x22, 0x22, 0x22, 0x00, 0x20, 0x01, 0x00, 0x00, 0x00, 0x00, 0x00,
    0x0a, 0x00, 0x00, 0x00, 0x08, 0x00, 0x00, 0x00, 0x02, 0x00, 0x00, 0x00, 0x00, 0x00, 0x01, 0x00,
    0x09, 0x00, 0x01, 0x00, 0x03, 0x00, 0x00, 0x00, 0x01, 0x00, 0x00, 0x00, 0x06, 0x00, 0x00, 0x00,
    0x04, 0x00, 0x00, 0x00, 0x00, 0x00, 0x01, 0x00, 0x06, 0x00, 0x00, 0x00, 0x00, 0x00, 0x01, 0x00,
    0x08, 0x00, 0x00, 0x00, 0x00, 0x00, 0x01, 0x00, 0x0a, 0x00, 0x00, 0x00, 0x00, 0x00, 0x01, 0x00,
    0x0c, 0x00, 0x00, 0x00, 0x00, 0x00, 0x01, 0x00, 0x0e, 0x00, 0x00, 0x00, 0x00, 0x00, 0x01, 0x00,
    0x09, 0x00, 0x01, 0x00, 0xff, 0xff, 0xff, 0xff, 0x02, 0x00, 0x00, 0x00, 0x01, 0x00, 0x00, 0x00,
    0x10, 0x00, 0x00, 0x00, 0x00, 0x00, 0x03, 0x00, 0x00, 0x00, 0x00, 0x00, 0x00, 0x00, 0x00, 0x00,
    0x00, 0x00, 0x00, 0x00, 0x00, 0x00, 0x00, 0x00, 0x00, 0x00, 0x00, 0x00, 0x00, 0x00, 0x00, 0x00,
    0x00, 0x00, 0x00, 0x00, 0x00, 0x00, 0x00, 0x00, 0x00, 0x00, 0x00, 0x00, 0x00, 0x00, 0x00, 0x00,
];

/// Bytes that are put over others: in the superblock, the bitmap's block or the node map's, from one
/// place on.
#[derive(Clone, Copy, Debug)]
pub struct Edit<'a> {
    pub block: usize,
    pub at: usize,
    pub bytes: &'a [u8],
}

/// A blob that isn't read any more.
#[derive(Clone, Copy, Debug)]
pub enum Lost {
    Neither,
    /// The one at node 0.
    Small,
    /// The one at node 1.
    Large,
}

/// The bits and the counts that are wrong where a blob isn't read.
pub fn rest_of(lost: Lost) -> &'static [SurveyFault] {
    match lost {
        Lost::Neither => &[],
        Lost::Small => &[
            SurveyFault::Bitmap {
                block: 1,
                says: true,
            },
            SurveyFault::SuperCount {
                field: FieldName::Blobs,
                said: 2,
                found: 1,
            },
            SurveyFault::SuperCount {
                field: FieldName::UsedBlocks,
                said: 12,
                found: 11,
            },
            SurveyFault::SuperCount {
                field: FieldName::UsedNodes,
                said: 4,
                found: 3,
            },
        ],
        Lost::Large => &[
            SurveyFault::Bitmap {
                block: 2,
                says: true,
            },
            SurveyFault::Bitmap {
                block: 4,
                says: true,
            },
            SurveyFault::Bitmap {
                block: 6,
                says: true,
            },
            SurveyFault::Bitmap {
                block: 8,
                says: true,
            },
            SurveyFault::Bitmap {
                block: 10,
                says: true,
            },
            SurveyFault::Bitmap {
                block: 12,
                says: true,
            },
            SurveyFault::Bitmap {
                block: 14,
                says: true,
            },
            SurveyFault::Bitmap {
                block: 16,
                says: true,
            },
            SurveyFault::Bitmap {
                block: 17,
                says: true,
            },
            SurveyFault::Bitmap {
                block: 18,
                says: true,
            },
            SurveyFault::SuperCount {
                field: FieldName::Blobs,
                said: 2,
                found: 1,
            },
            SurveyFault::SuperCount {
                field: FieldName::UsedBlocks,
                said: 12,
                found: 2,
            },
            SurveyFault::SuperCount {
                field: FieldName::UsedNodes,
                said: 4,
                found: 1,
            },
        ],
    }
}

/// Puts bytes over those of a block, as far as it goes.
pub fn put(block: &mut Block, at: usize, bytes: &[u8]) {
    for (place, byte) in block.iter_mut().skip(at).zip(bytes) {
        *place = *byte;
    }
}

/// The blocks with their nodes in this version.
fn blocks_of(version: u32) -> [Block; 3] {
    let mut blocks = [[0; 8192]; 3];
    put(&mut blocks[0], 0, &SUPER);
    put(&mut blocks[1], 0, &BITS);
    put(&mut blocks[2], 0, &NODES);
    if version == 2 {
        put(&mut blocks[0], 16, &[2]);
        for node in 0..4 {
            put(&mut blocks[2], 64 * node + 2, &[2]);
        }
    }
    blocks
}

/// These blocks as the metadata of a volume.
pub fn metadata(geometry: Geometry, blocks: Vec<Block>) -> Result<Meta, Fail> {
    if geometry.version < 1 || 2 < geometry.version {
        return Err(Fail::from("the version"));
    }
    match check_counts(&geometry) {
        Ok(()) if blocks.len() as u64 == geometry.meta() => Ok(Meta::new(geometry, blocks)),
        _ => Err(Fail::from("the counts")),
    }
}

/// 64 data blocks, 128 nodes and 16 journal blocks.
const fn geometry(version: u32) -> Geometry {
    Geometry {
        blocks: 64,
        nodes: 128,
        journal: 16,
        version,
    }
}

/// The metadata with these bytes put over its own.
pub fn edited(alloc: Global, version: u32, edits: &[Edit]) -> Result<Meta, Fail> {
    let mut blocks = blocks_of(version);
    for edit in edits {
        if let Some(block) = blocks.get_mut(edit.block) {
            put(block, edit.at, edit.bytes);
        }
    }
    metadata(geometry(version), Vec::from_slice(alloc, &blocks)?)
}

/// The metadata where the highest bit of one byte of a node is turned.
pub fn turned(alloc: Global, version: u32, node: u32, place: usize) -> Result<Meta, Fail> {
    let mut blocks = blocks_of(version);
    let at = (node as usize).saturating_mul(64).saturating_add(place);
    if let Some(byte) = blocks[2].get_mut(at) {
        *byte ^= 0x80;
    }
    metadata(geometry(version), Vec::from_slice(alloc, &blocks)?)
}
