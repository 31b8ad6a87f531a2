//! The value of a superblock.

use crate::Geometry;

/// What a superblock says of its volume.
///
/// Its table stands in `specs/Superblock.antt`.
#[derive(Clone, Copy, Debug, PartialEq, Eq)]
pub struct Super {
    /// The counts of the volume.
    pub geometry: Geometry,
    /// The inodes in use.
    pub blobs: u64,
    /// The bits of the bitmap that are set, that of data block 0 among them.
    pub used_blocks: u64,
    /// The nodes in use: inodes and containers.
    pub used_nodes: u64,
}
