//! The node that begins a blob.

use crate::Extent;
use spec_tree::Digest;

/// The first node of a blob.
///
/// Its table stands in `specs/Node.antt`.
#[derive(Clone, Copy, Debug, PartialEq, Eq)]
pub struct Inode {
    /// The blob's first container, or `0xFFFF_FFFF` for none.
    pub next: u32,
    /// The root of the blob's tree.
    pub root: Digest,
    /// The blob's size in bytes.
    pub size: u64,
    /// The data blocks that the blob takes, those of its tree among them.
    pub blocks: u32,
    /// The extents of the blob, those in containers among them.
    pub extents: u16,
    /// The first extent; start and length are 0 where there is none.
    pub first: Extent,
    /// The version of the blob's layout, 1 or 2.
    pub version: u16,
}
