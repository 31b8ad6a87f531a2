//! The node that carries further extents of a blob.

use crate::Extent;

/// A further node of a blob.
///
/// Its table stands in `specs/Node.antt`.
#[derive(Clone, Copy, Debug, PartialEq, Eq)]
pub struct Container {
    /// The blob's next container, or `0xFFFF_FFFF` for none.
    pub next: u32,
    /// The node before this one: the blob's inode or a container.
    pub previous: u32,
    /// The extents that are used here.
    pub count: u16,
    /// The extents; start and length of an unused one are 0.
    pub extents: [Extent; 6],
    /// The version of the blob's layout, 1 or 2.
    pub version: u16,
}
