//! The counts of a superblock by name.

/// A count of the superblock, in the order of its table.
#[derive(Clone, Copy, Debug, PartialEq, Eq)]
pub enum FieldName {
    /// The data blocks.
    Blocks,
    /// The nodes.
    Nodes,
    /// The journal's blocks.
    Journal,
    /// The blocks of the bitmap.
    BitmapBlocks,
    /// The blocks of the node map.
    NodeBlocks,
    /// The inodes in use.
    Blobs,
    /// The bits that are set.
    UsedBlocks,
    /// The nodes in use.
    UsedNodes,
}
