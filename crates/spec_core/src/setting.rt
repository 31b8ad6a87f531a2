//! What a mount never changes.

/// The numbers of a volume that the rules of the core look at.
#[derive(Clone, Copy, Debug, PartialEq, Eq)]
pub struct Setting {
    /// The data blocks, of which block 0 is never a blob's.
    pub blocks: u64,
    pub nodes: u64,
    /// The version of the volume's format, 1 or 2, which new blobs get.
    pub version: u32,
}
