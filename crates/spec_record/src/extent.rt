//! A run of data blocks.

/// Data blocks that follow one another.
///
/// Its eight bytes and its ranges stand in `specs/Extent.antt`.
#[derive(Clone, Copy, Debug, PartialEq, Eq)]
pub struct Extent {
    /// The first data block.
    pub start: u64,
    /// The number of data blocks.
    pub len: u64,
}
