//! Why a block is no info block of a ring.

/// The first row of the info block's table that fails.
///
/// The variants stand in the order of the tests.
#[derive(Clone, Copy, Debug, PartialEq, Eq)]
pub enum InfoFault {
    /// The magic is missing.
    Magic,
    /// The stored checksum, and the one that the bytes have.
    Checksum { wanted: u32, found: u32 },
    /// The first byte that should be zero and isn't, from the start of the block.
    Zero { offset: u64 },
    /// The start is no slot of the ring.
    Start { value: u64 },
    /// The number is out of its range.
    Number { value: u64 },
}
