//! Why a block is no superblock of a device.

use crate::FieldName;

/// The first row of the superblock's table that fails.
///
/// The variants stand in the order of the tests.
#[derive(Clone, Copy, Debug, PartialEq, Eq)]
pub enum SuperFault {
    /// One of the two magics is missing.
    Magic,
    /// The version that was read is neither 1 nor 2.
    Version(u32),
    /// A count is out of its range, or isn't what the other counts ask for.
    Counts { field: FieldName, value: u64 },
    /// The first byte that should be zero and isn't, from the start of the block.
    Zero { offset: u64 },
    /// The device has fewer blocks than the geometry needs.
    ShortDevice { wanted: u64, has: u64 },
}
