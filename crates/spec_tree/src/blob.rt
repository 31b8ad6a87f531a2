//! What a map of blobs has at a root.

/// A blob of a map, whose key is its root.
#[derive(Clone, Copy, Debug, PartialEq, Eq)]
pub struct Blob {
    /// In bytes.
    pub size: u64,
    /// The version of the blob's layout, 1 or 2.
    pub version: u32,
}
