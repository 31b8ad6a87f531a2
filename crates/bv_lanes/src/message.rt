//! What is hashed.

/// A block of data or of digests.
pub type Block = [u8; 8192];

/// A message of 8,204 bytes: a block after the 12 bytes that say its place and its length.
#[derive(Clone, Copy)]
pub struct Message<'a> {
    /// What comes before the block.
    pub prefix: [u8; 12],
    /// The bytes that follow.
    pub block: &'a Block,
}
