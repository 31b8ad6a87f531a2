//! A blob that is to be added: its root, and its blocks as they are written.
#![tactic(auto)]

mod adding;
mod blocks;
mod compact;

pub use adding::Adding;
pub use bv_merkle::Block;

/// The bytes of a block.
const BLOCK_LEN: usize = 8192;

/// The bytes of a digest.
const DIGEST_LEN: usize = 32;

/// The digests in a block of digests.
const DIGESTS: usize = 256;
