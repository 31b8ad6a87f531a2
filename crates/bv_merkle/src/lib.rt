//! The Merkle tree of a blob: block digests, sizes, the root, and the tree built from a stream.
#![tactic(auto)]

mod builder;
mod hasher;
mod hashing;
mod kept_tree;
mod rooting;
mod sizes;
mod window;

pub use builder::{Builder, Tree};
pub use bv_lanes::Block;
pub use hasher::RootHasher;
pub use hashing::block_digest;
pub use rooting::root;
pub use sizes::{blocks_needed, blocks_needed_of, levels, tree_blocks, tree_blocks_of, windows};
pub use spec_tree::Digest;
pub use window::window_digests;

/// The bytes of a block.
const BLOCK_LEN: usize = 8192;

/// The bytes of a window: eight blocks.
const WINDOW_LEN: usize = 65_536;

/// The digests in a block of digests.
const DIGESTS: u64 = 256;
