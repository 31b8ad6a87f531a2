//! The Merkle tree of a blob, as definitions, and laws that show what they mean.
#![tactic(auto)]

mod blob;
pub mod laws;

pub use blob::Blob;

/// The digest of a block, and so also the root that names a blob: SHA-256's 32 bytes.
#[derive(Clone, Copy, Debug, PartialEq, Eq, PartialOrd, Ord, Hash)]
pub struct Digest(pub [u8; 32]);
