//! Windows of blobs, read from what keeps the blobs.
#![tactic(auto)]

mod data;
mod laws;
mod places;
mod pushing;
mod tree;
mod window;

pub use bv_proof::RawWindow;
pub use bv_store::{Block, Failed, Store};
pub use laws::written_blobs_verify;
pub use window::{read_window, room_for};

/// The bytes of a block.
const BLOCK_LEN: usize = 8192;

/// The bytes of a digest.
const DIGEST_LEN: usize = 32;

/// The digests of a block of digests.
const DIGESTS: u64 = 256;
