//! What a mount takes memory for.

use bv_node::BlobRec;
use bv_ring::Ring;
use spec_tree::{Blob, Digest};
use std::collections::BTreeMap;

/// The blobs of a volume, and the ring that its recovery leaves. A mount takes this memory before it
/// writes.
#[derive(Drop)]
pub(crate) struct Taken {
    /// The blobs by their roots.
    pub(crate) map: BTreeMap<Digest, Blob>,
    /// The same, as a history opens with them: root, size and version.
    pub(crate) opening: Vec<(Digest, u64, u32)>,
    /// The same, as their chains read.
    pub(crate) blobs: Vec<BlobRec>,
    /// The ring of an empty journal behind the replayed entries.
    pub(crate) ring: Ring,
}
