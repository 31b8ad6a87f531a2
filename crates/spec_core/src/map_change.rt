//! A change of the map of blobs.

use spec_tree::{Blob, Digest};

/// What the log lists. A purge tells which blob it took away, since its blocks stay taken until the
/// purge is durable.
#[derive(Clone, Copy, Debug, PartialEq, Eq)]
pub enum MapChange {
    Publish { root: Digest, blob: Blob },
    Purge { root: Digest, blob: Blob },
}
