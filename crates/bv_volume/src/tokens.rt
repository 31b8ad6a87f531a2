//! The tokens of an add, each of which is spent by the call that takes the add a step on.

use spec_tree::Digest;

/// An add that is under way and has no blocks yet. Its size is in bytes.
pub struct Begun {
    pub(crate) root: Digest,
    pub(crate) size: u64,
}

/// An add that has its blocks, of which so many were put. Its size is in bytes.
pub struct Admitted {
    pub(crate) root: Digest,
    pub(crate) size: u64,
    pub(crate) put: u64,
}
