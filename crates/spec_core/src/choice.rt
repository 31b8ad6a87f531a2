//! What the state leaves open of a reply.

use crate::reply::Reply;

/// The replies that may come.
#[derive(Clone, Copy, Debug, PartialEq, Eq)]
pub enum Choice {
    /// This reply.
    Only(Reply),
    /// This reply, or that the device failed at a write or sync.
    Writes(Reply),
    /// This reply, or that the device failed at a read.
    Reads(Reply),
    /// That the add is admitted, or that there are too few nodes: it needs at most `most` nodes,
    /// and at least `least` are free.
    Nodes { most: u64, least: u64 },
    /// None: the event doesn't come in this state.
    Never,
}
