//! What an event does to the slots and to the blobs.

use crate::place::Place;
use spec_tree::Digest;

/// What an event does, by its act and reply.
#[derive(Clone, Copy, Debug, PartialEq, Eq)]
pub enum Deed {
    Nothing,
    /// The place holds the root.
    Opens { place: Place, root: Digest },
    /// The place holds nothing, and a leaving root that nothing holds then is queued.
    Closes { place: Place },
    /// The root leaves, or is queued.
    Unlinks { root: Digest },
    /// The queue is purged, and the root's add is published.
    Publishes { root: Digest },
    /// The queue is purged.
    Purges,
    /// No place holds anything and all leaving roots are queued, and with `purges` the queue is then
    /// purged.
    Empties { purges: bool },
}
