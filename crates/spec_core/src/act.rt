//! What is asked of a volume.

use spec_tree::Digest;

/// The kind of an event, with what the caller gave. Sizes, offsets and lengths are in bytes.
#[derive(Clone, Copy, Debug, PartialEq, Eq)]
pub enum Act {
    /// Puts an add of this blob under way.
    Begin { root: Digest, size: u64 },
    /// Gives the add its blocks and nodes.
    Admit { root: Digest },
    /// Writes the add's next block; `index` counts the add's blocks from 0.
    Put { index: u64 },
    /// Publishes the add.
    Settle { root: Digest },
    /// Ends the add without a publication.
    Retire { root: Digest },
    /// Has the session's slot hold a blob.
    Open { slot: u32, root: Digest },
    /// Reads a window of the slot's blob, counted from 0, from the device.
    Fetch { slot: u32, window: u64 },
    /// Reads a range of the slot's blob.
    Read { slot: u32, off: u64, len: u64 },
    /// Verifies the slot's blob.
    Scan { slot: u32 },
    /// Empties the slot.
    Close { slot: u32 },
    /// Takes a blob away; it is purged once no slot holds it.
    Unlink { root: Digest },
    /// Makes all changes so far durable.
    Sync,
    /// Lists the blobs that are present.
    List,
    /// Empties every slot and makes all changes durable.
    Unmount,
}
