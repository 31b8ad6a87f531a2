//! What can be wrong with a node, alone or as a part of a chain.

/// The first test of a node, or of the chain of nodes from an inode, that fails.
///
/// `Flags`, `Version` and `Zero` come from 64 bytes alone, the others from the nodes together.
#[derive(Clone, Copy, Debug, PartialEq, Eq)]
pub enum NodeFault {
    /// The flags that were read are those of no kind of node.
    Flags(u16),
    /// The node's version is 0 or above the volume's.
    Version(u16),
    /// The first byte that should be zero and isn't, from the start of the node.
    Zero { offset: u64 },
    /// The chain was to begin at a node that is no inode.
    NotInode,
    /// A count is not the one that the chain or the size asks for.
    Count { said: u64, found: u64 },
    /// The link of this node names no next node of its chain.
    BadLink { node: u32 },
    /// An extent of this node is out of its ranges; the index counts from 0 within the node.
    Extent { node: u32, index: u32 },
    /// A container that reads and stands in no chain that was read without a fault.
    Orphan,
}
