//! Where nodes are looked for first: the inodes of roots, and free nodes. All of it is tried on the
//! metadata at each use, and the metadata is searched where it is wrong.

use crate::prepared::Prepared;
use crate::reading::root_at;
use bv_txn::{Change, Meta};
use spec_tree::Digest;
use std::alloc::Global;
use std::collections::BTreeMap;

/// Hints about the nodes of the metadata.
#[derive(Drop)]
pub(crate) struct Hints {
    /// The inodes of roots.
    inodes: BTreeMap<Digest, u32>,
    /// From this node on there may be free ones.
    free_from: u64,
}

impl Hints {
    /// What the metadata shows. Where memory is wanted there are hints about fewer roots.
    pub(crate) fn new(alloc: Global, meta: &Meta) -> Hints {
        let mut inodes = BTreeMap::new(alloc);
        for node in 0..meta.geometry().nodes {
            if let Some(root) = root_at(meta, node) {
                if inodes.insert(root, node as u32).is_err() {
                    break;
                }
            }
        }
        Hints {
            inodes,
            free_from: 0,
        }
    }

    /// The node that may be the inode of a root.
    pub(crate) fn inode_of(&self, root: &Digest) -> Option<u32> {
        self.inodes.get(root).copied()
    }

    /// From where on there may be free nodes.
    pub(crate) fn free_from(&self) -> u64 {
        self.free_from
    }

    /// An entry may come that publishes a blob. The memory for it is taken here.
    pub(crate) fn expect(&mut self, prepared: &Prepared) {
        for change in &prepared.changes {
            if let Change::Publish { root, nodes, .. } = change {
                if let Some(inode) = nodes.first() {
                    if self.inodes.insert(*root, *inode).is_err() {
                        return;
                    }
                }
            }
        }
    }

    /// An entry of these purges and changes was made.
    pub(crate) fn follow(&mut self, purged: &[Digest], changes: &[Change]) {
        for root in purged {
            self.inodes.remove(root);
        }
        for change in changes {
            self.free_from = after(self.free_from, change);
        }
    }
}

/// From where on there may be free nodes after a change.
fn after(free_from: u64, change: &Change) -> u64 {
    match change {
        Change::Publish { nodes, .. } => match nodes.last() {
            Some(last) => free_from.max(u64::from(*last) + 1),
            None => free_from,
        },
        Change::Purge { nodes, .. } => match nodes.iter().copied().min() {
            Some(first) => free_from.min(u64::from(first)),
            None => free_from,
        },
    }
}
