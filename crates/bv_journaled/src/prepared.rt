//! An entry for which the memory is taken.

use bv_entry::Entry;
use bv_store::{Block, Publication};
use bv_txn::Change;
use spec_tree::Digest;

/// What an entry was asked to do, and the entry that does it.
#[derive(Drop)]
pub struct Prepared {
    /// The roots that it purges, in order.
    pub(crate) purged: Vec<Digest>,
    /// What it then publishes.
    pub(crate) published: Option<Publication>,
    /// Its changes of the metadata.
    pub(crate) changes: Vec<Change>,
    /// The entry, and its blocks as they are written.
    pub(crate) entry: Entry,
    pub(crate) blocks: Vec<Block>,
}
