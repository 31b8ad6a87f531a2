//! One place of the node map.

use crate::{Container, Inode};

/// What a place of the node map holds.
///
/// Its tables stand in `specs/Node.antt`.
#[derive(Clone, Copy, Debug, PartialEq, Eq)]
pub enum Node {
    /// Nothing.
    Free,
    /// The first node of a blob.
    Inode(Inode),
    /// A further node of a blob.
    Container(Container),
}
