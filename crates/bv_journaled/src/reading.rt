//! The nodes of the metadata, read.

ghost use Rattle.std.specs.Prelude.{◌≡◌, ◌<◌, take, drop, true, IfSome};
ghost use Rattle.spec_meta.proofs.Frame.{is_free as reads_free};
ghost use Rattle.bv_txn.specs.Metas.{metadata_of};
ghost use Rattle.bv_journaled.specs.Inodes.{bytes_at, is_inode_of as reads_inode_of};

use bv_bytes::Field;
use bv_node::{Node, Place, read_node};
use bv_txn::Meta;
use spec_tree::Digest;

/// The bytes of a node.
fn place_of(meta: &Meta, node: u64) -> &Place
    requires { node < meta.now.geometry.nodes }
    ensures { result.now ≡ bytes_at meta.now node }
{
    let at = 1 + meta.geometry().bitmap() + node / 128;
    let block = &meta.blocks()[at as usize];
    &block.as_chunks::<64>().0[(node % 128) as usize]
}

/// The bytes where an inode has its root.
fn root_in(place: &Place) -> Digest
    ensures { result ≡ record { 0 = take 32 (drop 8 place.now) } }
{
    let mut root = [0; 32];
    root.copy_from_slice(&place[8..40]);
    Digest(root)
}

/// Whether a node is the inode of a blob with this root. Of most others only the root is looked at.
pub(crate) fn is_inode_of(meta: &Meta, node: u64, root: &Digest) -> bool
    requires { node < meta.now.geometry.nodes }
    ensures { result ≡ reads_inode_of root.now ((metadata_of meta.now).nodes.read node) }
{
    let place = place_of(meta, node);
    if !root.cmp(&root_in(place)).is_eq() {
        return false;
    }
    matches!(
        read_node(place, meta.geometry().version),
        Ok(Node::Inode(_))
    )
}

/// Whether a node is free. Of a node in use only the flags are looked at.
pub(crate) fn is_free(meta: &Meta, node: u64) -> bool
    requires { node < meta.now.geometry.nodes }
    ensures { result ≡ reads_free ((metadata_of meta.now).nodes.read node) }
{
    let place = place_of(meta, node);
    if Field::<0, 2>::get(place) != 0 {
        return false;
    }
    matches!(read_node(place, meta.geometry().version), Ok(Node::Free))
}

/// The root of the blob whose inode a node is, if it is one.
pub(crate) fn root_at(meta: &Meta, node: u64) -> Option<Digest>
    requires { node < meta.now.geometry.nodes }
    ensures { IfSome result (λ root.
        reads_inode_of root ((metadata_of meta.now).nodes.read node) ≡ true) }
{
    let root = root_in(place_of(meta, node));
    if is_inode_of(meta, node, &root) {
        Some(root)
    } else {
        None
    }
}
