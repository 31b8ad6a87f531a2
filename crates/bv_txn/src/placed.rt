//! Which nodes stand in chains, and the containers that don't.
ghost use Rattle.std.specs.Prelude.{◌≡◌, ◌++◌, ◌||◌, ◌*◌, ◌<◌, ◌≤◌, ℕ, true, nat_le, All, IfOk, OnOk, length, slice_index_or};
ghost use Rattle.spec_image.specs.WellFormed.{is_container};
ghost use Rattle.spec_meta.specs.Change.{times};
ghost use Rattle.spec_meta.specs.Survey.{of_each};
ghost use Rattle.bv_node.specs.Chains.{nodes_of};
ghost use Rattle.bv_txn.specs.Surveys.{ArePlaced, orphan_fault};

use crate::SurveyFault;
use crate::reading::node_at;
use bv_node::{BlobRec, Node, NodeFault, NodeMap};
use std::alloc::{AllocError, Global};

/// Marks these nodes.
fn mark(placed: &mut [bool], nodes: &[u32])
    requires { All (λ k. k < length placed.old) nodes.now }
    ensures { (k : ℕ) → k < length placed.old → slice_index_or placed.new k true
        ≡ slice_index_or placed.old k true || nat_le 1 (times k nodes.now) }
{
    for node in nodes {
        placed[*node as usize] = true;
    }
}

/// Of each node, of which there are `count`, whether it stands in a chain.
pub(crate) fn placed_nodes(
    alloc: Global,
    count: u64,
    blobs: &[BlobRec],
) -> Result<Vec<bool>, AllocError>
    requires { All (λ b. All (λ k. k < count) b.nodes) blobs.now }
    ensures count { IfOk result (λ placed. length placed.items ≡ count) }
    ensures placed { IfOk result (λ placed. ArePlaced blobs.now placed.items) }
{
    let mut placed = Vec::from_elem(alloc, false, count as usize)?;
    for blob in blobs {
        mark(&mut placed, blob.nodes());
    }
    Ok(placed)
}

/// Whether node `k` reads, and is a container.
fn is_container_at(nodes: &NodeMap, version: u32, k: u32) -> bool
    requires { k < 128 * length nodes.now }
    ensures { result ≡ is_container ((nodes_of nodes.now version).read k) }
{
    matches!(node_at(nodes, version, k), Ok(Node::Container(_)))
}

/// Adds the fault of node `k`, where it is a container that isn't placed.
fn add_orphan(
    nodes: &NodeMap,
    version: u32,
    placed: &[bool],
    k: u32,
    faults: &mut Vec<SurveyFault>,
) -> Result<(), AllocError>
    requires node { k < length placed.now }
    requires count { length placed.now ≡ 128 * length nodes.now }
    ensures { OnOk result (faults.new.items ≡ faults.old.items
        ++ orphan_fault (nodes_of nodes.now version) placed.now k) }
{
    if is_container_at(nodes, version, k) && !placed[k as usize] {
        faults.push(SurveyFault::Node {
            node: k,
            fault: NodeFault::Orphan,
        })?;
    }
    Ok(())
}

/// Adds the faults of the containers that aren't placed.
pub(crate) fn add_orphans(
    nodes: &NodeMap,
    version: u32,
    placed: &[bool],
    faults: &mut Vec<SurveyFault>,
) -> Result<(), AllocError>
    requires count { length placed.now ≡ 128 * length nodes.now }
    requires few { length placed.now ≤ 65536 }
    ensures { OnOk result (faults.new.items ≡ faults.old.items
        ++ of_each (length placed.now) (orphan_fault (nodes_of nodes.now version) placed.now)) }
{
    for k in 0..placed.len() as u32 {
        add_orphan(nodes, version, placed, k, faults)?;
    }
    Ok(())
}
